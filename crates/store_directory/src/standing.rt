ghost use Rattle.store_directory.specs.Standing.{Stands};

use bec_disk::Disk;
use replica::Replica;
use row_check::Luhn;

/// What holds of each store that is open, by its type. It does nothing.
pub fn each_stands<D: Disk>(replica: &Replica<D, Luhn, Luhn>)
    ensures { Stands replica.now }
{
    let _node = replica.node();
    let _count = replica.len();
}
