ghost use Rattle.std.specs.Prelude.{◌≡◌, MatchOption, [], length};
ghost use Rattle.node_commands.specs.Signing.{IsNoStop, JoinAnswer, SignsOpen};
ghost use Rattle.outcomes.specs.Texts.{line_of};

use bec_disk::Disk;
use key_index::KeyStore;
use outcomes::{ID_LINE, Refusal, id_line, made_refusal, room_for_id};
use rand_core::Rng;
use replica::Replica;
use row_check::Luhn;
use std::alloc::Global;
use store_directory::each_stands;
use update_model::UpdateId;

/// Joins the heads of a store by a key, and answers the line of the update's id, or nothing. The memory for the line is
/// taken before.
pub fn join<D: Disk, R: Rng>(
    alloc: Global,
    replica: &mut Replica<D, Luhn, Luhn>,
    key: &mut KeyStore<D>,
    random: &mut R,
) -> Result<Vec<u8>, Refusal>
    ensures { SignsOpen (JoinAnswer (R.stream random.old)) IsNoStop (R.stream random.old) (R.stream random.new)
        replica.old key.old replica.new key.new result }
{
    each_stands(replica);
    let room = room_for_id(alloc)?;
    let mut c = [0; 32];
    random.fill_bytes(&mut c);
    let joined = replica.join(alloc, key, &c);
    each_stands(replica);
    match joined {
        Ok(id) => Ok(line_or_none(alloc, room, id)),
        Err(fault) => Err(made_refusal(key, fault)),
    }
}

/// The line of an id, in this room, or nothing. It takes no memory.
fn line_or_none(alloc: Global, room: Vec<u8>, id: Option<UpdateId>) -> Vec<u8>
    requires { length room.items ≡ ID_LINE }
    ensures { MatchOption id (result.items ≡ []) (λ id. result.items ≡ line_of id) }
{
    match id {
        Some(id) => id_line(room, &id),
        None => Vec::new(alloc),
    }
}
