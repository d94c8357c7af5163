//! Laws of what the calls do. Each function does no work: its contract is a theorem for callers to cite.

ghost use Rattle.std.specs.Prelude.{◌≡◌, ◌≢◌, ◌<◌, ◌^◌, ℕ, List, Some, IsTrue};
ghost use Rattle.rand_core.specs.Stream.{Stream};
ghost use Rattle.bec_disk.specs.declared.part.Part.TheVariants.{Peers};
ghost use Rattle.bec_disk.specs.Shelf.{ShelfState};
ghost use Rattle.key_index.specs.Used.{least_unused};
ghost use Rattle.key_directory.specs.Parts.{part_in};
ghost use Rattle.hss_directory.specs.Calls.{RefusesToSign, Signs};
ghost use Rattle.hss_directory.specs.Values.{HssState, low_dir};
ghost use Rattle.hss_directory.specs.declared.fault.HssFault.{HssFault};

/// A signature changes the part Peers of no directory but that of the least top index that is not used, whether it is
/// made or refused. Two indices have two directories.
pub fn used_peers_stay()
    ensures made { (random left : Stream) (before after : ShelfState) (old new : HssState) (msg seal dir : List ℕ)
        → Signs random before old msg seal new after left → IsTrue before.tells
        → ((index : ℕ) → least_unused old.top.taken ≡ Some index → dir ≢ low_dir old.dir index)
        → part_in after dir Peers ≡ part_in before dir Peers }
    ensures refused { (random left : Stream) (before after : ShelfState) (old new : HssState) (msg dir : List ℕ)
        (why : HssFault) → RefusesToSign random before old msg why new after left → IsTrue before.tells
        → ((index : ℕ) → least_unused old.top.taken ≡ Some index → dir ≢ low_dir old.dir index)
        → part_in after dir Peers ≡ part_in before dir Peers }
    ensures apart { (dir : List ℕ) (one other : ℕ) → one < 2 ^ 32 → other < 2 ^ 32 → low_dir dir one ≡ low_dir dir other
        → one ≡ other }
{}
