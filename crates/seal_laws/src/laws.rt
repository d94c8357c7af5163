//! Laws of one-time keys over a shelf. Each function does no work: its contract is a theorem for callers to cite.

ghost use Rattle.std.specs.Prelude.{◌≡◌, ◌⊎◌, ℕ, List, [], ◌∷◌, ◌++◌, Option, Some, None, IfSome, IsTrue};
ghost use Rattle.rand_core.specs.Stream.{Stream};
ghost use Rattle.bec_disk.specs.Disk.{EveryImage};
ghost use Rattle.bec_disk.specs.declared.part.Part.TheVariants.{Key, Used};
ghost use Rattle.bec_disk.specs.Shelf.{ShelfState};
ghost use Rattle.lms_tree.specs.SecretKey.{SecretData};
ghost use Rattle.key_index.specs.KeyState.{KeyState};
ghost use Rattle.key_index.specs.Used.{IsUsed};
ghost use Rattle.key_directory.specs.Parts.{LetsNewGo};
ghost use Rattle.hss_directory.specs.Calls.{CreatesHss, KeepsHss, OpensHss, PutsHss, RefusesToSign, Signs};
ghost use Rattle.hss_directory.specs.Places.{OnlyReads};
ghost use Rattle.hss_directory.specs.Values.{HssState, IsReadable, IsSound, LowerState};
ghost use Rattle.hss_directory.specs.declared.fault.HssFault.{HssFault};
ghost use Rattle.seal_laws.specs.Acts.{IndexUse};
ghost use Rattle.seal_laws.specs.Calls.{AreElsewhere, AreSpentReadable, refused_uses, sealing_uses, world_of};
ghost use Rattle.seal_laws.specs.Histories.{AreApart, Has, Histories, Runs};
ghost use Rattle.seal_laws.specs.Worlds.{HoldsNone, IsUsedIn, World};

/// Over every list of calls, faults, stops at any moment and restarts, which begins with no key open, each index of
/// each directory's key signs at most one message, and is used in whatever a crash leaves from then on. An index of an
/// open key that each crash leaves used signs nothing more.
pub fn no_index_signs_twice()
    ensures once { (start last : World) (uses : List IndexUse) → IsTrue start.shelf.tells → HoldsNone start
        → Histories start uses last → AreApart uses }
    ensures used { (start last : World) (uses : List IndexUse) (dir : List ℕ) (index : ℕ) → IsTrue start.shelf.tells
        → HoldsNone start → Histories start uses last → Has uses dir index → IsUsedIn last dir index }
    ensures stays { (start mid last : World) (uses more : List IndexUse) (dir : List ℕ) (index : ℕ) (key : KeyState)
        → IsTrue start.shelf.tells → HoldsNone start → Histories start uses mid
        → mid.held dir ≡ Some key → EveryImage key.parts.used.now (IsUsed index) → Histories mid more last
        → (Has more dir index → ⊥) × IsUsedIn last dir index }
{}

/// Each call of a two-level key, as its contract tells what it does, is a run of acts in which these indices signed,
/// whatever other keys are open elsewhere. Creating, opening and closing sign nothing.
pub fn calls_are_runs()
    ensures creates { (secret : SecretData) (before after : ShelfState) (dir : List ℕ) (hss : HssState)
        (others : List ℕ → Option KeyState) → AreElsewhere others dir → CreatesHss secret before dir hss after
        → Runs (world_of before None others) [] (world_of after (Some hss) others) }
    ensures creates_none { (payload filling : List ℕ) (before after : ShelfState) (dir : List ℕ)
        (others : List ℕ → Option KeyState) → AreElsewhere others dir
        → (after ≡ before) ⊎ LetsNewGo Key Used payload filling before dir after
        → Runs (world_of before None others) [] (world_of after None others) }
    ensures opens { (before after : ShelfState) (dir : List ℕ) (hss : HssState) (others : List ℕ → Option KeyState)
        → AreElsewhere others dir → OpensHss before dir hss after
        → Runs (world_of before None others) [] (world_of after (Some hss) others) }
    ensures opens_none { (before after : ShelfState) (others : List ℕ → Option KeyState) → OnlyReads before after
        → Runs (world_of before None others) [] (world_of after None others) }
    ensures signs { (random left : Stream) (before after : ShelfState) (old new : HssState) (msg seal : List ℕ)
        (others : List ℕ → Option KeyState) → AreElsewhere others old.dir → IsSound old → AreSpentReadable old
        → (signs : Signs random before old msg seal new after left)
        → Runs (world_of before (Some old) others) (sealing_uses signs) (world_of after (Some new) others) }
    ensures signs_none { (random left : Stream) (before after : ShelfState) (old new : HssState) (msg : List ℕ)
        (why : HssFault) (others : List ℕ → Option KeyState) → AreElsewhere others old.dir → IsSound old
        → AreSpentReadable old → (refuses : RefusesToSign random before old msg why new after left)
        → Runs (world_of before (Some old) others) (refused_uses refuses) (world_of after (Some new) others) }
    ensures closes { (before after : ShelfState) (hss : HssState) (others : List ℕ → Option KeyState)
        → AreElsewhere others hss.dir → IsSound hss
        → IsReadable hss.top × IfSome hss.lower (λ lower. IsReadable lower.key) → PutsHss before hss after
        → Runs (world_of before (Some hss) others) [] (world_of after None others) }
{}

/// From a released seal on, both of its indices are used in whatever a crash leaves, and neither signs again: the one
/// of the top key, and the one of the lower key.
pub fn seals_stay_used()
    ensures { (start last : World) (uses more : List IndexUse) (random left : Stream) (before after : ShelfState)
        (old new : HssState) (msg seal : List ℕ) (others : List ℕ → Option KeyState)
        → IsTrue start.shelf.tells → HoldsNone start → AreElsewhere others old.dir → IsSound old → AreSpentReadable old
        → Histories start uses (world_of before (Some old) others)
        → (signs : Signs random before old msg seal new after left) → KeepsHss before old after new
        → Histories (world_of after (Some new) others) more last
        → IsUsedIn last old.dir signs.lower.index × IsUsedIn last signs.lower.dir signs.seals.signs.index
        × (Has more old.dir signs.lower.index → ⊥) × (Has more signs.lower.dir signs.seals.signs.index → ⊥) }
{}
