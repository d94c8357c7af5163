//! Laws of the lives of keys. Each function does nothing: its contract is a theorem for callers to cite.

ghost use Rattle.std.specs.Prelude.{◌≡◌, ℕ, List};
ghost use Rattle.bec_disk.specs.Disk.{EveryImage};
ghost use Rattle.key_index.specs.KeyState.{AreTold, KeyParts};
ghost use Rattle.key_index.specs.Used.{IsUsed};
ghost use Rattle.key_index.specs.Lives.{AreApart, Closed, Has, Histories, IsThere, Life, Message, parts_in};

/// Over any list of calls that create, open and sign, of faults, stops at any moment within them and
/// restarts, each index signs at most one message, and each crash after a signature leaves its index
/// used.
pub fn no_index_twice_ever()
    ensures once { (parts : KeyParts) (signed : List Message) (last : Life) → AreTold parts
        → Histories (Closed parts) signed last → AreApart signed }
    ensures used { (parts : KeyParts) (signed : List Message) (last : Life) (index : ℕ) → AreTold parts
        → Histories (Closed parts) signed last → Has signed index
        → EveryImage (parts_in last).used.now (IsUsed index) }
    ensures stays { (life last : Life) (signed : List Message) (index : ℕ) → AreTold (parts_in life)
        → EveryImage (parts_in life).key.now IsThere
        → EveryImage (parts_in life).used.now (IsUsed index) → Histories life signed last → (Has signed index → ⊥)
        × EveryImage (parts_in last).used.now (IsUsed index) }
{}
