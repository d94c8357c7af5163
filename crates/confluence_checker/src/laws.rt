//! Laws of counterexamples. Each function does nothing: its contract is a theorem for callers to cite.

ghost use Rattle.std.specs.Prelude.{◌≡◌, ◌++◌, ◌∷◌, [], false, List, IsTrue};
ghost use Rattle.update_model.specs.Node.{NodeData};
ghost use Rattle.table_model.specs.declared.counterexample.Counterexample.{Counterexample};
ghost use Rattle.confluence_laws.specs.Confluence.{IsConfluent, confirms};
ghost use Rattle.table_model.specs.Invariants.{Claim, claim_holds, satisfies, shown_in};
ghost use Rattle.table_model.specs.Nodes.{Agree, IsClosed, union};
ghost use Rattle.table_model.specs.Visible.{Rules};
ghost use Rattle.confluence_checker.specs.Parting.{parted};

use confluence_laws::invariants_are_of_the_set;

/// Two closed lists that agree may share updates. Where both satisfy an invariant and those before it, and their union
/// breaks it, the counterexample confirms whose base is what both have.
pub fn shared_updates_are_a_base()
    ensures { (rules : Rules) (earlier : List Claim) (claim : Claim) (xs ys : List NodeData) → IsClosed xs → IsClosed ys
        → Agree xs ys
        → IsTrue (satisfies rules xs (earlier ++ claim ∷ [])) → IsTrue (satisfies rules ys (earlier ++ claim ∷ []))
        → claim_holds rules (shown_in rules (union xs ys)) claim ≡ false
        → IsTrue (confirms rules earlier claim (parted xs ys)) }
{
    invariants_are_of_the_set();
}

/// An invariant of which no counterexample confirms is confluent. So nothing is lost by asking of a counterexample that
/// its sides share no update.
pub fn unconfirmed_is_confluent()
    ensures { (rules : Rules) (earlier : List Claim) (claim : Claim)
        → ((example : Counterexample) → confirms rules earlier claim example ≡ false)
        → IsConfluent rules earlier claim }
{
    shared_updates_are_a_base();
}
