//! Whether a counterexample confirms.

ghost use Rattle.std.specs.Prelude.{◌≡◌, ◌∷◌, ◌++◌, ◌&&◌, List, IfOk, OnOk, reverse};
ghost use Rattle.confluence_laws.specs.Confluence.{confirms, is_closed};
ghost use Rattle.table_model.specs.Invariants.{Declared, claims_of, invariants_of, shown_in};
ghost use Rattle.table_model.specs.Nodes.{IsClosed};
ghost use Rattle.confluence_checker.specs.Forms.{IsInvariantOf, breaks_by, found_among, is_broken, is_kept, start};
ghost use Rattle.table_model.specs.Visible.{rules_with};

use crate::ancestors::effects;
use crate::checker::Checker;
use crate::found::FoundInvariant;
use crate::ids::passes_closed;
use crate::judging::judged;
use crate::searching::found;
use crate::visibility::shown_rows;
use confluence_laws::shown_rows_fit;
use row_check::{Checks, Native, Relation};
use schema::Schema;
use std::alloc::{AllocError, Global};
use table_model::{Counterexample, Invariant};
use update_model::Node;

/// Equal nodes, those of one list and then those of another.
fn one_then(alloc: Global, first: &[Node], second: &[Node]) -> Result<Vec<Node>, AllocError>
    ensures { IfOk result (λ nodes. nodes.items ≡ first.now ++ second.now) }
{
    let mut nodes = Vec::new(alloc);
    push_all(alloc, &mut nodes, first)?;
    push_all(alloc, &mut nodes, second)?;
    Ok(nodes)
}

/// Puts equal nodes at the end of a list.
fn push_all(alloc: Global, nodes: &mut Vec<Node>, more: &[Node]) -> Result<(), AllocError>
    ensures { OnOk result (nodes.new.items ≡ nodes.old.items ++ more.now) }
{
    for node in more {
        nodes.push(node.copy(alloc)?)?;
    }
    Ok(())
}

/// Whether the invariants before a wanted one hold in a closed list in the order of arrival, and whether that one does.
fn found_in<L: Relation, C: Checks<L>>(
    checker: &Checker<'_, L, C>,
    nodes: &[Node],
    which: &Invariant,
) -> Result<FoundInvariant, AllocError>
    requires { IsClosed (reverse nodes.now) }
    ensures { IfOk result (λ found. let rules = rules_with L.answer checker.now.schema.now.tables in
        found ≡ found_among rules (shown_in rules (reverse nodes.now)) which.now (invariants_of rules) start) }
{
    shown_rows_fit();
    let (alloc, schema, native) = (checker.alloc, checker.schema, checker.native);
    let _tables = schema.tables(); // what every schema keeps
    let js = judged(alloc, schema, native, nodes)?;
    let did = effects(alloc, js.as_slice())?;
    let rows = shown_rows(alloc, schema, &did)?;
    let answer = found(alloc, schema, native, rows.as_slice(), which)?;
    Ok(answer)
}

/// Whether the wanted invariant was found to hold, and those before it.
fn is_kept(found: &FoundInvariant) -> bool
    ensures { result ≡ is_kept found.now }
{
    found.earlier && found.here == Some(true)
}

/// Whether the wanted invariant was found not to hold.
fn is_broken(found: &FoundInvariant) -> bool
    ensures { result ≡ is_broken found.now }
{
    found.here == Some(false)
}

/// Whether both sides and their union are closed.
fn are_closed(left: &[Node], right: &[Node], both: &[Node]) -> bool
    ensures { result ≡ (is_closed (reverse left.now) && is_closed (reverse right.now) && is_closed (reverse both.now)) }
{
    passes_closed(left) && passes_closed(right) && passes_closed(both)
}

/// Whether the wanted invariant holds on both sides, with those before it, and not in their union.
fn is_shown(left: &FoundInvariant, right: &FoundInvariant, both: &FoundInvariant) -> bool
    ensures { result ≡ (is_kept left.now && is_kept right.now && is_broken both.now) }
{
    is_kept(left) && is_kept(right) && is_broken(both)
}

/// Whether both sides and their union, each in the order of arrival, confirm that merging breaks an invariant.
fn confirm<L: Relation, C: Checks<L>>(
    checker: &Checker<'_, L, C>,
    which: &Invariant,
    left: &[Node],
    right: &[Node],
    both: &[Node],
) -> Result<bool, AllocError>
    ensures { IfOk result (λ answer. let rules = rules_with L.answer checker.now.schema.now.tables in
        (earlier later : List Declared) (declared : Declared) → invariants_of rules ≡ earlier ++ declared ∷ later
        → declared.which ≡ which.now
        → answer ≡ breaks_by rules (claims_of earlier) declared.claim left.now right.now both.now) }
{
    if !are_closed(left, right, both) {
        return Ok(false);
    }
    let on_left = found_in(checker, left, which)?;
    let on_right = found_in(checker, right, which)?;
    let on_both = found_in(checker, both, which)?;
    Ok(is_shown(&on_left, &on_right, &on_both))
}

/// Whether a counterexample confirms that merging breaks an invariant of a schema: both sides and their union are
/// closed, each side satisfies this invariant and those before it, and the union breaks this one.
///
/// The order of invariants is: by table; in a table the `UNIQUE` lines, `ATMOST`, the references by column, the `CHECK`
/// and the `MATCH` lines. It gives up where memory runs out.
pub fn confirms<L: Relation, C: Checks<L>>(
    alloc: Global,
    schema: &Schema,
    native: &Native<L, C>,
    which: &Invariant,
    example: &Counterexample,
) -> Result<bool, AllocError>
    requires { IsInvariantOf (rules_with L.answer schema.now.tables) which.now }
    ensures { IfOk result (λ answer. let rules = rules_with L.answer schema.now.tables in
        (earlier later : List Declared) (declared : Declared) → invariants_of rules ≡ earlier ++ declared ∷ later
        → declared.which ≡ which.now
        → answer ≡ confirms rules (claims_of earlier) declared.claim example.now) }
{
    let base = example.base.as_slice();
    let left = one_then(alloc, base, example.left.as_slice())?;
    let right = one_then(alloc, base, example.right.as_slice())?;
    let both = one_then(alloc, left.as_slice(), example.right.as_slice())?;
    let answer = confirm(
        &Checker {
            alloc,
            schema,
            native,
        },
        which,
        left.as_slice(),
        right.as_slice(),
        both.as_slice(),
    )?;
    Ok(answer)
}
