//! Who names a member: the way up from it to the members whose ancestor it is.

ghost use Rattle.std.specs.Prelude.{◌≡◌, ◌<◌, ◌==◌, ◌++◌, ◌∷◌, [], ℕ, All, length, slice_index_or, true, IfOk, OnOk};
ghost use Rattle.std.specs.Prelude.{OnErr};
ghost use Rattle.std.specs.List.{list_any};
ghost use Rattle.ancestry.specs.Named.{is_noted};
ghost use Rattle.ancestry.specs.Walks.{AreLower};

use std::alloc::{AllocError, Global};
use std::marker::Model;
use update_model::PositionList;

/// The positions of the members that name one member. Others may stand among them, so who looks here asks the member
/// that is told.
#[derive(Drop)]
pub(crate) struct Namers {
    positions: Vec<u32>,
}

impl Model for Namers {
    ghost use Rattle.std.specs.Prelude.{ℕ, List};

    ghost Value = { List ℕ };

    ghost view = { λ namers. namers.positions.items };
}

impl Namers {
    /// Nobody yet. It takes no memory.
    pub(crate) fn new(alloc: Global) -> Namers
        ensures { result ≡ [] }
    {
        Namers {
            positions: Vec::new(alloc),
        }
    }

    /// Lends the positions.
    pub(crate) fn as_slice(&self) -> &[u32]
        ensures { result.now ≡ self.now }
    {
        self.positions.as_slice()
    }

    /// An equal list on memory of its own.
    pub(crate) fn copy(&self, alloc: Global) -> Result<Namers, AllocError>
        ensures { IfOk result (λ namers. namers ≡ self.now) }
    {
        Ok(Namers {
            positions: Vec::from_slice(alloc, self.positions.as_slice())?,
        })
    }

    /// Takes a position at the end.
    fn push(&mut self, position: u32) -> Result<(), AllocError>
        ensures value { OnOk result (self.new ≡ self.old ++ position ∷ []) }
        ensures same { OnErr result (self.new ≡ self.old) }
    {
        self.positions.push(position)?;
        Ok(())
    }

    /// Leaves out what stands at the end and is not below `len`.
    fn shorten(&mut self, len: u32)
        ensures { (q : ℕ) → q < len → list_any (λ s. s == q) self.old ≡ true → list_any (λ s. s == q) self.new ≡ true }
    {
        while let Some(last) = self.positions.last() {
            if *last < len {
                break;
            }
            self.positions.pop();
        }
    }
}

/// Notes of each of these members that the one at this position names it. Where memory runs out, some are noted.
pub(crate) fn note(namers: &mut [Namers], preds: &[u32], position: u32) -> Result<(), AllocError>
    requires { All (λ p. p < length namers.old) preds.now }
    ensures kept { (p q : ℕ) → is_noted namers.old p q ≡ true → is_noted namers.new p q ≡ true }
    ensures noted { OnOk result ((p : ℕ) → list_any (λ k. k == p) preds.now ≡ true
        → is_noted namers.new p position ≡ true) }
{
    for pred in preds {
        namers[*pred as usize].push(position)?;
    }
    Ok(())
}

/// Leaves out what was noted of these members last, by members from `len` on.
pub(crate) fn forget(namers: &mut [Namers], preds: &[u32], len: u32)
    requires { All (λ p. p < length namers.old) preds.now }
    ensures { (p q : ℕ) → q < len → is_noted namers.old p q ≡ true → is_noted namers.new p q ≡ true }
{
    for pred in preds {
        namers[*pred as usize].shorten(len);
    }
}

/// Leaves out what members from `len` on have noted of those that they name.
pub(crate) fn unname(namers: &mut [Namers], members: &[PositionList], len: u32)
    requires lower { AreLower members.now }
    requires long { length namers.old ≡ length members.now }
    ensures { (p q : ℕ) → q < len → is_noted namers.old p q ≡ true → is_noted namers.new p q ≡ true }
{
    for position in len as usize..members.len() {
        forget(namers, members[position].as_slice(), len);
    }
}
