ghost use Rattle.std.specs.Prelude.{◌≡◌, ◌∷◌, IfOk, OnOk};
ghost use Rattle.table_model.specs.Verdicts.{nothing, joined};
ghost use Rattle.table_model.specs.Visible.{is_deleted};

use crate::ids::is_among;
use crate::inserted_row::{InsertedRow, copy_rows};
use std::alloc::{AllocError, Global};
use std::marker::Model;
use update_model::RowName;

/// What the valid members of a set did: which rows they inserted, and which names they deleted, newest first.
#[derive(Drop)]
pub(crate) struct RowEffects {
    inserted: Vec<InsertedRow>,
    deleted: Vec<RowName>,
}

impl Model for RowEffects {
    ghost use Rattle.table_model.specs.Visible.{Effects};

    ghost Value = { Effects };

    ghost view = { λ did. record { inserted = did.inserted.items; deleted = did.deleted.items } };
}

impl RowEffects {
    /// Nothing was done.
    pub(crate) fn nothing(alloc: Global) -> RowEffects
        ensures { result ≡ nothing }
    {
        RowEffects {
            inserted: Vec::new(alloc),
            deleted: Vec::new(alloc),
        }
    }

    /// The rows that were inserted.
    pub(crate) fn inserted(&self) -> &[InsertedRow]
        ensures { result.now ≡ self.now.inserted }
    {
        self.inserted.as_slice()
    }

    /// The names that were deleted.
    pub(crate) fn deleted(&self) -> &[RowName]
        ensures { result.now ≡ self.now.deleted }
    {
        self.deleted.as_slice()
    }

    /// Whether a name was deleted.
    pub(crate) fn is_deleted(&self, name: &RowName) -> bool
        ensures { result ≡ is_deleted self.now name.now }
    {
        is_among(self.deleted.as_slice(), name)
    }

    /// With one row more.
    pub(crate) fn insert(&mut self, row: InsertedRow) -> Result<(), AllocError>
        ensures { OnOk result (self.new ≡ record self.old { inserted = row ∷ self.old.inserted }) }
    {
        self.inserted.insert(0, row)?;
        Ok(())
    }

    /// With one deletion more.
    pub(crate) fn delete(&mut self, name: RowName) -> Result<(), AllocError>
        ensures { OnOk result (self.new ≡ record self.old { deleted = name ∷ self.old.deleted }) }
    {
        self.deleted.insert(0, name)?;
        Ok(())
    }

    /// Equal effects on memory of their own.
    pub(crate) fn copy(&self, alloc: Global) -> Result<RowEffects, AllocError>
        ensures { IfOk result (λ did. did ≡ self.now) }
    {
        Ok(RowEffects {
            inserted: copy_rows(alloc, self.inserted.as_slice())?,
            deleted: Vec::from_slice(alloc, self.deleted.as_slice())?,
        })
    }

    /// These, after older ones.
    pub(crate) fn joined(self, older: RowEffects) -> Result<RowEffects, AllocError>
        ensures { IfOk result (λ did. did ≡ joined self older) }
    {
        let RowEffects {
            mut inserted,
            mut deleted,
        } = self;
        let RowEffects {
            inserted: mut rows,
            deleted: mut names,
        } = older;
        inserted.append(&mut rows)?;
        deleted.append(&mut names)?;
        Ok(RowEffects { inserted, deleted })
    }
}
