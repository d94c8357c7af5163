ghost use Rattle.std.specs.Prelude.{◌≡◌, ◌↔◌, IsTrue, IfOk};
ghost use Rattle.update_model.specs.Rule.{IsListed};

use crate::{AuthorKey, KeyList};
use std::alloc::{AllocError, Global};
use std::marker::Model;

/// Which updates a database takes: those that name it and whose author is listed.
#[derive(Drop)]
pub struct DbRule {
    /// The id of the database.
    pub database: [u8; 32],
    /// The authors whose updates are taken. An empty list lists every author.
    pub authors: KeyList,
}

impl Model for DbRule {
    ghost use Rattle.update_model.specs.Rule.{RuleData};

    ghost Value = { RuleData };

    ghost view = { λ rule. record { database = rule.database; authors = rule.authors } };
}

impl DbRule {
    /// Whether updates by this author are taken: the list is empty or has the key.
    pub fn lists(&self, key: &AuthorKey) -> bool
        ensures { IsTrue result ↔ IsListed self.now.authors key.now }
    {
        let authors = self.authors.as_slice();
        authors.is_empty() || authors.contains(key)
    }

    /// An equal rule on memory of its own.
    pub fn copy(&self, alloc: Global) -> Result<DbRule, AllocError>
        ensures { IfOk result (λ rule. rule ≡ self.now) }
    {
        Ok(DbRule {
            database: self.database,
            authors: self.authors.copy(alloc)?,
        })
    }
}
