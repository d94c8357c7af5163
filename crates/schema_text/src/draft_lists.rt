//! Lists that a draft has.

ghost use Rattle.std.specs.Prelude.{◌≡◌, [], ◌∷◌, ◌++◌, OnOk};

use std::alloc::AllocError;
use std::marker::Model;
use update_model::AuthorKey;

/// A list of authors. A contract sees the list of its items.
#[derive(Drop)]
pub(crate) struct AuthorList {
    authors: Vec<AuthorKey>,
}

impl Model for AuthorList {
    ghost use Rattle.std.specs.Prelude.{List};
    ghost use Rattle.update_model.specs.declared.author_key.AuthorKey.{AuthorKey};

    ghost Value = { List AuthorKey };

    ghost view = { λ list. list.authors.items };
}

impl AuthorList {
    /// Takes over a vector.
    pub(crate) fn from_vec(authors: Vec<AuthorKey>) -> Self
        ensures { result ≡ authors.items }
    {
        AuthorList { authors }
    }

    /// Lends the items.
    pub(crate) fn as_slice(&self) -> &[AuthorKey]
        ensures { result.now ≡ self.now }
    {
        self.authors.as_slice()
    }

    /// Gives the vector back.
    pub(crate) fn into_vec(self) -> Vec<AuthorKey>
        ensures { result.items ≡ self }
    {
        let AuthorList { authors } = self;
        authors
    }

    /// Puts one more at the end.
    pub(crate) fn push(&mut self, author: AuthorKey) -> Result<(), AllocError>
        ensures { OnOk result (self.new ≡ self.old ++ author ∷ []) }
    {
        self.authors.push(author)?;
        Ok(())
    }
}
