ghost use Rattle.std.specs.Prelude.{◌≡◌, ◌↔◌, IsTrue, IfOk};
ghost use Rattle.update_model.specs.Form.{IsKnownKey};
ghost use Rattle.update_codec.specs.Parts.{author_of, body_of, database_of, entry_of, note_of, signature_of, update_of};
ghost use Rattle.update_check.specs.Signed.{IsSigned, IsUnder, SpellsSigned, node_of};

use crate::checking::is_taken;
use ready_batch::Candidate;
use std::alloc::{AllocError, Global};
use std::marker::Model;
use update_codec::Spelled;
use update_model::{AuthorKey, Body, DbRule, Member, Node, TextValue, UpdateId};

/// An update that is spelled and signed: its bytes spell it, its id is theirs, and its author signed it.
///
/// A contract sees it as its bytes. What is kept beside them is said at [`Spelled`]: no operations, which
/// [`Checked::body`] and [`Checked::node`] read again from the bytes, and no signature, which [`Checked::signature`]
/// lends from them.
#[derive(Drop)]
pub struct Checked {
    spelled: Spelled,

    // how many of its predecessors were found held when it last had to wait: a hint, which no contract sees
    found: usize,
}

impl Model for Checked {
    ghost use Rattle.std.specs.Prelude.{List, ℕ};
    ghost use Rattle.update_codec.specs.Parts.{update_of};
    ghost use Rattle.update_check.specs.Signed.{SpellsSigned};

    ghost Value = { List ℕ };

    ghost view = { λ checked. checked.spelled };

    ghost invariant = { λ checked. SpellsSigned checked.spelled (update_of checked.spelled) };
}

impl Checked {
    /// The update, whose signature was verified.
    pub(crate) fn new(spelled: Spelled) -> Checked
        requires { SpellsSigned spelled (update_of spelled) }
        ensures { result ≡ spelled }
    {
        Checked { spelled, found: 0 }
    }

    /// What its author signed, read again from the bytes.
    pub fn body(&self, alloc: Global) -> Result<Body, AllocError>
        ensures { IfOk result (λ body. body ≡ body_of self.now) }
    {
        self.spelled.body(alloc)
    }

    /// The key of its author, who signed it. Its types are known ones.
    pub fn author(&self) -> &AuthorKey
        ensures value { result.now ≡ author_of self.now }
        ensures known { IsKnownKey result.now }
        ensures signed { SpellsSigned self.now (update_of self.now) }
    {
        self.spelled.author()
    }

    /// What its author says of it, if anything.
    pub fn note(&self) -> &Option<TextValue>
        ensures { result.now ≡ note_of self.now }
    {
        self.spelled.note()
    }

    /// Its author's signature.
    pub fn signature(&self) -> &[u8]
        ensures { result.now ≡ signature_of self.now }
    {
        self.spelled.signature()
    }

    /// The id of the database that it belongs to.
    pub fn database(&self) -> &[u8; 32]
        ensures { result.now ≡ database_of self.now }
    {
        self.spelled.database()
    }

    /// Whether it is of the rule's database and its author is listed there.
    pub fn is_under(&self, rule: &DbRule) -> bool
        ensures { IsTrue result ↔ IsUnder rule.now (body_of self.now) }
    {
        is_taken(rule, self.database(), self.author())
    }

    /// What tables see of it: its operations, predecessors and author, read again from the bytes, and its id.
    pub fn node(&self, alloc: Global) -> Result<Node, AllocError>
        ensures { IfOk result (λ node. node ≡ node_of self.now) }
    {
        let Body {
            author,
            preds,
            ops,
            ..
        } = self.body(alloc)?;
        Ok(Node {
            id: self.id(),
            preds,
            author,
            ops,
        })
    }

    /// An equal update on memory of its own, which has not been tried.
    pub fn copy(&self, alloc: Global) -> Result<Checked, AllocError>
        ensures { IfOk result (λ copy. copy ≡ self.now) }
    {
        Ok(Checked {
            spelled: self.spelled.copy(alloc)?,
            found: 0,
        })
    }

    /// Gives the bytes back.
    pub fn into_bytes(self) -> Vec<u8>
        ensures value { result.items ≡ self }
        ensures signed { IsSigned self }
    {
        let Checked { spelled, .. } = self;
        spelled.into_bytes()
    }
}

impl Member for Checked {
    ghost entry = { entry_of };

    fn id(&self) -> UpdateId {
        self.spelled.id()
    }

    fn preds(&self) -> &[UpdateId] {
        self.spelled.preds()
    }

    fn bytes(&self) -> &[u8] {
        self.spelled.bytes()
    }
}

impl Candidate for Checked {
    fn found(&self) -> usize {
        self.found
    }

    fn note(&mut self, found: usize) {
        self.found = found;
    }
}
