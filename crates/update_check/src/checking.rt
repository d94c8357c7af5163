//! Taking over bytes and spelled updates.

ghost use Rattle.std.specs.Prelude.{◌≡◌, ◌↔◌, IsTrue, Ok, IfOk, IfErr, IfNone, IfSome};
ghost use Rattle.update_model.specs.Rule.{IsListed};
ghost use Rattle.update_codec.specs.Parts.{author_of, body_of, signature_of, update_of};
ghost use Rattle.update_codec.specs.Spelling.{message};
ghost use Rattle.lms_tree.specs.Signature.{Signed};
ghost use Rattle.update_check.specs.Causes.{HasCause, IsCause, Takes};
ghost use Rattle.update_check.specs.Signed.{IsChecked, IsUnder, SpellsSigned};

use crate::{CheckError, CheckFault, Checked, no_cause};
use lms_tree::verify;
use std::alloc::Global;
use update_codec::{Spelled, spelled};
use update_model::{AuthorKey, DbRule};

/// Takes over bytes that spell an update of the rule's database, by a listed author who signed it.
///
/// Else the fault says why not, the first in the order of [`CheckFault`]. It takes the memory that [`spelled`] takes.
pub fn check(alloc: Global, rule: &DbRule, bytes: Vec<u8>) -> Result<Checked, CheckError>
    ensures found { IfOk result (λ checked. IsChecked rule.now checked) }
    ensures same { IfOk result (λ checked. checked ≡ bytes.items) }
    ensures only { IsChecked rule.now bytes.items → Takes result bytes.items }
    ensures fault { IfErr result (λ error. HasCause rule.now bytes.items error) }
{
    no_cause();
    let update = spelled(alloc, bytes)?;
    Ok(check_spelled(rule, update)?)
}

/// Takes over a spelled update of the rule's database, by a listed author who signed it. It takes no memory.
///
/// Else the fault says why not, the first in the order of [`CheckFault`]; it is not one of the codec.
pub fn check_spelled(rule: &DbRule, update: Spelled) -> Result<Checked, CheckFault>
    ensures found { IfOk result (λ checked. IsChecked rule.now checked) }
    ensures same { IfOk result (λ checked. checked ≡ update) }
    ensures only { IsChecked rule.now update → result ≡ Ok update }
    ensures fault { IfErr result (λ fault. IsCause rule.now update fault) }
{
    no_cause();
    match fault_of(rule, &update) {
        Some(fault) => Err(fault),
        None => Ok(Checked::new(update)),
    }
}

/// Why a spelled update is refused, if it is.
fn fault_of(rule: &DbRule, update: &Spelled) -> Option<CheckFault>
    ensures signed { IfNone result (SpellsSigned update.now (update_of update.now)) }
    ensures under { IfNone result (IsUnder rule.now (body_of update.now)) }
    ensures fault { IfSome result (λ fault. IsCause rule.now update.now fault) }
{
    let author = update.author(); // the bytes spell an update
    if !is_of_database(rule, update.database()) {
        return Some(CheckFault::WrongDatabase);
    }
    if !is_by_listed(rule, author) {
        return Some(CheckFault::AuthorNotListed);
    }
    if !is_signed(update) {
        return Some(CheckFault::BadSignature);
    }
    None
}

/// Whether the database is the rule's, and the rule lists the author.
#[tactic(auto, using(crate::proofs::Whole::taken_where_listed))]
pub(crate) fn is_taken(rule: &DbRule, database: &[u8; 32], author: &AuthorKey) -> bool
    ensures { IsTrue result ↔ ((database.now ≡ rule.now.database) × IsListed rule.now.authors author.now) }
{
    is_of_database(rule, database) && is_by_listed(rule, author)
}

/// Whether the database is the rule's.
fn is_of_database(rule: &DbRule, database: &[u8; 32]) -> bool
    ensures { IsTrue result ↔ (database.now ≡ rule.now.database) }
{
    *database == rule.database
}

/// Whether the rule lists the author.
fn is_by_listed(rule: &DbRule, author: &AuthorKey) -> bool
    ensures { IsTrue result ↔ IsListed rule.now.authors author.now }
{
    rule.lists(author)
}

/// Whether its author signed a spelled update.
fn is_signed(update: &Spelled) -> bool
    ensures { IsTrue result ↔ Signed (author_of update.now) (message (body_of update.now)) (signature_of update.now) }
{
    verify(update.author(), update.message(), update.signature())
}
