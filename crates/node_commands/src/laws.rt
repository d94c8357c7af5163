//! Laws of the program. Each function does nothing: its contract is a theorem for callers to cite.

ghost use Rattle.std.specs.Prelude.{◌≡◌, ℕ, Bool, List, Some};
ghost use Rattle.rand_core.specs.Stream.{Stream};
ghost use Rattle.lm_ots.specs.declared.ots_type.OtsType.{OtsType as Width};
ghost use Rattle.lms_tree.specs.declared.lms_type.LmsType.{LmsType as Height};
ghost use Rattle.std.specs.declared.option.Option.{Option as Told};
ghost use Rattle.node_commands.specs.Bundle.{DumpAnswer};
ghost use Rattle.node_commands.specs.Creating.{InitAnswer, KeygenAnswer};
ghost use Rattle.node_commands.specs.Heads.{HeadsAnswer};
ghost use Rattle.node_commands.specs.Merging.{IsSureOfMerge, MayMerge};
ghost use Rattle.outcomes.specs.Outcome.{Outcome, status_of, text_of};
ghost use Rattle.node_commands.specs.Signing.{IsSureOfApply, JoinAnswer, MayApply, StoreAnswer};
ghost use Rattle.node_commands.specs.Asking.{QueryAnswer};
ghost use Rattle.outcomes.specs.StoreAnswers.{Readings, Printing, ReadsStore};
ghost use Rattle.node_commands.specs.Shows.{ShowsHeads, ShowsNotes, ShowsRecords, ShowsTables};
ghost use Rattle.node_commands.specs.Verdict.{CheckAnswer};

use confluence_laws::tables_are_of_the_set;
use confluence_test::{refused_once, taken_or_refused};
use key_directory::{key_or_not, one_key};
use query::{no_fault as no_query_fault, one_fault as one_query_fault, one_query};
use query_answer::one_answer_over;
use replica::{one_early_refusal, one_join, one_make};
use schema_text::one_schema;
use store_directory::{one_store, store_or_not};
use table_model::arrivals_are_closed;
use txn_text::{no_fault, one_fault, one_transaction};
use update_stream::{one_graph, one_refusal, whole_or_refused};

/// An input has one answer to a command, so each status and each text comes exactly where its cause stands.
pub fn one_answer()
    ensures heads { (input : List ℕ) (after other : Told (List ℕ)) (outcome another : Outcome)
        → HeadsAnswer (Some input) after outcome → HeadsAnswer (Some input) other another
        → (status_of outcome ≡ status_of another) × (text_of outcome ≡ text_of another) }
    ensures check { (input : List ℕ) (after other : Told (List ℕ)) (outcome another : Outcome)
        → CheckAnswer (Some input) after outcome → CheckAnswer (Some input) other another
        → (status_of outcome ≡ status_of another) × (text_of outcome ≡ text_of another) }
    ensures dump { (json : Bool) (input : List ℕ) (after other : Told (List ℕ)) (outcome another : Outcome)
        → DumpAnswer json (Some input) after outcome → DumpAnswer json (Some input) other another
        → (status_of outcome ≡ status_of another) × (text_of outcome ≡ text_of another) }
{
    arrivals_are_closed();
    one_graph();
    one_refusal();
    one_schema();
    refused_once();
    taken_or_refused();
    tables_are_of_the_set();
    whole_or_refused();
}

/// What the parts of a directory read as has one answer to a command that only reads its store, so each status and each
/// text comes exactly where its cause stands.
pub fn one_answer_of_parts()
    ensures heads { (parts : Readings) (added others : List (List ℕ)) (outcome another : Outcome)
        → ReadsStore (Printing ShowsHeads) parts added outcome → ReadsStore (Printing ShowsHeads) parts others another
        → (status_of outcome ≡ status_of another) × (text_of outcome ≡ text_of another) }
    ensures dump { (json : Bool) (parts : Readings) (added others : List (List ℕ)) (outcome another : Outcome)
        → ReadsStore (Printing (ShowsTables json)) parts added outcome → ReadsStore (Printing (ShowsTables json)) parts
        others another → (status_of outcome ≡ status_of another) × (text_of outcome ≡ text_of another) }
    ensures query { (text : List ℕ) (json : Bool) (parts : Readings) (added others : List (List ℕ)) (outcome another :
        Outcome)
        → ReadsStore (QueryAnswer text json) parts added outcome → ReadsStore (QueryAnswer text json) parts others
        another → (status_of outcome ≡ status_of another) × (text_of outcome ≡ text_of another) }
    ensures notes { (parts : Readings) (added others : List (List ℕ)) (outcome another : Outcome)
        → ReadsStore (Printing ShowsNotes) parts added outcome → ReadsStore (Printing ShowsNotes) parts others another
        → (status_of outcome ≡ status_of another) × (text_of outcome ≡ text_of another) }
    ensures export { (updates_only : Bool) (parts : Readings) (added others : List (List ℕ)) (outcome another : Outcome)
        → ReadsStore (Printing (ShowsRecords updates_only)) parts added outcome
        → ReadsStore (Printing (ShowsRecords updates_only)) parts others another
        → (status_of outcome ≡ status_of another) × (text_of outcome ≡ text_of another) }
{
    arrivals_are_closed();
    no_query_fault();
    one_answer_over();
    one_query();
    one_query_fault();
    one_store();
    store_or_not();
    tables_are_of_the_set();
}

/// What stands outside has one answer to a command that makes a store, a key or an update. Of `apply` it is so of each
/// refusal that comes before the operations are judged, and of every answer where none is that they are invalid.
pub fn one_answer_of_makers()
    ensures init { (input : List ℕ) (after other : Told (List ℕ)) (stream : Stream) (parts later another : Readings)
        (outcome given : Outcome)
        → InitAnswer (Some input) after stream parts later outcome → InitAnswer (Some input) other stream parts another
        given → (status_of outcome ≡ status_of given) × (text_of outcome ≡ text_of given) }
    ensures keygen { (height : Height) (width : Width) (stream : Stream) (parts later another : Readings)
        (outcome given : Outcome)
        → KeygenAnswer height width stream parts later outcome → KeygenAnswer height width stream parts another given
        → (status_of outcome ≡ status_of given) × (text_of outcome ≡ text_of given) }
    ensures apply { (note : Told (List ℕ)) (input : List ℕ) (stream : Stream) (parts : Readings) (outcome given :
        Outcome)
        → MayApply note input stream parts outcome → IsSureOfApply note input stream parts given
        → (status_of outcome ≡ status_of given) × (text_of outcome ≡ text_of given) }
    ensures join { (stream : Stream) (parts : Readings) (added others : List (List ℕ)) (outcome given : Outcome)
        → StoreAnswer (Unit {0}) (JoinAnswer stream) parts added outcome
        → StoreAnswer (Unit {0}) (JoinAnswer stream) parts others given → (status_of outcome ≡ status_of given)
        × (text_of outcome ≡ text_of given) }
{
    key_or_not();
    no_fault();
    one_early_refusal();
    one_fault();
    one_join();
    one_key();
    one_make();
    one_schema();
    one_store();
    one_transaction();
    refused_once();
    store_or_not();
    taken_or_refused();
}

/// What the parts of two directories read as has one answer to `merge`, as far as it is sure: a store is refused, or
/// both go together and have room, and it is done.
pub fn one_answer_of_merge()
    ensures { (parts other : Readings) (outcome given : Outcome) → MayMerge parts other outcome
        → IsSureOfMerge parts other given → status_of outcome ≡ status_of given }
{
    one_store();
    store_or_not();
}
