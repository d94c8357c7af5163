//! Checking many records at once, on one thread or on several.

ghost use Rattle.std.specs.Prelude.{◌≡◌, ◌<◌, ◌≤◌, [], ℕ, List, IfOk, vec_len};
ghost use Rattle.std.specs.Vec.{vec_capacity};
ghost use Rattle.update_model.specs.Rule.{RuleData};
ghost use Rattle.record_check.specs.Records.{AreAnswers, IsAnswer, IsCheckedFront, answer_of, bytes_of};

use lms_tree::{LeafGenerator, ManyThreads, OneThread};
use std::alloc::{AllocError, Global};
use std::thread::{Threads, join};
use update_check::{CheckError, CheckFault, Checked, check, no_cause};
use update_model::DbRule;

/// What the check of updates says of a record: the update, or the fault for which it is refused.
pub type Answer = Result<Checked, CheckFault>;

/// Whoever checks records, and computes the leaves of keys: which threads do it is its own affair. [`OneThread`] starts
/// none, and [`ManyThreads`] starts one for each processor, and checks all itself where no thread can be started.
pub trait Verifier: LeafGenerator {
    /// What the check of updates says of each record under the rule, in order. It takes the records over.
    fn check_each(
        &self,
        alloc: Global,
        rule: &DbRule,
        records: Vec<Vec<u8>>,
    ) -> Result<Vec<Answer>, AllocError>
        ensures { IfOk result (λ answers. AreAnswers rule.now (bytes_of records.items) answers.items) };

    /// Takes over the records in front of the first that is refused under the rule, in order.
    fn check_front(
        &self,
        alloc: Global,
        rule: &DbRule,
        records: Vec<Vec<u8>>,
    ) -> Result<Vec<Checked>, AllocError>
        ensures { IfOk result (λ front. IsCheckedFront rule.now (bytes_of records.items) front.items) }
    {
        front_of(alloc, self.check_each(alloc, rule, records)?)
    }
}

impl Verifier for OneThread {
    fn check_each(
        &self,
        alloc: Global,
        rule: &DbRule,
        records: Vec<Vec<u8>>,
    ) -> Result<Vec<Answer>, AllocError> {
        each_here(alloc, rule, records)
    }
}

impl<'a, R: Threads> Verifier for ManyThreads<'a, R> {
    fn check_each(
        &self,
        alloc: Global,
        rule: &DbRule,
        records: Vec<Vec<u8>>,
    ) -> Result<Vec<Answer>, AllocError> {
        each_on(self.runtime(), alloc, rule, self.thread_count(), records)
    }
}

/// Fewer records than this are not worth a thread.
const LEAST: usize = 16;

/// Checks records on so many threads, of which each has as many records.
#[cycle(parts)]
fn each_on<R: Threads>(
    rt: &R,
    alloc: Global,
    rule: &DbRule,
    threads: usize,
    mut records: Vec<Vec<u8>>,
) -> Result<Vec<Answer>, AllocError>
    ensures { IfOk result (λ answers. AreAnswers rule.now (bytes_of records.items) answers.items) }
{
    if threads < 2 || records.len() < LEAST {
        return each_here(alloc, rule, records);
    }
    let back = records.split_off(records.len() / threads)?;
    let others = threads - 1;
    let theirs = move || -> Result<Vec<Answer>, AllocError>
        ensures { IfOk result (λ answers. AreAnswers rule.entry.now (bytes_of records.items) answers.items) }
    { each_here(alloc, rule, records) };
    let mine = move || -> Result<Vec<Answer>, AllocError>
        ensures { IfOk result (λ answers. AreAnswers rule.entry.now (bytes_of back.items) answers.items) }
    { each_on(rt, alloc, rule, others, back) };
    let (front, behind) = join(rt, theirs, mine);
    let mut answers = front?;
    answers.append(&mut behind?)?;
    Ok(answers)
}

/// Checks records one after the other.
fn each_here(alloc: Global, rule: &DbRule, records: Vec<Vec<u8>>) -> Result<Vec<Answer>, AllocError>
    ensures { IfOk result (λ answers. AreAnswers rule.now (bytes_of records.items) answers.items) }
{
    let mut answers = Vec::with_capacity(alloc, records.len())?;
    for bytes in records {
        answers.push(answer(alloc, rule, bytes)?)?;
    }
    Ok(answers)
}

/// What the check of updates says of a record.
fn answer(alloc: Global, rule: &DbRule, bytes: Vec<u8>) -> Result<Answer, AllocError>
    ensures { IfOk result (IsAnswer rule.now bytes.items) }
{
    answer_of(check(alloc, rule, bytes))
}

/// What a check comes to as an answer. Want of memory alone is none.
fn answer_of(checked: Result<Checked, CheckError>) -> Result<Answer, AllocError>
    ensures { result ≡ answer_of checked }
{
    match checked {
        Ok(update) => Ok(Ok(update)),
        Err(CheckError::Fault(fault)) => Ok(Err(fault)),
        Err(CheckError::Memory) => Err(AllocError),
    }
}

/// The checked updates of the records in front of the first that is refused, by what the check says of each.
fn front_of(alloc: Global, answers: Vec<Answer>) -> Result<Vec<Checked>, AllocError>
    ensures { IfOk result (λ front. (rule : RuleData) (records : List (List ℕ)) → AreAnswers rule records answers.items
        → IsCheckedFront rule records front.items) }
{
    let mut front = Vec::with_capacity(alloc, answers.len())?;
    take_front(&mut front, answers);
    Ok(front)
}

/// Puts the checked updates of the records in front of the first that is refused into an empty list with room for all.
fn take_front(front: &mut Vec<Checked>, answers: Vec<Answer>)
    requires empty { front.old.items ≡ [] }
    requires room { vec_len answers ≤ vec_capacity front.old }
    ensures { (rule : RuleData) (records : List (List ℕ)) → AreAnswers rule records answers.items
        → IsCheckedFront rule records front.new.items }
{
    no_cause();
    for answer in answers {
        match answer {
            Ok(update) => front.push_reserved(update),
            Err(_fault) => return,
        }
    }
}
