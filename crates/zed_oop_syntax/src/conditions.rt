//! Conditions as a program writes them.
ghost use Rattle.std.specs.Prelude.{◌≡◌, ◌≤◌, IfOk, OnErr, length, max};
ghost use Rattle.zed_oop_syntax.specs.Condition.{PartAt, PartBehind, QueryAt, QueryTakes, TestTakes};
ghost use Rattle.zed_oop_syntax.specs.Text.{upper, word_at, word_end};
ghost use Rattle.zed_oop_syntax.specs.Heading.{DirectionTakes};
ghost use Rattle.zed_oop_syntax.specs.Verbs.{AnyAt, BlockedAt, IsQuestion, question_word};

use crate::heading::{Heading, direction};
use crate::kinds::{TileKind, kind};
use crate::text::{says, upper, written_at};
use std::alloc::{AllocError, Global};
use zed_types::Bytes;

/// What is asked.
#[derive(Drop)]
pub enum Test {
    /// In the same row or column as the player.
    Aligned,
    /// Beside the player.
    Contact,
    /// What is ahead can't be walked on.
    Blocked(Heading),
    /// A tile of the kind is on the board; None if no kind was named.
    Any(Option<TileKind>),
    Energized,
    /// A flag has this word.
    Flag(Bytes),
}

/// A condition as a program writes it.
#[derive(Drop)]
pub struct Query {
    pub negated: bool,
    pub test: Test,
}

/// Which test a word begins that isn't a flag's.
#[derive(Clone, Copy)]
enum Question {
    Not,
    Aligned,
    Contact,
    Blocked,
    Any,
    Energized,
}

/// The question that a word is, or None if it is a flag's.
#[tactic(auto, unfolding(crate::specs::Condition::is_question))]
fn question_of(word: &[u8]) -> Option<Question>
    ensures { IsQuestion (upper word.now) result }
{
    if says(word, "NOT") {
        Some(Question::Not)
    } else if says(word, "ALLIGNED") {
        Some(Question::Aligned)
    } else if says(word, "CONTACT") {
        Some(Question::Contact)
    } else if says(word, "BLOCKED") {
        Some(Question::Blocked)
    } else if says(word, "ANY") {
        Some(Question::Any)
    } else if says(word, "ENERGIZED") {
        Some(Question::Energized)
    } else {
        None
    }
}

/// The direction behind BLOCKED.
fn blocked_at(alloc: Global, program: &[u8], at: usize) -> Result<(Option<Test>, usize), AllocError>
    ensures result { IfOk result (λ r. BlockedAt program.now at r.0 r.1) }
    ensures within { IfOk result (λ r. r.1 ≤ max at (length program.now)) }
    ensures ends { IfOk result (λ r. at ≤ r.1) }
    ensures memory_only_when { OnErr result (DirectionTakes program.now at) }
{
    let (heading, end) = direction(alloc, program, at)?;
    Ok((Some(Test::Blocked(heading)), end))
}

/// The kind behind ANY.
fn any_at(program: &[u8], at: usize) -> (Option<Test>, usize)
    ensures result { AnyAt program.now at result.0 result.1 }
    ensures within { result.1 ≤ max at (length program.now) }
    ensures ends { at ≤ result.1 }
{
    let (kind, end) = kind(program, at, true);
    (Some(Test::Any(kind)), end)
}

/// The test that a question begins whose word ends at a place, or None if that is NOT.
fn asked_behind(
    alloc: Global,
    program: &[u8],
    word: &[u8],
    question: Question,
    at: usize,
) -> Result<(Option<Test>, usize), AllocError>
    requires said { upper word.now ≡ question_word question }
    ensures result { IfOk result (λ r. PartBehind program.now (upper word.now) at r.0 r.1) }
    ensures within { IfOk result (λ r. r.1 ≤ max at (length program.now)) }
    ensures ends { IfOk result (λ r. at ≤ r.1) }
    ensures memory_only_when { OnErr result (TestTakes program.now (upper word.now) at) }
{
    match question {
        Question::Not => Ok((None, at)),
        Question::Aligned => Ok((Some(Test::Aligned), at)),
        Question::Contact => Ok((Some(Test::Contact), at)),
        Question::Blocked => blocked_at(alloc, program, at),
        Question::Any => Ok(any_at(program, at)),
        Question::Energized => Ok((Some(Test::Energized), at)),
    }
}

/// The test whose first word ends at a place, or None if that is NOT.
fn test_behind(
    alloc: Global,
    program: &[u8],
    word: &[u8],
    at: usize,
) -> Result<(Option<Test>, usize), AllocError>
    ensures result { IfOk result (λ r. PartBehind program.now (upper word.now) at r.0 r.1) }
    ensures within { IfOk result (λ r. r.1 ≤ max at (length program.now)) }
    ensures ends { IfOk result (λ r. at ≤ r.1) }
    ensures memory_only_when { OnErr result (TestTakes program.now (upper word.now) at) }
{
    match question_of(word) {
        Some(question) => asked_behind(alloc, program, word, question, at),
        None => Ok((Some(Test::Flag(upper(alloc, word)?)), at)),
    }
}

/// The test at a place, or None if NOT is there.
fn test_at(alloc: Global, program: &[u8], at: usize) -> Result<(Option<Test>, usize), AllocError>
    ensures result { IfOk result (λ r. PartAt program.now at r.0 r.1) }
    ensures within { IfOk result (λ r. r.1 ≤ max at (length program.now)) }
    ensures ends { IfOk result (λ r. at ≤ r.1) }
    ensures memory_only_when { OnErr result
        (TestTakes program.now (word_at program.now at) (word_end program.now at)) }
{
    let (word, end) = written_at(program, at);
    test_behind(alloc, program, word, end)
}

/// The condition at a place, and the place after it. It takes memory only for turns and for the
/// word of a flag.
pub fn condition(alloc: Global, program: &[u8], at: usize) -> Result<(Query, usize), AllocError>
    ensures result { IfOk result (λ r. QueryAt program.now at r.0 r.1) }
    ensures within { IfOk result (λ r. r.1 ≤ max at (length program.now)) }
    ensures ends { IfOk result (λ r. at ≤ r.1) }
    ensures memory_only_when { OnErr result (QueryTakes program.now at) }
{
    let mut negated = false;
    let mut to = at;
    loop {
        let (test, end) = test_at(alloc, program, to)?;
        match test {
            Some(test) => return Ok((Query { negated, test }, end)),
            None => negated = !negated,
        }
        to = end;
    }
}
