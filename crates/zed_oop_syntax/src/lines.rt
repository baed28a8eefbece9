//! Instructions and lines as a program writes them.
ghost use Rattle.std.specs.Prelude.{◌≡◌, ◌<◌, ◌≤◌, IfOk, OnErr, length, max};
ghost use Rattle.zed_oop_syntax.specs.Line.{InstructionAt, InstructionTakes, IsAhead, LineAt, LinesFrom, line_text, begun_at, begun_by};

use crate::heading::{Heading, direction};
use crate::text::{line_after, line_end, part};
use std::alloc::{AllocError, Global};
use zed_types::{Bytes, Seq};

/// The kind of a line, by its first byte.
#[derive(Clone, Copy, PartialEq, Eq)]
pub enum LineKind {
    /// A byte 0, where the program ends.
    End,
    /// A label, a remark or a name.
    Skipped,
    /// An empty line.
    Blank,
    /// A step that is tried until it is done.
    Step,
    /// A step that is tried once.
    Attempt,
    /// A command.
    Command,
    /// A line of a message.
    Message,
}

/// What is at a place of a program.
#[derive(Drop)]
pub enum Instruction {
    End,
    Skipped,
    Blank,
    /// A step that is tried until it is done.
    Step(Heading),
    /// A step that is tried once.
    Attempt(Heading),
    Command,
    Message(Bytes),
}

/// A line of a program.
#[derive(Clone, Copy)]
pub struct Line<'a> {
    pub kind: LineKind,
    pub start: usize,
    /// Without the byte 13 that ends it.
    pub text: &'a [u8],
}

/// The lines of a program.
#[derive(Drop)]
pub struct Program<'a> {
    pub lines: Seq<Line<'a>>,
}

fn begun_by(byte: Option<u8>) -> LineKind
    ensures { result ≡ begun_by byte }
{
    match byte {
        None => LineKind::End,
        Some(byte) => match byte {
            0 => LineKind::End,
            b':' | b'\'' | b'@' => LineKind::Skipped,
            13 => LineKind::Blank,
            b'/' => LineKind::Step,
            b'?' => LineKind::Attempt,
            b'#' => LineKind::Command,
            _ => LineKind::Message,
        },
    }
}

/// What the byte at a place begins.
pub fn begun_at(program: &[u8], at: usize) -> LineKind
    ensures { result ≡ begun_at program.now at }
{
    begun_by(program.get(at).copied())
}

#[tactic(auto, unfolding(crate::specs::Line::line_text))]
/// The line at a place, without its end.
pub fn line_text(program: &[u8], at: usize) -> &[u8]
    ensures { result.now ≡ line_text program.now at }
{
    part(program, at, line_end(program, at))
}

/// The instruction at a place, and the place after it: after its line, its direction or its mark.
/// It takes memory only for the line of a message, and for turns.
pub fn standing_at(
    alloc: Global,
    program: &[u8],
    at: usize,
) -> Result<(Instruction, usize), AllocError>
    ensures result { IfOk result (λ r. InstructionAt program.now at r.0 r.1) }
    ensures ends { IfOk result (λ r. IsAhead r.0 at r.1 (length program.now)) }
    ensures memory_only_when { OnErr result (InstructionTakes program.now at) }
{
    if at >= program.len() {
        return Ok((Instruction::End, at));
    }
    match begun_at(program, at) {
        LineKind::End => Ok((Instruction::End, at)),
        LineKind::Skipped => Ok((Instruction::Skipped, line_after(program, at))),
        LineKind::Blank => Ok((Instruction::Blank, at + 1)),
        LineKind::Step => {
            let (heading, end) = direction(alloc, program, at + 1)?;
            Ok((Instruction::Step(heading), end))
        }
        LineKind::Attempt => {
            let (heading, end) = direction(alloc, program, at + 1)?;
            Ok((Instruction::Attempt(heading), end))
        }
        LineKind::Command => Ok((Instruction::Command, at + 1)),
        LineKind::Message => {
            let text = Bytes::from_slice(alloc, line_text(program, at))?;
            Ok((Instruction::Message(text), line_after(program, at)))
        }
    }
}

/// The line at a place.
#[tactic(auto, using(crate::proofs::LineLemmas::begins))]
fn line_at(program: &[u8], at: usize) -> Line
    ensures { LineAt program.now at result }
{
    Line {
        kind: begun_at(program, at),
        start: at,
        text: line_text(program, at),
    }
}

impl<'a> Program<'a> {
    /// The lines of a program, each a part of its bytes.
    pub fn parse(alloc: Global, program: &'a [u8]) -> Result<Program<'a>, AllocError>
        ensures result { IfOk result (λ r. LinesFrom program.now 0 r.lines) }
        ensures memory_only_when { OnErr result (0 < length program.now) }
    {
        let mut lines = Seq::new(alloc);
        let mut at = 0;
        while at < program.len() {
            lines.push(line_at(program, at))?;
            at = line_after(program, at);
        }
        Ok(Program { lines })
    }
}
