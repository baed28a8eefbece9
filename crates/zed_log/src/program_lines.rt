//! The lines of a program.
ghost use Rattle.std.specs.Prelude.{◌≡◌, [], ◌∷◌, ◌++◌, IfOk, OnErr, OnOk};
ghost use Rattle.zed_log.specs.Program.{first_line as line_first, line_words, lines_of as lines_in, numbered, own_bytes as bytes_had, program_bytes as bytes_of, program_text};

use crate::{put_number, put_quoted, put_text};
use std::alloc::{AllocError, Global};
use zed_world::{BoardData, Code, StatData};

// The end of a line of a program.
const END: u8 = 13;

fn own_bytes(code: &Code) -> &[u8]
    ensures { result.now ≡ bytes_had code.now }
{
    match code {
        Code::Own(bytes) => bytes.as_slice(),
        Code::None | Code::Same(_) => &[],
    }
}

// The bytes of the program of a stat, on a board with these stats.
pub(crate) fn program_bytes<'a>(stats: &'a [StatData], code: &'a Code) -> &'a [u8]
    ensures { result.now ≡ bytes_of stats.now code.now }
{
    match code {
        Code::None => &[],
        Code::Own(bytes) => bytes.as_slice(),
        Code::Same(n) => match stats.get(usize::from(*n)) {
            Some(stat) => own_bytes(&stat.code),
            None => &[],
        },
    }
}

// The first line of a program, without its end.
pub(crate) fn first_line(bytes: &[u8]) -> &[u8]
    ensures { result.now ≡ line_first bytes.now }
{
    for (i, byte) in bytes.iter().enumerate() {
        if *byte == END {
            let (line, _) = bytes.split_at(i);
            return line;
        }
    }
    bytes
}

#[tactic(auto, unfolding(crate::specs::Program::line_words))]
fn put_line(out: &mut Vec<u8>, at: usize, line: &[u8]) -> Result<(), AllocError>
    ensures { OnOk result
        (out.new.items ≡ out.old.items ++ line_words at line.now ++ 10 ∷ []) }
{
    put_number(out, at as u64)?;
    put_text(out, "  ")?;
    put_quoted(out, line)?;
    put_text(out, "\n")
}

fn lines_of(alloc: Global, bytes: &[u8]) -> Result<Vec<u8>, AllocError>
    ensures { IfOk result (λ text. text.items ≡ numbered 0 (lines_in bytes.now)) }
{
    let mut text = Vec::new(alloc);
    let mut line = Vec::new(alloc);
    let mut at = 0;
    for (i, byte) in bytes.iter().enumerate() {
        line.push(*byte)?;
        if *byte == END {
            put_line(&mut text, at, &line)?;
            line.clear();
            at = i + 1;
        }
    }
    if !line.is_empty() {
        put_line(&mut text, at, &line)?;
    }
    Ok(text)
}

/// Appends a line for each line of the program of a stat: the position of its first byte, counted
/// from 0, and its bytes with the end of the line. A stat that shares a program shows that one, and
/// a stat without a program shows no line. The only refusal is want of memory; then nothing is
/// appended.
pub fn program(board: &BoardData, stat: &StatData, out: &mut Vec<u8>) -> Result<(), AllocError>
    ensures ok { OnOk result
        (out.new.items ≡ out.old.items ++ program_text board.now.stats stat.now) }
    ensures kept { OnErr result (out.new.items ≡ out.old.items) }
{
    let bytes = program_bytes(board.stats.as_slice(), &stat.code);
    let text = lines_of(*out.allocator(), bytes)?;
    out.extend_from_slice(&text)
}
