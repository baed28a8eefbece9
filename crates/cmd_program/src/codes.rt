//! The programs of the stats of a board.
ghost use Rattle.std.specs.Prelude.{◌≡◌, IfOk};
ghost use Rattle.cmd_program.specs.Codes.{bytes_of, code_in, owned as owned_code, owner_of as owner_for, program_of};

use std::alloc::{AllocError, Global};
use zed_types::Bytes;
use zed_world::{Code, StatData};

/// The bytes that a stat has of its own.
pub(crate) fn own_bytes(code: &Code) -> &[u8]
    ensures { result.now ≡ bytes_of code.now }
{
    match code {
        Code::Own(bytes) => bytes.as_slice(),
        Code::None | Code::Same(_) => &[],
    }
}

/// The bytes of the program of a stat, on a board with these stats: its own, or those of the stat
/// that it shares with; none if it has no program.
pub fn program_bytes<'a>(stats: &'a [StatData], code: &'a Code) -> &'a [u8]
    ensures { result.now ≡ program_of stats.now code.now }
{
    match code {
        Code::None => &[],
        Code::Own(bytes) => bytes.as_slice(),
        Code::Same(n) => match stats.get(usize::from(*n)) {
            Some(stat) => own_bytes(&stat.code),
            None => &[],
        },
    }
}

/// The number of the stat that has the bytes of a stat's program, or that is to have them.
pub(crate) fn owner_of(number: u16, code: &Code) -> usize
    ensures { result ≡ owner_for number code.now }
{
    match code {
        Code::Same(owner) => usize::from(*owner),
        Code::None | Code::Own(_) => usize::from(number),
    }
}

// A program of its own; one without bytes is none.
fn owned(alloc: Global, program: &[u8]) -> Result<Code, AllocError>
    ensures { IfOk result (λ code. code ≡ owned_code program.now) }
{
    if program.is_empty() {
        return Ok(Code::None);
    }
    Ok(Code::Own(Bytes::from_slice(alloc, program)?))
}

/// The program of a stat of this number, on a board whose stat `owner` gets these bytes.
pub(crate) fn recoded(
    alloc: Global,
    owner: usize,
    program: &[u8],
    number: usize,
    code: &Code,
) -> Result<Code, AllocError>
    ensures { IfOk result (λ c. c ≡ code_in owner program.now number code.now) }
{
    if number == owner {
        return owned(alloc, program);
    }
    match code {
        Code::None => Ok(Code::None),
        Code::Own(bytes) => Ok(Code::Own(bytes.copy()?)),
        Code::Same(n) if program.is_empty() && usize::from(*n) == owner => Ok(Code::None),
        Code::Same(n) => Ok(Code::Same(*n)),
    }
}
