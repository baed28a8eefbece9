//! What is wrong with a command or a step: what is taken as ERR in play, and names that nothing has.
ghost use Rattle.std.specs.Prelude.{◌≡◌, ◌++◌, take};
ghost use Rattle.zed_lint.specs.Faults.{astray, command_fault, countless, cut, fault, first_of, has_flag, instruction_fault, is_named, is_set, kindless, meaningless, nameless, some_named, test_fault, unset};

use crate::finding::What;
use crate::labels::{is_known, label_of};
use crate::reading::{Read, Reading, mark_of};
use crate::stats::own_bytes;
use zed_oop_syntax::{
    Counter, Heading, Instruction, OopCommand, Test, TileKind, byte_is, is_word_at,
};
use zed_types::Bytes;
use zed_world::StatData;

/// Most bytes of a flag.
const FLAG_LIMIT: usize = 20;

// A direction that leads nowhere.
fn astray(mark: usize, heading: &Heading) -> Option<What>
    ensures { result ≡ astray mark heading.now }
{
    match heading.course {
        Some(_) => None,
        None => Some(What::NoDirection(mark)),
    }
}

// A kind of tile that there isn't.
fn kindless(mark: usize, kind: Option<TileKind>) -> Option<What>
    ensures { result ≡ kindless mark kind }
{
    match kind {
        Some(_) => None,
        None => Some(What::NoKind(mark)),
    }
}

// A counter that there isn't.
fn countless(mark: usize, counter: Option<Counter>) -> Option<What>
    ensures { result ≡ countless mark counter }
{
    match counter {
        Some(_) => None,
        None => Some(What::NoCounter(mark)),
    }
}

// The first of two faults.
fn first_of(first: Option<What>, second: Option<What>) -> Option<What>
    ensures { result ≡ first_of first second }
{
    match first {
        Some(what) => Some(what),
        None => second,
    }
}

// A word as far as a flag holds it.
fn cut(word: &[u8]) -> &[u8]
    ensures { result.now ≡ cut word.now }
{
    if word.len() > FLAG_LIMIT {
        &word[..FLAG_LIMIT]
    } else {
        word
    }
}

// Whether one of these words, as far as a flag holds it, is this one.
fn has_flag(flags: &[Bytes], word: &[u8]) -> bool
    ensures { result ≡ has_flag flags.now word.now }
{
    flags.iter().any(|flag| cut(flag.as_slice()) == word)
}

// Whether a flag can have a word.
fn is_set(held: &[Bytes], set: &[Bytes], word: &[u8]) -> bool
    ensures { result ≡ is_set held.now set.now word.now }
{
    has_flag(held, word) || has_flag(set, word)
}

// A flag that can't have this word.
fn unset(held: &[Bytes], set: &[Bytes], mark: usize, word: Bytes) -> Option<What>
    ensures { result ≡ unset held.now set.now mark word }
{
    if is_set(held, set, word.as_slice()) {
        None
    } else {
        Some(What::UnsetFlag(mark, word))
    }
}

// Whether a program begins with `@` and a name.
fn is_named(program: &[u8], name: &[u8]) -> bool
    ensures { result ≡ is_named program.now name.now }
{
    byte_is(program, 0, b'@') && is_word_at(program, 1, name)
}

// Whether the program of one of these stats has a name.
fn some_named(stats: &[StatData], name: &[u8]) -> bool
    ensures { result ≡ some_named stats.now name.now }
{
    stats
        .iter()
        .any(|stat| is_named(own_bytes(&stat.code), name))
}

// A name that no program has.
fn nameless(stats: &[StatData], mark: usize, name: Bytes) -> Option<What>
    ensures { result ≡ nameless stats.now mark name }
{
    if some_named(stats, name.as_slice()) {
        None
    } else {
        Some(What::NoName(mark, name))
    }
}

// A word that is no command, and no label either.
fn meaningless(stats: &[StatData], mark: usize, word: Bytes) -> Option<What>
    ensures { result ≡ meaningless stats.now mark word }
{
    if is_known(stats, label_of(word.as_slice())) {
        None
    } else {
        Some(What::NoCommand(mark, word))
    }
}

// What is wrong with a test.
fn test_fault(held: &[Bytes], set: &[Bytes], mark: usize, test: Test) -> Option<What>
    ensures { result ≡ test_fault held.now set.now mark test }
{
    match test {
        Test::Blocked(heading) => astray(mark, &heading),
        Test::Any(kind) => kindless(mark, kind),
        Test::Flag(word) => unset(held, set, mark, word),
        Test::Aligned | Test::Contact | Test::Energized => None,
    }
}

// What is wrong with a command.
fn command_fault(
    stats: &[StatData],
    held: &[Bytes],
    set: &[Bytes],
    mark: usize,
    command: OopCommand,
) -> Option<What>
    ensures { result
        ≡ command_fault stats.now held.now set.now mark command }
{
    match command {
        OopCommand::Go(heading)
        | OopCommand::Try(heading)
        | OopCommand::Walk(heading)
        | OopCommand::Shoot(heading) => astray(mark, &heading),
        OopCommand::Put(heading, kind) => first_of(astray(mark, &heading), kindless(mark, kind)),
        OopCommand::If(query) => test_fault(held, set, mark, query.test),
        OopCommand::Give(counter, _) | OopCommand::Take(counter, _) => countless(mark, counter),
        OopCommand::Become(kind) => kindless(mark, kind),
        OopCommand::Change(from, to) => first_of(kindless(mark, from), kindless(mark, to)),
        OopCommand::Bind(name) => nameless(stats, mark, name),
        OopCommand::Other(word) => meaningless(stats, mark, word),
        _ => None,
    }
}

// What is wrong with an instruction.
fn instruction_fault(mark: usize, instruction: Instruction) -> Option<What>
    ensures { result ≡ instruction_fault mark instruction }
{
    match instruction {
        Instruction::Step(heading) | Instruction::Attempt(heading) => astray(mark, &heading),
        _ => None,
    }
}

/// What is wrong with what was read, among these stats, with the flags that the world holds, and those that
/// programs set.
pub(crate) fn fault(
    stats: &[StatData],
    held: &[Bytes],
    set: &[Bytes],
    reading: Reading,
    read: Read,
) -> Option<What>
    ensures { result ≡ fault stats.now held.now set.now reading read }
{
    match read {
        Read::Instruction(instruction, _) => instruction_fault(mark_of(reading), instruction),
        Read::Command(Some(command), _) => {
            command_fault(stats, held, set, mark_of(reading), command)
        },
        Read::Command(None, _) => None,
    }
}
