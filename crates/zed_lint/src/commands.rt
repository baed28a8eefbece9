//! Findings about the commands and steps of programs, and the flags that they set.
ghost use Rattle.std.specs.List.{flat_map};
ghost use Rattle.std.specs.Prelude.{◌≡◌, ◌<◌, ◌*◌, ◌++◌, IfOk, OnErr, OnOk, Some, length};
ghost use Rattle.zed_lint.specs.Commands.{board_bytes, board_words, commands_findings, fault_findings, line_words, place_words, program_words, set_in, stat_bytes, stat_words, words_set};
ghost use Rattle.zed_lint.specs.Reading.{next_reading, read_at};

use crate::faults::fault;
use crate::finding::{Finding, Spot};
use crate::labels::{begins_commands, starts_line};
use crate::noting::note;
use crate::reading::{Read, Reading, next_reading, read_at};
use crate::stats::own_bytes;
use std::alloc::{AllocError, Global};
use zed_oop_syntax::OopCommand;
use zed_types::Bytes;
use zed_world::{BoardData, StatData};

// Notes what is wrong with what is read, and answers what is read behind it.
fn note_read(
    found: &mut Vec<Finding>,
    spot: Spot,
    stats: &[StatData],
    held: &[Bytes],
    set: &[Bytes],
    program: &[u8],
    reading: Reading,
) -> Result<Option<Reading>, AllocError>
    ensures ok { OnOk result (found.new.items ≡ found.old.items
        ++ fault_findings spot stats.now held.now set.now program.now reading) }
    ensures next { IfOk result (λ r. r ≡ next_reading (read_at program.now reading) reading) }
{
    let read = read_at(*found.allocator(), program, reading)?;
    let next = next_reading(&read, reading);
    note(found, spot, fault(stats, held, set, reading, read))?;
    Ok(next)
}

/// Notes what is wrong in the line of commands at a place.
pub(crate) fn note_commands(
    found: &mut Vec<Finding>,
    spot: Spot,
    stats: &[StatData],
    held: &[Bytes],
    set: &[Bytes],
    program: &[u8],
    at: usize,
) -> Result<(), AllocError>
    ensures { OnOk result (found.new.items ≡ found.old.items
        ++ commands_findings spot stats.now held.now set.now program.now at) }
{
    let mut next = Some(Reading::Instructing(at));
    let mut left = 2 * program.len();
    while left > 0 {
        left -= 1;
        match next {
            Some(reading) => next = note_read(found, spot, stats, held, set, program, reading)?,
            None => return Ok(()),
        }
    }
    Ok(())
}

// The word of a flag that is set.
fn set_in(read: Read) -> Option<Bytes>
    ensures { result ≡ set_in read }
{
    match read {
        Read::Command(Some(OopCommand::Set(word)), _) => Some(word),
        _ => None,
    }
}

// Keeps the word of a flag that is set where a program is read, and answers what is read behind it.
fn keep_read(
    words: &mut Vec<Bytes>,
    program: &[u8],
    reading: Reading,
) -> Result<Option<Reading>, AllocError>
    ensures ok { OnOk result (words.new.items ≡ words.old.items ++ words_set program.now reading) }
    ensures next { IfOk result (λ r. r ≡ next_reading (read_at program.now reading) reading) }
{
    let read = read_at(*words.allocator(), program, reading)?;
    let next = next_reading(&read, reading);
    if let Some(word) = set_in(read) {
        words.push(word)?;
    }
    Ok(next)
}

// Keeps the words of flags that are set in the line of commands at a place.
fn keep_line(words: &mut Vec<Bytes>, program: &[u8], at: usize) -> Result<(), AllocError>
    ensures { OnOk result (words.new.items ≡ words.old.items ++ line_words program.now at) }
{
    let mut next = Some(Reading::Instructing(at));
    let mut left = 2 * program.len();
    while left > 0 {
        left -= 1;
        match next {
            Some(reading) => next = keep_read(words, program, reading)?,
            None => return Ok(()),
        }
    }
    Ok(())
}

fn keep_place(words: &mut Vec<Bytes>, program: &[u8], at: usize, byte: u8) -> Result<(), AllocError>
    ensures { OnOk result (words.new.items ≡ words.old.items ++ place_words program.now at byte) }
{
    if starts_line(program, at) && begins_commands(program, at) {
        keep_line(words, program, at)
    } else {
        Ok(())
    }
}

fn keep_program(words: &mut Vec<Bytes>, program: &[u8]) -> Result<(), AllocError>
    ensures ok { OnOk result (words.new.items ≡ words.old.items ++ program_words program.now) }
    ensures memory_only_when { OnErr result (0 < length program.now) }
{
    for (at, byte) in program.iter().enumerate() {
        keep_place(words, program, at, *byte)?;
    }
    Ok(())
}

fn keep_stats(words: &mut Vec<Bytes>, stats: &[StatData]) -> Result<(), AllocError>
    ensures ok { OnOk result
        (words.new.items ≡ words.old.items ++ flat_map stat_words stats.now) }
    ensures memory_only_when { OnErr result (0 < length (flat_map stat_bytes stats.now)) }
{
    for stat in stats {
        keep_program(words, own_bytes(&stat.code))?;
    }
    Ok(())
}

/// The words of flags that the programs of boards set.
pub(crate) fn words_of(alloc: Global, boards: &[BoardData]) -> Result<Vec<Bytes>, AllocError>
    ensures result { IfOk result (λ words. words.items ≡ flat_map board_words boards.now) }
    ensures memory_only_when { OnErr result (0 < length (flat_map board_bytes boards.now)) }
{
    let mut words = Vec::new(alloc);
    for board in boards {
        keep_stats(&mut words, board.stats.as_slice())?;
    }
    Ok(words)
}
