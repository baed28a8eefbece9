//! The programs of a world, printed one after the other.
ghost use Rattle.std.specs.Prelude.{◌≡◌, ◌⊎◌, [], ◌∷◌, ◌++◌, Err, IfOk, MatchResult, Ok, OnOk, false};
ghost use Rattle.zed_driver.specs.declared.command.Stop.TheVariants.{Memory};
ghost use Rattle.cmd_program.specs.Every.{ended, every_of, every_text, head_words, headed, program_lines, programs_on};

use crate::codes::own_bytes;
use cmd_log::shown_world;
use std::alloc::{AllocError, Global};
use zed_document::Document;
use zed_driver::{Effect, Stop};
use zed_files::Telling;
use zed_log::{put_element_of, put_number, put_place, put_text};
use zed_plaintext::text_of;
use zed_refusal::Reason;
use zed_types::tile_at;
use zed_world::{BoardData, StatData};

// Where a stat is.
#[tactic(auto, unfolding(crate::specs::Every::head_words))]
fn put_head(
    out: &mut Vec<u8>,
    number: usize,
    board: &BoardData,
    i: usize,
    stat: &StatData,
) -> Result<(), AllocError>
    ensures { OnOk result
        (out.new.items ≡ out.old.items ++ head_words number board.now i stat.now) }
{
    put_text(out, "board ")?;
    put_number(out, number as u64)?;
    put_text(out, " stat ")?;
    put_number(out, i as u64)?;
    put_text(out, " ")?;
    put_place(out, stat.x, stat.y)?;
    put_text(out, "  ")?;
    put_element_of(out, tile_at(&board.tiles, stat.x, stat.y))
}

// A text whose last line has an end.
fn put_ended(out: &mut Vec<u8>, text: &[u8]) -> Result<(), AllocError>
    ensures { OnOk result (out.new.items ≡ out.old.items ++ ended text.now) }
{
    out.extend_from_slice(text)?;
    match text.last() {
        Some(b'\n') => Ok(()),
        _ => put_text(out, "\n"),
    }
}

// The program of a stat behind a line that tells where it is.
#[tactic(auto, unfolding(crate::specs::Every::headed))]
fn put_headed(
    out: &mut Vec<u8>,
    number: usize,
    board: &BoardData,
    i: usize,
    stat: &StatData,
    program: &[u8],
) -> Result<(), AllocError>
    ensures { OnOk result (out.new.items
        ≡ out.old.items ++ headed number board.now i stat.now program.now) }
{
    put_head(out, number, board, i, stat)?;
    put_text(out, "\n")?;
    let text = text_of(*out.allocator(), program)?;
    put_ended(out, text.as_bytes())
}

// The same, if the stat has a program of its own.
fn put_program(
    out: &mut Vec<u8>,
    number: usize,
    board: &BoardData,
    i: usize,
    stat: &StatData,
) -> Result<(), AllocError>
    ensures { OnOk result
        (out.new.items ≡ out.old.items ++ program_lines number board.now i stat.now) }
{
    let program = own_bytes(&stat.code);
    if program.is_empty() {
        Ok(())
    } else {
        put_headed(out, number, board, i, stat, program)
    }
}

fn put_board(out: &mut Vec<u8>, number: usize, board: &BoardData) -> Result<(), AllocError>
    ensures { OnOk result (out.new.items ≡ out.old.items ++ programs_on number board.now) }
{
    for (i, stat) in board.stats.as_slice().iter().enumerate() {
        put_program(out, number, board, i, stat)?;
    }
    Ok(())
}

fn boards_text(alloc: Global, boards: &[BoardData]) -> Result<Vec<u8>, AllocError>
    ensures { IfOk result (λ text. text.items ≡ every_text boards.now) }
{
    let mut text = Vec::new(alloc);
    for (number, board) in boards.iter().enumerate() {
        put_board(&mut text, number, board)?;
    }
    Ok(text)
}

// The programs of the world of a document that isn't stale.
fn printed_text(alloc: Global, document: &Document) -> Result<Vec<u8>, Stop<Reason>>
    requires { document.now.is_stale ≡ false }
    ensures { MatchResult result
        (λ text. every_of document.now.edits ≡ Ok text.items)
        (λ e. (e ≡ Memory) ⊎ (every_of document.now.edits ≡ Err e)) }
{
    let world = shown_world(alloc, document)?;
    let text = boards_text(alloc, world.boards())?;
    Ok(text)
}

/// Prints the program of each stat that has one of its own, as a text behind a line that tells the
/// numbers of its board and of itself, its place, and what is there. docs/PROGRAM.md has the form.
/// Refusals, in order: those of reading the files; those of an export, at 32,767 bytes a body. Then
/// nothing is printed.
#[derive(Drop)]
pub struct Programs {}

impl Telling for Programs {
    ghost use Rattle.cmd_program.specs.Every.{prints_every};

    ghost tells = { λ _. prints_every };

    fn tell(&self, alloc: Global, document: &Document) -> Result<Effect, Stop<Reason>> {
        let text = printed_text(alloc, document)?;
        Ok(Effect::prints(alloc, text, 0))
    }
}
