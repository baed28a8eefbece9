//! The program of a stat, printed as a text.
ghost use Rattle.std.specs.Prelude.{◌≡◌, ◌⊎◌, Err, MatchResult, Ok, false, slice_get};
ghost use Rattle.zed_driver.specs.declared.command.Stop.TheVariants.{Memory};
ghost use Rattle.cmd_program.specs.Printed.{printed, text_of_stat, text_on};

use crate::program_bytes;
use std::alloc::Global;
use zed_document::Document;
use zed_driver::{Effect, Stop};
use zed_export::export;
use zed_files::Telling;
use zed_plaintext::text_of;
use zed_refusal::{Reason, export_stop};
use zed_types::READ_BODY_LIMIT;
use zed_world::{BoardData, World};

// The text of the program of a stat of a board.
fn stat_text(alloc: Global, board: &BoardData, stat: u16) -> Result<Vec<u8>, Stop<Reason>>
    ensures { MatchResult result
        (λ text. text_of_stat board.now (slice_get board.now.stats stat) ≡ Ok text.items)
        (λ e. (e ≡ Memory)
        ⊎ (text_of_stat board.now (slice_get board.now.stats stat) ≡ Err e)) }
{
    let stats = board.stats.as_slice();
    let Some(given) = stats.get(usize::from(stat)) else {
        return Err(Stop::Refused(Reason::NoSuch));
    };
    let text = text_of(alloc, program_bytes(stats, &given.code))?;
    Ok(text.into_bytes())
}

// The same by the number of the board.
fn board_text(alloc: Global, world: &World, board: u16, stat: u16) -> Result<Vec<u8>, Stop<Reason>>
    ensures { MatchResult result
        (λ text. text_on (slice_get world.now.boards board) stat ≡ Ok text.items)
        (λ e. (e ≡ Memory)
        ⊎ (text_on (slice_get world.now.boards board) stat ≡ Err e)) }
{
    match world.boards().get(usize::from(board)) {
        Some(board) => stat_text(alloc, board, stat),
        None => Err(Stop::Refused(Reason::NoBoard)),
    }
}

// The same of the world of a document that isn't stale.
fn printed_text(
    alloc: Global,
    document: &Document,
    board: u16,
    stat: u16,
) -> Result<Vec<u8>, Stop<Reason>>
    requires { document.now.is_stale ≡ false }
    ensures { MatchResult result
        (λ text. printed board stat document.now.edits ≡ Ok text.items)
        (λ e. (e ≡ Memory) ⊎ (printed board stat document.now.edits ≡ Err e)) }
{
    match export(alloc, document, READ_BODY_LIMIT) {
        Ok(world) => board_text(alloc, &world, board, stat),
        Err(error) => Err(export_stop(error)),
    }
}

/// Prints the program of a stat as a text, given the numbers of its board and of itself in the
/// world of edit files. docs/PROGRAM.md has the form. A stat that shares a program has the text of
/// that one, and a stat without a program an empty text. Refusals, in order: those of reading the
/// files; those of an export, at 32,767 bytes a body; NoBoard if there is no board of this number;
/// NoSuch if the board has no stat of this number. Then nothing is printed.
#[derive(Drop)]
pub struct Program {
    pub board: u16,
    pub stat: u16,
}

impl Telling for Program {
    ghost use Rattle.cmd_program.specs.Printed.{prints_program};

    ghost tells = { λ s. prints_program s.board s.stat };

    fn tell(&self, alloc: Global, document: &Document) -> Result<Effect, Stop<Reason>> {
        let text = printed_text(alloc, document, self.board, self.stat)?;
        Ok(Effect::prints(alloc, text, 0))
    }
}
