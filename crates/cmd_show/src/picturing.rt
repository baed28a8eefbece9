//! Boards of a document's world as text.
ghost use Rattle.std.specs.Prelude.{◌≡◌, ◌⊎◌, Err, MatchResult, Ok, false, slice_get};
ghost use Rattle.zed_driver.specs.declared.command.Stop.TheVariants.{Memory};
ghost use Rattle.cmd_show.specs.Pictured.{board_in, shown_of};

use std::alloc::Global;
use zed_document::Document;
use zed_driver::{Effect, Stop};
use zed_export::export;
use zed_files::Telling;
use zed_look::{Form, draw_board, text_in};
use zed_refusal::{Reason, export_stop};
use zed_types::READ_BODY_LIMIT;
use zed_world::World;

/// The picture of a board of a world in a form.
fn board_in(alloc: Global, form: Form, world: &World, board: usize) -> Result<Vec<u8>, Stop<Reason>>
    ensures { MatchResult result
        (λ text. board_in form (slice_get world.now.boards board) ≡ Ok text.items)
        (λ e. (e ≡ Memory) ⊎ (board_in form (slice_get world.now.boards board) ≡ Err e)) }
{
    match draw_board(world, board) {
        Some(picture) => Ok(text_in(alloc, form, &picture)?),
        None => Err(Stop::Refused(Reason::NoBoard)),
    }
}

/// The picture of a board of a document's world in a form.
fn shown_of(
    alloc: Global,
    form: Form,
    document: &Document,
    board: usize,
) -> Result<Vec<u8>, Stop<Reason>>
    requires sound { document.now.is_stale ≡ false }
    ensures { MatchResult result
        (λ text. shown_of form board document.now.edits ≡ Ok text.items)
        (λ e. (e ≡ Memory) ⊎ (shown_of form board document.now.edits ≡ Err e)) }
{
    match export(alloc, document, READ_BODY_LIMIT) {
        Ok(world) => board_in(alloc, form, &world, board),
        Err(error) => Err(export_stop(error)),
    }
}

/// `show` prints a board in a form, as ZZT's editor shows it. Refusals, in order: those of reading
/// the files; those of an export, at 32,767 bytes a body; NoBoard if there is no board of this
/// number.
#[derive(Drop)]
pub struct Show {
    pub form: Form,
    pub board: u16,
}

impl Telling for Show {
    ghost use Rattle.cmd_show.specs.Pictured.{shows};

    ghost tells = { λ s. shows s.form s.board };

    fn tell(&self, alloc: Global, document: &Document) -> Result<Effect, Stop<Reason>> {
        let text = shown_of(alloc, self.form, document, usize::from(self.board))?;
        Ok(Effect::prints(alloc, text, 0))
    }
}
