//! The command `page`.
ghost use Rattle.std.specs.Prelude.{◌≡◌, ◌⊎◌, Err, MatchResult, Ok, false};
ghost use Rattle.zed_driver.specs.declared.command.Stop.TheVariants.{Memory};
ghost use Rattle.cmd_page.specs.Page.{page_of as page_for};
ghost use Rattle.cmd_page.specs.Told.{told_of};

use crate::whole::page_of;
use std::alloc::Global;
use zed_document::Document;
use zed_driver::{Effect, Stop};
use zed_export::export;
use zed_files::Telling;
use zed_refusal::{Reason, export_stop};
use zed_types::READ_BODY_LIMIT;
use zed_world::World;

// The page of a world.
fn page_in(alloc: Global, world: &World) -> Result<Vec<u8>, Stop<Reason>>
    ensures { MatchResult result
        (λ text. text.items ≡ page_for world.now)
        (λ e. e ≡ Memory) }
{
    Ok(page_of(alloc, world)?)
}

// The page of a document's world.
fn told_of(alloc: Global, document: &Document) -> Result<Vec<u8>, Stop<Reason>>
    requires sound { document.now.is_stale ≡ false }
    ensures { MatchResult result
        (λ text. told_of document.now.edits ≡ Ok text.items)
        (λ e. (e ≡ Memory) ⊎ (told_of document.now.edits ≡ Err e)) }
{
    match export(alloc, document, READ_BODY_LIMIT) {
        Ok(world) => page_in(alloc, &world),
        Err(error) => Err(export_stop(error)),
    }
}

/// `page` prints the world as one HTML page: its boards as ZZT's editor shows them, with links along
/// their exits and passages, their stats and their programs. Refusals, in order: those of reading
/// the files; those of an export, at 32,767 bytes a body.
#[derive(Drop)]
pub struct Page;

impl Telling for Page {
    ghost use Rattle.cmd_page.specs.Told.{pages};

    ghost tells = { λ s. pages };

    fn tell(&self, alloc: Global, document: &Document) -> Result<Effect, Stop<Reason>> {
        let text = told_of(alloc, document)?;
        Ok(Effect::prints(alloc, text, 0))
    }
}
