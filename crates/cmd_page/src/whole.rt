//! The page of a world.
ghost use Rattle.std.specs.Prelude.{◌≡◌, ◌++◌, IfOk, OnOk};
ghost use Rattle.cmd_page.specs.Page.{contents, head, opening, page_of, style};

use crate::boards::{put_items, put_sections};
use crate::counts::put_counts;
use crate::escaping::put_escaped;
use std::alloc::{AllocError, Global};
use zed_log::put_text;
use zed_world::{BoardData, World};

fn put_opening(out: &mut Vec<u8>) -> Result<(), AllocError>
    ensures { OnOk result (out.new.items ≡ out.old.items ++ opening) }
{
    put_text(
        out,
        "<!DOCTYPE html>\n<html lang='en'>\n<meta charset='utf-8'>\n",
    )
}

fn put_style(out: &mut Vec<u8>) -> Result<(), AllocError>
    ensures { OnOk result (out.new.items ≡ out.old.items ++ style) }
{
    put_text(
        out,
        "<style>\nbody { max-width: 60em; margin: auto; padding: 1em; font-family: sans-serif; }\ndiv { position: relative; }\ndiv svg { display: block; width: 100%; }\ndiv svg + svg { position: absolute; top: 0; fill: none; pointer-events: all; }\ndiv svg + svg rect:hover { stroke: white; }\npre { padding: 1em; overflow: auto; color: yellow; background: navy; }\n</style>\n",
    )
}

#[tactic(auto, unfolding(crate::specs::Page::head))]
fn put_head(out: &mut Vec<u8>, name: &[u8]) -> Result<(), AllocError>
    ensures { OnOk result (out.new.items ≡ out.old.items ++ head name.now) }
{
    put_opening(out)?;
    put_text(out, "<title>")?;
    put_escaped(out, name)?;
    put_text(out, "</title>\n")?;
    put_style(out)?;
    put_text(out, "<h1>")?;
    put_escaped(out, name)?;
    put_text(out, "</h1>\n")
}

#[tactic(auto, unfolding(crate::specs::Page::contents))]
fn put_contents(out: &mut Vec<u8>, boards: &[BoardData]) -> Result<(), AllocError>
    ensures { OnOk result (out.new.items ≡ out.old.items ++ contents boards.now) }
{
    put_text(out, "<ul>\n")?;
    put_items(out, boards)?;
    put_text(out, "</ul>\n")
}

#[tactic(auto, using(crate::proofs::Few::few_stats), unfolding(crate::specs::Page::page_of))]
fn put_page(out: &mut Vec<u8>, world: &World) -> Result<(), AllocError>
    ensures { OnOk result (out.new.items ≡ out.old.items ++ page_of world.now) }
{
    put_head(out, world.header().name.as_slice())?;
    put_counts(out, world.boards())?;
    put_contents(out, world.boards())?;
    put_sections(out, world.boards())?;
    put_text(out, "</html>\n")
}

/// The page of a world. The only refusal is want of memory.
pub(crate) fn page_of(alloc: Global, world: &World) -> Result<Vec<u8>, AllocError>
    ensures { IfOk result (λ text. text.items ≡ page_of world.now) }
{
    let mut text = Vec::new(alloc);
    put_page(&mut text, world)?;
    Ok(text)
}
