//! Pictures of boards, as `zzted` and as `zztool` make them.
use crate::sheet::{Sheet, refuse};
use std::alloc::Global;
use zed_look::{Form, Picture, text_in};
use zed_play::Play;
use zed_screen::Frame;
use zed_world::World;

fn put_frame(frame: &Frame, sheet: &mut Sheet) {
    sheet.line("cells");
    for cell in frame.cells.iter() {
        sheet.number(i64::from(cell.character));
        sheet.number(i64::from(cell.attribute));
    }
}

fn put_text(alloc: Global, growth: u16, form: Form, picture: &Picture, sheet: &mut Sheet) {
    refuse(alloc, growth);
    let made = text_in(alloc, form, picture);
    sheet.did(alloc);
    match made {
        Ok(text) => sheet.bytes("text", text.as_slice()),
        Err(_) => sheet.line("Memory"),
    }
}

/// The picture of `zzted`, and that of `zztool` as text in each form.
fn put_both(alloc: Global, growth: u16, frame: &Frame, picture: &Picture, sheet: &mut Sheet) {
    put_frame(frame, sheet);
    put_text(alloc, growth, Form::Coloured, picture, sheet);
    put_text(alloc, growth, Form::Plain, picture, sheet);
    put_text(alloc, growth, Form::Svg, picture, sheet);
}

pub fn put_played(alloc: Global, growth: u16, play: &Play, sheet: &mut Sheet) {
    refuse(alloc, growth);
    let (frame, picture) = (zed_screen::draw_play(play), zed_look::draw_play(play));
    sheet.did(alloc);
    put_both(alloc, growth, &frame, &picture, sheet);
}

pub fn put_board(alloc: Global, growth: u16, world: &World, board: usize, sheet: &mut Sheet) {
    refuse(alloc, growth);
    let (frame, picture) = (
        zed_screen::draw_board(world, board),
        zed_look::draw_board(world, board),
    );
    sheet.did(alloc);
    match (frame, picture) {
        (Ok(frame), Some(picture)) => put_both(alloc, growth, &frame, &picture, sheet),
        (Err(error), None) => sheet.error(&error),
        _ => {}
    }
}
