//! What is to be seen of a board in play, and of a playtest.
use crate::sheet::Sheet;
use zed_oop::{Counters, Effects, Scene, Stat};
use zed_play::{Ending, Play};
use zed_types::{Bytes, Tile};

/// A line of a word and numbers of different types.
macro_rules! put {
    ($sheet:ident, $word:literal, $($number:expr),*) => {
        $sheet.line($word);
        $( $sheet.number(i64::from($number)); )*
    };
}

fn put_tiles(tiles: &[Tile], sheet: &mut Sheet) {
    sheet.line("tiles");
    for tile in tiles {
        sheet.number(i64::from(tile.element));
        sheet.number(i64::from(tile.colour));
    }
}

fn put_stat(stat: &Stat, sheet: &mut Sheet) {
    let (place, step, under) = (stat.place, stat.step, stat.under);
    put!(
        sheet, "stat", place.x, place.y, step.x, step.y, stat.cycle, stat.p1, stat.p2, stat.p3
    );
    sheet.size(stat.follower);
    sheet.size(stat.leader);
    sheet.number(i64::from(under.element));
    sheet.number(i64::from(under.colour));
    sheet.size(stat.position);
    sheet.size(stat.program);
}

fn put_counters(c: Counters, sheet: &mut Sheet) {
    put!(
        sheet, "counters", c.health, c.ammo, c.gems, c.torches, c.score, c.time
    );
}

fn put_all(word: &str, texts: &[Bytes], sheet: &mut Sheet) {
    for text in texts {
        sheet.bytes(word, text.as_slice());
    }
}

/// A board in play: its tiles, its stats, its programs, the counters and the flags.
pub fn put_scene(scene: &Scene, sheet: &mut Sheet) {
    put_tiles(scene.tiles(), sheet);
    for stat in scene.stats() {
        put_stat(stat, sheet);
    }
    put_all("program", scene.programs(), sheet);
    put_counters(scene.counters(), sheet);
    put_all("flag", scene.flags(), sheet);
}

/// What a turn did besides: the words that it used, the stat's number behind it, and messages.
pub fn put_effects(effects: &Effects, sheet: &mut Sheet) {
    sheet.line("used");
    sheet.size(Some(effects.used));
    sheet.line("number");
    sheet.size(effects.number);
    put_all("line", effects.lines.as_slice(), sheet);
}

fn put_messages(play: &Play, sheet: &mut Sheet) {
    for i in 0..play.messages().len() {
        if let Some(message) = play.messages().get(i) {
            sheet.bytes("line", message.as_slice());
        }
    }
}

/// Of each scroll the number of the stat that spoke, the title, and what was said.
fn put_scrolls(play: &Play, sheet: &mut Sheet) {
    for scroll in play.scrolls() {
        sheet.line("scroll");
        sheet.size(scroll.speaker);
        sheet.bytes("title", scroll.title.as_slice());
        put_all("said", scroll.lines.as_slice(), sheet);
    }
}

fn put_ending(ending: Option<Ending>, sheet: &mut Sheet) {
    match ending {
        None => {}
        Some(Ending::Left(board)) => sheet.bytes("left", &[board]),
        Some(Ending::Died) => sheet.line("died"),
        Some(Ending::Failed) => sheet.line("failed"),
    }
}

/// A playtest: its messages, its scrolls, its board, the keys that are held, the tick of the next step, and its end.
pub fn put_play(play: &Play, sheet: &mut Sheet) {
    put_messages(play, sheet);
    put_scrolls(play, sheet);
    put_scene(play.board(), sheet);
    sheet.line("keys");
    for key in play.counters().keys {
        sheet.number(i64::from(key));
    }
    put!(sheet, "tick", play.tick());
    put_ending(play.ending(), sheet);
}
