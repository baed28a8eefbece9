//! How many bytes a board takes in a world file.
ghost use Rattle.std.specs.Prelude.{◌≡◌, ◌+◌, ◌<◌, ◌≤◌, [], length};
ghost use Rattle.std.specs.List.{flat_map};
ghost use Rattle.zed_world.specs.Writing.{code_text, stat_text, body_text};
ghost use Rattle.zed_edit.specs.Numbers.{alive_stats};
ghost use Rattle.zed_types.specs.declared.property.BoardText.TheVariants.{Name, Message};
ghost use Rattle.zed_view.specs.View.{board_at, board_text};
ghost use Rattle.zed_export.specs.World.{exported_code, exported_above, exported_board};
ghost use Rattle.zed_export.specs.Limits.{told};

use crate::program::user_of;
use smallvec::SmallVec;
use std::alloc::Global;
use zed_document::View;
use zed_runs::runs_len;
use zed_types::TextId;
use zed_world::{BODY_FRAME, STAT_FRAME};

/// How many bytes the program of a stat takes above stats with these texts.
fn program_bytes(view: &View, lower: &[Option<TextId>], text: Option<TextId>) -> usize
    ensures { result ≡ length (code_text (exported_code view.now lower.now text)) }
{
    match text {
        Some(text) if user_of(lower, text).is_none() => view.length(text),
        _ => 0,
    }
}

/// How many bytes the stats of a board take.
fn stats_bytes(alloc: Global, view: &View, i: usize) -> usize
    requires board { i < length view.now.boards }
    requires few { length (alive_stats (board_at view.now i)) ≤ 151 }
    ensures { result ≡ told (length (flat_map stat_text
        (exported_above view.now (board_at view.now i) [] (alive_stats (board_at view.now i))))) }
{
    let mut texts: SmallVec<Option<TextId>, 151> = SmallVec::new(alloc);
    let mut bytes: usize = 0;
    for j in 0..view.stats(i) {
        let (_, stat) = view.stat(i, j);
        if !stat.removed {
            let text = stat.values.fields.text;
            let program = program_bytes(view, texts.as_slice(), text);
            bytes = bytes.saturating_add(STAT_FRAME).saturating_add(program);
            texts.push_reserved(text);
        }
    }
    bytes
}

/// How many bytes the body of a board takes.
pub(crate) fn body_bytes(alloc: Global, view: &View, i: usize) -> usize
    requires board { i < length view.now.boards }
    requires few { length (alive_stats (board_at view.now i)) ≤ 151 }
    requires name { length (board_text Name (board_at view.now i).properties) ≤ 50 }
    requires message { length (board_text Message (board_at view.now i).properties) ≤ 58 }
    ensures { result ≡ told (length (body_text (exported_board view.now (board_at view.now i)))) }
{
    let frame = BODY_FRAME + runs_len(view.table(i));
    frame.saturating_add(stats_bytes(alloc, view, i))
}
