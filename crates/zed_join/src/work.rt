//! What each side did since both parted, and which texts show.
ghost use Rattle.std.specs.Prelude.{IfOk};
ghost use Rattle.zed_join.specs.Tallies.{IsTallied};

use crate::sides::{Sides, Views};
use crate::tally::Tally;
use std::alloc::{AllocError, Global};
use std::collections::BTreeMap;
use zed_document::View;
use zed_sides::Side;
use zed_types::{StatId, TextId};

/// The texts that show in a view: those of stats that are there, with the first of these.
#[derive(Drop)]
pub struct ShownTexts {
    texts: BTreeMap<TextId, StatId>,
}

impl ShownTexts {
    // Notes the texts of the stats of a board that are there.
    fn note_board(&mut self, view: &View, board: usize) -> Result<(), AllocError> {
        if view.boards() <= board {
            return Ok(());
        }
        for j in 0..view.stats(board) {
            let (id, stat) = view.stat(board, j);
            if let (false, Some(text)) = (stat.removed, stat.values.fields.text) {
                if !self.texts.contains_key(&text) {
                    self.texts.insert(text, id)?;
                }
            }
        }
        Ok(())
    }

    fn of(alloc: Global, view: &View) -> Result<ShownTexts, AllocError> {
        let mut shown = ShownTexts {
            texts: BTreeMap::new(alloc),
        };
        for i in 0..view.boards() {
            let (_, board) = view.board(i);
            if !board.is_removed() {
                shown.note_board(view, i)?;
            }
        }
        Ok(shown)
    }

    /// Whether a stat is the first one that shows a text.
    pub fn is_first(&self, text: TextId, stat: StatId) -> bool {
        self.texts.get(&text).copied() == Some(stat)
    }

    /// Whether a text shows.
    pub fn has(&self, text: TextId) -> bool {
        self.texts.contains_key(&text)
    }
}

/// How many edits each side alone has, and which texts show in the union.
#[derive(Drop)]
pub struct Work {
    pub mine: Tally,
    pub theirs: Tally,
    pub shown: ShownTexts,
}

impl Work {
    /// That of two sides, which show this.
    pub fn all(alloc: Global, sides: &Sides<'_>, views: &Views<'_>) -> Result<Work, AllocError>
        ensures mine { IfOk result
            (λ w. IsTallied sides.now.mine.now.edits sides.now.theirs.now.edits w.mine) }
        ensures theirs { IfOk result
            (λ w. IsTallied sides.now.theirs.now.edits sides.now.mine.now.edits w.theirs) }
    {
        Ok(Work {
            mine: Tally::of(alloc, sides.mine, sides.theirs, &views.mine)?,
            theirs: Tally::of(alloc, sides.theirs, sides.mine, &views.theirs)?,
            shown: ShownTexts::of(alloc, &views.union)?,
        })
    }

    /// The edits of a side.
    pub fn of(&self, side: Side) -> &Tally {
        match side {
            Side::Mine => &self.mine,
            Side::Theirs => &self.theirs,
        }
    }
}
