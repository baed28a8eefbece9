//! The lines that are told.
ghost use Rattle.std.specs.Prelude.{◌≡◌, ◌∷◌, ◌++◌, [], OnOk};
ghost use Rattle.zed_log.specs.Fields.{number};
ghost use Rattle.zed_report.specs.Lines.{by_words, counted, edits_lost, lost_words, others_words, shown_words};
ghost use Rattle.zed_report.specs.Words.{other_word, side_word};

use crate::values::put_by;
use crate::words::{other_word, side_word};
use std::alloc::{AllocError, Global};
use zed_log::{put_number, put_text};
use zed_sides::Side;
use zed_types::Stamp;

/// Lines, and how many were begun.
#[derive(Drop)]
pub(crate) struct Report {
    pub(crate) text: Vec<u8>,
    pub(crate) lines: usize,
}

/// Appends so many of something.
#[tactic(auto, unfolding(crate::specs::Lines::counted))]
pub(crate) fn put_counted(out: &mut Vec<u8>, n: usize, one: &str) -> Result<(), AllocError>
    ensures { OnOk result (out.new.items ≡ out.old.items ++ counted n one.now) }
{
    put_number(out, n as u64)?;
    put_text(out, " ")?;
    put_text(out, one)?;
    if n == 1 { Ok(()) } else { put_text(out, "s") }
}

impl Report {
    pub(crate) fn new(alloc: Global) -> Report
        ensures { result.text.items ≡ [] }
    {
        Report {
            text: Vec::new(alloc),
            lines: 0,
        }
    }

    /// Counts a line that begins here.
    pub(crate) fn begin(&mut self)
        ensures { self.new.text ≡ self.old.text }
    {
        self.lines = self.lines.saturating_add(1);
    }

    /// A text.
    pub(crate) fn put(&mut self, text: &str) -> Result<(), AllocError>
        ensures { OnOk result (self.new.text.items ≡ self.old.text.items ++ text.now) }
    {
        put_text(&mut self.text, text)
    }

    /// The word of a side.
    pub(crate) fn side(&mut self, side: Side) -> Result<(), AllocError>
        ensures { OnOk result (self.new.text.items ≡ self.old.text.items ++ side_word side) }
    {
        put_text(&mut self.text, side_word(side))
    }

    /// The word of the other side.
    pub(crate) fn other_side(&mut self, side: Side) -> Result<(), AllocError>
        ensures { OnOk result (self.new.text.items ≡ self.old.text.items ++ other_word side) }
    {
        put_text(&mut self.text, other_word(side))
    }

    /// A number.
    pub(crate) fn number(&mut self, n: usize) -> Result<(), AllocError>
        ensures { OnOk result (self.new.text.items ≡ self.old.text.items ++ number n) }
    {
        put_number(&mut self.text, n as u64)
    }

    /// So many of something.
    pub(crate) fn counted(&mut self, n: usize, one: &str) -> Result<(), AllocError>
        ensures { OnOk result (self.new.text.items ≡ self.old.text.items ++ counted n one.now) }
    {
        put_counted(&mut self.text, n, one)
    }

    /// The edit that wrote something, if there is one.
    pub(crate) fn by(&mut self, by: Option<Stamp>) -> Result<(), AllocError>
        ensures { OnOk result (self.new.text.items ≡ self.old.text.items ++ by_words by) }
    {
        put_by(&mut self.text, by)
    }

    /// Which side shows what the union shows, the edit that wrote it, and whether others did too.
    #[tactic(auto, unfolding(crate::specs::Lines::shown_words))]
    pub(crate) fn shown(
        &mut self,
        shown: Option<Side>,
        by: Option<Stamp>,
        has_others: bool,
    ) -> Result<(), AllocError>
        ensures { OnOk result
            (self.new.text.items ≡ self.old.text.items ++ shown_words shown by has_others) }
    {
        let Some(side) = shown else {
            return Ok(());
        };
        self.put(" (")?;
        self.side(side)?;
        self.by(by)?;
        self.put(others(has_others))?;
        self.put(")")
    }

    /// What a side shows behind this doesn't show in the union.
    #[tactic(auto, unfolding(crate::specs::Lines::lost_words))]
    pub(crate) fn lost(&mut self, side: Side) -> Result<(), AllocError>
        ensures { OnOk result (self.new.text.items ≡ self.old.text.items ++ lost_words side) }
    {
        self.put("; ")?;
        self.side(side)?;
        self.put(" ")
    }

    /// So many edits that a side made there don't show. Ends the line.
    #[tactic(auto, unfolding(crate::specs::Lines::edits_lost))]
    pub(crate) fn edits_lost(
        &mut self,
        side: Side,
        edits: usize,
        there: &str,
    ) -> Result<(), AllocError>
        ensures { OnOk result
            (self.new.text.items ≡ self.old.text.items ++ edits_lost side edits there.now) }
    {
        self.lost(side)?;
        self.put("made ")?;
        self.counted(edits, "edit")?;
        self.put(there)?;
        self.end()
    }

    /// Ends a line.
    pub(crate) fn end(&mut self) -> Result<(), AllocError>
        ensures { OnOk result (self.new.text.items ≡ self.old.text.items ++ 10 ∷ []) }
    {
        put_text(&mut self.text, "\n")
    }
}

fn others(has_others: bool) -> &'static str
    ensures { result.now ≡ others_words has_others }
{
    if has_others { ", and others" } else { "" }
}
