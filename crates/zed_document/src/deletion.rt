//! Deletions from a text by position.

// Bytes that an author deletes from a text.

ghost use Rattle.std.specs.Prelude.{◌≡◌, ◌≢◌, ◌≤◌, ◌<◌, ◌⊎◌, ◌++◌, ◌∷◌, ◌-◌, ◌+◌, ◌==◌, ◌&&◌, [], false, true, is_ok, length, option_map, slice_get, Some, Err, IfOk, IfErr, OnOk, OnErr, IsOkAnd, MatchBool};
ghost use Rattle.zed_edit.specs.Document.{has, text as text_shown, elements as elements_of};
ghost use Rattle.zed_op.specs.declared.thing.Thing.TheVariants.{Text as the_text};
ghost use Rattle.zed_op.specs.Set.{AllFit, IsRising};
ghost use Rattle.zed_edit.specs.Replay.{replay};
ghost use Rattle.zed_history.specs.Clock.{is_spent};
ghost use Rattle.zed_types.specs.Text.{alive};
ghost use Rattle.zed_document.specs.Authoring.{AnswersDeletion, MayTakeMemoryToDelete, deletions, deletions_of, is_part, part, stretches, stretches_of, without, alone as one_byte};
ghost use Rattle.zed_document.specs.Stretches.{CanFollow, ends_before as goes_behind, stretched, with_last, begun as begun_by};
ghost use Rattle.zed_document.specs.Counts.{NoCountFalls};
ghost use Rattle.zed_document.specs.Reading.{has_text};

use crate::document::Document;
use crate::error::DocumentError;
use crate::many::copies_of;
use std::alloc::{AllocError, Global};
use zed_delivery::rising_edits_are_apart;
use zed_edit::{Edit, Op};
use zed_history::{is_spent as are_spent, next_time};
use zed_laws::{made_things_stay, replay_goes_edit_by_edit, texts_keep_names};
use zed_op::{edits_have_sizes, fit_is_of_parts, sets_rise, sets_stay_fit};
use zed_types::{ByteRange, ElemId, Stamp, TextId};
use zed_view::View;

/// Whether a byte comes directly after a stretch, in the same insertion.
fn ends_before(range: ByteRange, byte: ElemId) -> bool
    ensures { result ≡ goes_behind range byte }
{
    range.stamp == byte.name.stamp && u64::from(range.last) + 1 == u64::from(byte.name.index)
}

/// A stretch that goes on to a byte.
fn stretch(range: ByteRange, byte: ElemId) -> ByteRange
    ensures { result ≡ stretched range byte }
{
    ByteRange {
        stamp: byte.name.stamp,
        first: range.first,
        last: byte.name.index,
    }
}

/// A stretch of one byte.
fn alone(byte: ElemId) -> ByteRange
    ensures { result ≡ one_byte byte }
{
    ByteRange {
        stamp: byte.name.stamp,
        first: byte.name.index,
        last: byte.name.index,
    }
}

/// One more byte behind stretches: part of the last, or a stretch of its own.
fn add_name(ranges: &mut Vec<ByteRange>, name: ElemId) -> Result<(), AllocError>
    ensures { OnOk result (ranges.new.items ≡ with_last ranges.old.items name) }
{
    let count = ranges.len();
    if count > 0 {
        let last = ranges[count - 1];
        if ends_before(last, name) {
            ranges[count - 1] = stretch(last, name);
            return Ok(());
        }
    }
    ranges.push(alone(name))?;
    Ok(())
}

/// How many stretches a byte adds behind the one before it: none where it is part of the last.
fn begun(last: Option<ElemId>, name: ElemId) -> usize
    ensures { result ≡ begun_by last name }
{
    match last {
        Some(last) if ends_before(alone(last), name) => 0,
        _ => 1,
    }
}

/// The name of an alive byte of a text.
fn name_of(view: &View, text: TextId, k: usize) -> ElemId
    requires { k < length (text_shown view.now text) }
    ensures { option_map (λ x. x.id) (slice_get (alive (elements_of view.now text)) k)
        ≡ Some result }
{
    view.name_at(text, k).unwrap()
}

/// How many stretches there are of the alive bytes of a text from one position to another. It takes
/// no memory, so ClockSpent can come before Memory.
fn count_stretches(view: &View, text: TextId, from: usize, to: usize) -> usize
    requires { is_part from to (length (text_shown view.now text)) ≡ true }
    ensures { result ≡ length (stretches (part from to (alive (elements_of view.now text)))) }
{
    let mut stretches = 0;
    let mut last = None;
    for k in from..to {
        let name = name_of(view, text, k);
        stretches += begun(last, name);
        last = Some(name);
    }
    stretches
}

/// The stretches of the alive bytes of a text from one position to another.
fn stretches_in(
    alloc: Global,
    view: &View,
    text: TextId,
    from: usize,
    to: usize,
) -> Result<Vec<ByteRange>, AllocError>
    requires { is_part from to (length (text_shown view.now text)) ≡ true }
    ensures ok { IfOk result (λ ranges.
        ranges.items ≡ stretches (part from to (alive (elements_of view.now text)))) }
{
    let mut ranges = Vec::new(alloc);
    for k in from..to {
        add_name(&mut ranges, name_of(view, text, k))?;
    }
    Ok(ranges)
}

/// Deletions of stretches, at times that rise by one.
fn edits_of(
    alloc: Global,
    time: u64,
    replica: u16,
    text: TextId,
    ranges: &[ByteRange],
) -> Result<Vec<Edit>, AllocError>
    requires { time + length ranges.now ≤ 281474976710656 }
    ensures ok { IfOk result (λ made. made.items ≡ deletions time replica text ranges.now) }
{
    let mut made = Vec::new(alloc);
    let mut next = time;
    for range in ranges {
        let stamp = Stamp {
            time: next,
            replica,
        };
        let op = Op::TextDelete(text, *range);
        made.push(Edit { stamp, op })?;
        next += 1;
    }
    Ok(made)
}

/// The deletions of a part of a text can be done one after the other, and leave the text without the part.
fn deletions_follow(edits: &[Edit], replica: u16, text: TextId, from: usize, to: usize)
    requires fit { AllFit edits.now }
    requires rising { IsRising edits.now }
    requires made { has (replay edits.now) (the_text text) ≡ true }
    requires part { is_part from to (length (text_shown (replay edits.now) text)) ≡ true }
    requires left { is_spent edits.now (length (stretches_of edits.now text from to)) ≡ false }
    requires replica { 1 ≤ replica }
    ensures follow { CanFollow edits.now (deletions_of edits.now replica text from to) }
    ensures shows { text_shown
        (replay (edits.now ++ deletions_of edits.now replica text from to)) text
        ≡ without from to (text_shown (replay edits.now) text) }
{
    texts_keep_names();
    fit_is_of_parts();
    replay_goes_edit_by_edit();
    made_things_stay();
}

impl Document {
    /// The deletions of a part of a text. Memory is the last of the refusals.
    fn deletions(
        &self,
        replica: u16,
        text: TextId,
        from: usize,
        to: usize,
    ) -> Result<Vec<Edit>, DocumentError>
        ensures result { (result ≡ Err DocumentError.Memory)
            ⊎ AnswersDeletion self.now text from to (λ r. IsOkAnd r (λ v.
            v.items ≡ deletions_of self.now.edits replica text from to)) result }
        ensures memory_only_when { result ≡ Err DocumentError.Memory
            → MayTakeMemoryToDelete self.now text from to }
    {
        let view = self.view_with(text)?;
        if to <= from || view.length(text) < to {
            return Err(DocumentError::OutOfRange);
        }
        self.deletions_in(&view, replica, text, from, to)
    }

    /// The deletions of a part of a text that is there, where times are left for all of them.
    fn deletions_in(
        &self,
        view: &View,
        replica: u16,
        text: TextId,
        from: usize,
        to: usize,
    ) -> Result<Vec<Edit>, DocumentError>
        requires shows { view.now ≡ replay self.now.edits }
        requires part { is_part from to (length (text_shown (replay self.now.edits) text)) ≡ true }
        ensures result { (result ≡ Err DocumentError.Memory)
            ⊎ MatchBool
            (is_spent self.now.edits (length (stretches_of self.now.edits text from to)))
            (result ≡ Err DocumentError.ClockSpent)
            (IsOkAnd result (λ v. v.items ≡ deletions_of self.now.edits replica text from to)) }
        ensures memory_only_when { result ≡ Err DocumentError.Memory
            → is_spent self.now.edits (length (stretches_of self.now.edits text from to)) ≡ false }
    {
        if are_spent(self.edits(), count_stretches(view, text, from, to)) {
            return Err(DocumentError::ClockSpent);
        }
        let ranges = stretches_in(self.alloc(), view, text, from, to)?;
        let time = next_time(self.edits());
        Ok(edits_of(self.alloc(), time, replica, text, &ranges)?)
    }

    /// Makes edits that can be done one after the other, all or, for want of memory, none. None of
    /// them is held, and those that were held before stay so.
    fn make_all(&mut self, edits: &[Edit]) -> Result<(), DocumentError>
        requires sound { self.old.is_stale ≡ false }
        requires follow { CanFollow self.old.edits edits.now }
        ensures edits { OnOk result (self.new.edits ≡ self.old.edits ++ edits.now) }
        ensures kept { OnErr result (self.new.edits ≡ self.old.edits) }
        ensures refused { OnErr result (self.new.is_stale ≡ false → self.new ≡ self.old) }
        ensures err { IfErr result (λ e. e ≡ DocumentError.Memory) }
        ensures world { self.new.world ≡ self.old.world }
        ensures sound { OnOk result (self.new.is_stale ≡ false) }
        ensures visits { OnOk result (NoCountFalls self.old.counts self.new.counts) }
    {
        let alloc = *self.edits.allocator();
        let mut copies = copies_of(alloc, edits)?;
        self.edits.reserve(copies.len())?;
        sets_rise();
        sets_stay_fit();
        rising_edits_are_apart();
        replay_goes_edit_by_edit();
        edits_have_sizes(&copies);
        // until all is done; what fails midway leaves it so
        self.is_stale = true;
        self.body.take_all(alloc, &copies)?;
        self.edits.append(&mut copies).unwrap();
        self.is_stale = false;
        Ok(())
    }

    /// Deletes the alive bytes of a text from one position up to another, without the latter: one
    /// edit for each longest stretch of one insertion with indices that rise by one. Refusals, in
    /// order: Stale; NoSuch if the text wasn't made; OutOfRange if the range is empty or ends
    /// beyond the length; ClockSpent if fewer times are left than edits are needed; Memory. A
    /// refusal leaves the document as it was, except that after Memory it may be stale.
    ///
    /// The caller gives a replica of at least 1.
    pub fn delete_text(
        &mut self,
        replica: u16,
        text: TextId,
        from: usize,
        to: usize,
    ) -> Result<Vec<Edit>, DocumentError>
        requires { 1 ≤ replica }
        ensures result { (result ≡ Err DocumentError.Memory)
            ⊎ AnswersDeletion self.old text from to (λ r. IsOkAnd r (λ v.
            v.items ≡ deletions_of self.old.edits replica text from to)) result }
        ensures edits { OnOk result
            (self.new.edits ≡ self.old.edits ++ deletions_of self.old.edits replica text from to) }
        ensures shows { OnOk result (text_shown (replay self.new.edits) text
            ≡ without from to (text_shown (replay self.old.edits) text)) }
        ensures err { is_ok result ≡ false → self.new.edits ≡ self.old.edits }
        ensures refused { result ≡ Err DocumentError.Memory
            → self.new.is_stale ≡ false → self.new ≡ self.old }
        ensures kept { is_ok result ≡ false → (result ≢ Err DocumentError.Memory)
            → self.new ≡ self.old }
        ensures world { self.new.world ≡ self.old.world }
        ensures sound { OnOk result (self.new.is_stale ≡ false) }
        ensures visits { OnOk result (NoCountFalls self.old.counts self.new.counts) }
        ensures memory_only_when { result ≡ Err DocumentError.Memory
            → MayTakeMemoryToDelete self.old text from to }
    {
        let made = self.deletions(replica, text, from, to)?;
        deletions_follow(self.edits(), replica, text, from, to);
        self.make_all(&made)?;
        Ok(made)
    }
}
