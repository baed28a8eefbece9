//! The texts of a live document, found by their names.

ghost use Rattle.std.specs.Prelude.{◌≡◌, ◌<◌, ◌≤◌, ◌^◌, [], true, false, length, is_some, slice_get, Some, OnOk, OnErr, option_copied};
ghost use Rattle.std.specs.List.{AllByRecursion, list_any};
ghost use Rattle.zed_types.specs.declared.limits.TheConstants.{READ_BODY_LIMIT};
ghost use Rattle.zed_types.specs.Names.{same_text, same_element};
ghost use Rattle.zed_types.specs.Text.{run_from, put_late, kill};
ghost use Rattle.zed_op.specs.Fit.{Fits};
ghost use Rattle.zed_edit.specs.Replay.{made_by};
ghost use Rattle.zed_laws.specs.Making.{made_texts};
ghost use Rattle.zed_code.specs.Text.{has_from, StandsAfter, IsNewStamp};
ghost use Rattle.zed_texts.specs.ByName.{text_in, add as added, add_all as all_added, change};
ghost use Rattle.zed_texts.specs.Texts.{elements_of, named, elements_or_none, texts_after, IsReady, MayTakeMemory, changes_text, AllGrow, IsOpened};
ghost use Rattle.zed_texts.specs.Looks.{looks_of};

use crate::made::all_as_made;
use crate::worked::{kill_in, put_into};
use indexmap::IndexMap;
use std::alloc::{AllocError, Global};
use std::marker::Model;
use zed_code::Text;
use zed_edit::{Edit, Op, Text as PlainText, made_by};
use zed_stats::{add, add_each, find, seek};
use zed_types::{ByteRange, ElemId, Stamp, TextId};
use zed_world::read_is_normal;

/// Texts in the order of their names.
#[derive(Drop)]
pub struct LiveTexts {
    entries: IndexMap<TextId, Text>,
    // the counts of all texts together, kept since they are asked for with each edit of a text
    looks: u128,
    // where the text was found that was asked for last, since an edit names its text several times
    last: usize,
}

impl Model for LiveTexts {
    ghost use Rattle.std.specs.Prelude.{◌≡◌, IsSorted};
    ghost use Rattle.indexmap.specs.IndexMap.{keys};
    ghost use Rattle.zed_texts.specs.ByName.{text_cmp};
    ghost use Rattle.zed_texts.specs.Looks.{looks_of};
    ghost use Rattle.zed_texts.specs.Texts.{Texts};

    ghost Value = { Texts };

    ghost view = { λ t. t.entries.entries };

    ghost invariant = { λ t.
        IsSorted text_cmp (keys t.entries) × (t.looks ≡ looks_of t.entries.entries) };
}

impl LiveTexts {
    /// No text.
    pub fn new(alloc: Global) -> LiveTexts
        ensures { result ≡ [] }
    {
        LiveTexts {
            entries: IndexMap::new(alloc),
            looks: 0,
            last: 0,
        }
    }

    /// The text of a name, if it was made.
    pub fn get(&self, id: TextId) -> Option<&Text>
        ensures { option_copied result ≡ text_in id self.now }
    {
        find(&self.entries, self.last, id)
    }

    /// Whether a text was made.
    pub fn has(&self, id: TextId) -> bool
        ensures { result ≡ is_some (text_in id self.now) }
    {
        seek(&self.entries, self.last, id).is_some()
    }

    /// Whether a byte was put into the text of a name, dead or not.
    #[tactic(auto, using(crate::proofs::TextElements::of_no_text))]
    pub fn has_byte(&self, id: TextId, byte: ElemId) -> bool
        ensures { result ≡ list_any (λ x. same_element x.id byte)
            (elements_or_none (text_in id (elements_of self.now))) }
    {
        match self.get(id) {
            Some(text) => text.has(byte),
            None => false,
        }
    }

    /// Looks for the byte that an insertion or a deletion names, so that it is found at once when
    /// the edit is put in. The texts don't change.
    pub fn hint(&mut self, edit: &Edit)
        ensures { self.new ≡ self.old }
    {
        match &edit.op {
            Op::TextInsert(id, Some(after), _) => self.hint_byte(*id, *after),
            Op::TextDelete(id, range) => {
                self.hint_byte(*id, ElemId::new(range.stamp, range.first))
            }
            _ => {}
        }
    }

    fn hint_byte(&mut self, id: TextId, byte: ElemId)
        ensures { self.new ≡ self.old }
    {
        if let Some(i) = seek(&self.entries, self.last, id) {
            self.last = i;
            if let Some(text) = self.entries.get_index_mut(i) {
                text.hint(byte);
            }
        }
    }

    /// How many texts were made.
    pub fn count(&self) -> usize
        ensures { result ≡ length self.now }
    {
        self.entries.len()
    }

    /// How many runs of all texts were looked at since each was made.
    pub fn looks(&self) -> u128
        ensures result { result ≡ looks_of self.now }
        ensures within { length self.now < 2 ^ 64 }
    {
        // By this their number is known to have the size of a `usize`.
        let _count = self.count();
        self.looks
    }

    /// Text j in the order of names, under its name.
    pub fn at(&self, j: usize) -> (TextId, &Text)
        requires { j < length self.now }
        ensures { slice_get self.now j ≡ Some (result.0, result.1.now) }
    {
        let (id, text) = self.entries.get_index(j).unwrap();
        (*id, text)
    }

    /// Puts an edit in, whenever it comes: changes its text, if that is there, or adds the texts
    /// that it makes. Memory leaves the texts as they were. No memory is taken by an edit of
    /// another thing, by one of a text that isn't there, or by a deletion of bytes that its text
    /// doesn't have.
    pub fn take(&mut self, alloc: Global, edit: &Edit) -> Result<(), AllocError>
        requires fits { Fits edit.now }
        requires ready { IsReady edit.now.stamp edit.now.op (elements_of self.old) }
        ensures ok { OnOk result (elements_of self.new
            ≡ texts_after edit.now.stamp edit.now.op (elements_of self.old)) }
        ensures kept { OnErr result (self.new ≡ self.old) }
        ensures memory_only_when { OnErr result
            (MayTakeMemory edit.now.op (elements_of self.old)) }
        ensures runs { OnOk result
            (AllGrow (λ t. changes_text t edit.now.op) self.old self.new) }
    {
        match &edit.op {
            Op::Genesis(_) => {
                let world = made_by(alloc, edit)?;
                self.open(alloc, edit, world.texts.as_slice())
            }
            Op::TextAdd => self.add_empty(alloc, TextId::new(edit.stamp, 0)),
            Op::TextInsert(id, after, bytes) => {
                self.insert(*id, *after, edit.stamp, bytes.as_slice())
            }
            Op::TextDelete(id, range) => self.delete(*id, *range),
            _ => Ok(()),
        }
    }

    /// Puts bytes into the text of a name, if it is there.
    fn insert(
        &mut self,
        id: TextId,
        after: Option<ElemId>,
        stamp: Stamp,
        bytes: &[u8],
    ) -> Result<(), AllocError>
        requires there { StandsAfter after stamp
            (elements_or_none (text_in id (elements_of self.old))) }
        requires new { IsNewStamp stamp (elements_or_none (text_in id (elements_of self.old))) }
        requires most { length bytes.now ≤ READ_BODY_LIMIT }
        ensures ok { OnOk result (elements_of self.new
            ≡ change id (put_late after stamp (run_from stamp 0 bytes.now))
            (elements_of self.old)) }
        ensures kept { OnErr result (self.new ≡ self.old) }
        ensures runs { OnOk result (AllGrow (λ t. same_text id t) self.old self.new) }
        ensures memory_only_when { OnErr result
            ((is_some (text_in id (elements_of self.old)) ≡ true) × (0 < length bytes.now)) }
    {
        if let Some(i) = seek(&self.entries, self.last, id) {
            if let Some(text) = self.entries.get_index_mut(i) {
                let looked = put_into(text, after, stamp, bytes)?;
                self.looks = self.looks.saturating_add(u128::from(looked));
                return Ok(());
            }
        }
        Ok(())
    }

    /// Marks bytes of the text of a name dead, if it is there.
    fn delete(&mut self, id: TextId, range: ByteRange) -> Result<(), AllocError>
        ensures ok { OnOk result (elements_of self.new
            ≡ change id (kill range) (elements_of self.old)) }
        ensures kept { OnErr result (self.new ≡ self.old) }
        ensures runs { OnOk result (AllGrow (λ t. same_text id t) self.old self.new) }
        ensures memory_only_when { OnErr result ((range.first ≤ range.last) × (has_from range.stamp
            range.first (elements_or_none (text_in id (elements_of self.old))) ≡ true)) }
    {
        if let Some(i) = seek(&self.entries, self.last, id) {
            if let Some(text) = self.entries.get_index_mut(i) {
                let looked = kill_in(text, range)?;
                self.looks = self.looks.saturating_add(u128::from(looked));
                return Ok(());
            }
        }
        Ok(())
    }

    /// Adds a text without a byte.
    fn add_empty(&mut self, alloc: Global, id: TextId) -> Result<(), AllocError>
        ensures ok { OnOk result (elements_of self.new ≡ added id [] (elements_of self.old)) }
        ensures kept { OnErr result (self.new ≡ self.old) }
        ensures runs { OnOk result (AllGrow (λ t. false) self.old self.new) }
    {
        add(&mut self.entries, id, Text::new(alloc))?;
        Ok(())
    }

    /// Adds the texts of the world that an edit makes, as `take` does, for a caller who has made
    /// that world already. Memory leaves the texts as they were.
    pub fn open(
        &mut self,
        alloc: Global,
        edit: &Edit,
        texts: &[PlainText],
    ) -> Result<(), AllocError>
        requires fits { Fits edit.now }
        requires made { texts.now ≡ (made_by edit.now).texts }
        ensures ok { OnOk result (elements_of self.new
            ≡ all_added (named (made_texts edit.now.stamp edit.now.op)) (elements_of self.old)) }
        ensures kept { OnErr result (self.new ≡ self.old) }
        ensures runs { OnOk result (AllGrow (λ t. false) self.old self.new) }
    {
        read_is_normal();
        self.add_made(alloc, texts)
    }

    /// Adds texts of the world. Memory leaves the texts as they were.
    pub(crate) fn add_made(&mut self, alloc: Global, texts: &[PlainText]) -> Result<(), AllocError>
        requires opened { AllByRecursion IsOpened texts.now }
        ensures ok { OnOk result (elements_of self.new
            ≡ all_added (named texts.now) (elements_of self.old)) }
        ensures kept { OnErr result (self.new ≡ self.old) }
        ensures runs { OnOk result (AllGrow (λ t. false) self.old self.new) }
    {
        let made = all_as_made(alloc, texts)?;
        self.entries.reserve(made.len())?;
        add_each(&mut self.entries, made);
        Ok(())
    }
}
