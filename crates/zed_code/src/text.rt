//! A text as contracts see it.

ghost use Rattle.std.specs.Prelude.{◌≡◌, ◌↔◌, IsTrue, ◌<◌, ◌≤◌, ◌+◌, ◌-◌, ◌++◌, ◌^◌, vec_len, vec_capacity, length, [], false, true, map, OnOk, OnErr, IfOk, IfErr, Some, None, MatchOption, slice_get};
ghost use Rattle.std.specs.List.{AllByRecursion, filter, list_any};
ghost use Rattle.zed_types.specs.declared.limits.TheConstants.{READ_BODY_LIMIT};
ghost use Rattle.zed_types.specs.Stamp.{before, genesis_stamp, same_stamp};
ghost use Rattle.zed_types.specs.Names.{same_element};
ghost use Rattle.zed_types.specs.Text.{run_from, put_late, kill, alive_bytes};
ghost use Rattle.zed_code.specs.Text.{elements, StandsAfter, IsNewStamp, HasMore, alive_names, names_between, has_from, bytes_from};
ghost use Rattle.zed_code.specs.Runs.{if_any, whole};
ghost use Rattle.zed_code.specs.Blocks.{lists, runs_of, NoneEmpty};
ghost use Rattle.zed_code.specs.Looks.{looks_to_insert, looks_to_delete};
ghost use Rattle.zed_code.specs.Visits.{raised, LooksAtSome, LooksAtLeast};

use crate::block::Block;
use crate::cut::mark_dead;
use crate::insertion::put;
use crate::place::look_once;
use crate::readers::{Positions, count_live, live_at, push_live, push_names};
use crate::run::Run;
use crate::same::spell_same;
use crate::search::{Found, any_has, find_asked, found_of};
use std::alloc::{AllocError, Global};
use std::collections::BTreeMap;
use std::marker::Model;
use zed_types::{ByteRange, ElemId, Stamp};

/// One text: its bytes in order, dead ones included, kept as runs.
#[derive(Drop)]
pub struct Text {
    store: Vec<u8>,
    blocks: Vec<Block>,
    visits: u64,
    // the number of a block before which no run stands that has a byte or later ones of its insertion
    hints: BTreeMap<ElemId, usize>,
    // where the block with a number stands; blocks are halved, and so move, without a change of their hints
    places: Vec<usize>,
    // the byte that was found or put in last, which the next edit is likely to name
    found: Option<Found>,
}

impl Model for Text {
    ghost use Rattle.zed_code.specs.Cutting.{piece_in};
    ghost use Rattle.zed_code.specs.Kept.{IsWhole};
    ghost use Rattle.zed_code.specs.Blocks.{lists, runs_of};
    ghost use Rattle.zed_code.specs.Pieces.{Shown};
    ghost use Rattle.std.specs.Prelude.{map};

    ghost Value = { Shown };

    ghost view = { λ t. record {
      cutting = map (piece_in t.store.items) (runs_of t.blocks.items);
      visits = t.visits;
    } };

    ghost invariant = { λ t. IsWhole t.store.items (lists t.blocks.items) t.hints.entries t.places.items t.found };
}

/// The blocks of a text that is made with so many bytes.
fn first_blocks(alloc: Global, len: u32) -> Result<Vec<Block>, AllocError>
    ensures runs { IfOk result (λ blocks. runs_of blocks.items ≡ if_any (whole genesis_stamp 0 len)) }
    ensures full { IfOk result (λ blocks. NoneEmpty (lists blocks.items)) }
{
    let mut blocks = Vec::new(alloc);
    if len > 0 {
        let mut runs = Vec::new(alloc);
        let run = Run::whole(Stamp::GENESIS, 0, len);
        runs.push(run)?;
        blocks.push(Block { runs, id: 0 })?;
    }
    Ok(blocks)
}

impl Text {
    /// A text without a byte. It takes no memory.
    pub fn new(alloc: Global) -> Text
        ensures { result ≡ record { cutting = []; visits = 0 } }
    {
        Text {
            store: Vec::new(alloc),
            blocks: Vec::new(alloc),
            visits: 0,
            hints: BTreeMap::new(alloc),
            places: Vec::new(alloc),
            found: None,
        }
    }

    /// A text of the edit that makes the world: its bytes, numbered from 0. One without bytes takes no memory.
    pub fn genesis(alloc: Global, bytes: &[u8]) -> Result<Text, AllocError>
        requires { length bytes.now ≤ READ_BODY_LIMIT }
        ensures ok { IfOk result (λ t. elements t ≡ run_from genesis_stamp 0 bytes.now) }
        ensures runs { IfOk result (λ t. length t.cutting ≤ 1) }
        ensures visits { IfOk result (λ t. t.visits ≡ 0) }
        ensures memory_only_when { OnErr result (0 < length bytes.now) }
    {
        if bytes.is_empty() {
            return Ok(Text::new(alloc));
        }
        let store = Vec::from_slice(alloc, bytes)?;
        let blocks = first_blocks(alloc, bytes.len() as u32)?;
        let mut places = Vec::new(alloc);
        places.push(0)?;
        Ok(Text {
            store,
            blocks,
            visits: 0,
            hints: BTreeMap::new(alloc),
            places,
            found: None,
        })
    }

    /// Puts bytes after the byte named, or at the head, past the bytes of later edits. The edit has
    /// this stamp, and its bytes are numbered from 0. Memory leaves the text as it was.
    pub fn insert(
        &mut self,
        after: Option<ElemId>,
        stamp: Stamp,
        bytes: &[u8],
    ) -> Result<(), AllocError>
        requires there { StandsAfter after stamp (elements self.old) }
        requires new { IsNewStamp stamp (elements self.old) }
        requires most { length bytes.now ≤ READ_BODY_LIMIT }
        ensures ok { OnOk result (elements self.new
            ≡ put_late after stamp (run_from stamp 0 bytes.now) (elements self.old)) }
        ensures kept { OnErr result (self.new ≡ self.old) }
        ensures runs { HasMore 2 self.old self.new }
        ensures visits { OnOk result
            (LooksAtSome (length self.old.cutting) self.old.visits self.new.visits) }
        ensures looks { OnOk result (0 < length bytes.now → LooksAtLeast
            (looks_to_insert after stamp self.old.cutting) self.old.visits self.new.visits) }
        ensures memory_only_when { OnErr result (0 < length bytes.now) }
    {
        if bytes.is_empty() {
            look_once(&self.blocks, &mut self.visits);
            return Ok(());
        }
        self.insert_some(after, stamp, bytes)
    }

    fn insert_some(
        &mut self,
        after: Option<ElemId>,
        stamp: Stamp,
        bytes: &[u8],
    ) -> Result<(), AllocError>
        requires there { StandsAfter after stamp (elements self.old) }
        requires new { IsNewStamp stamp (elements self.old) }
        requires some { 0 < length bytes.now }
        requires most { length bytes.now ≤ READ_BODY_LIMIT }
        ensures ok { OnOk result (elements self.new
            ≡ put_late after stamp (run_from stamp 0 bytes.now) (elements self.old)) }
        ensures kept { OnErr result (self.new ≡ self.old) }
        ensures runs { HasMore 2 self.old self.new }
        ensures visits { OnOk result
            (LooksAtSome (length self.old.cutting) self.old.visits self.new.visits) }
        ensures looks { OnOk result (LooksAtLeast
            (looks_to_insert after stamp self.old.cutting) self.old.visits self.new.visits) }
    {
        self.store.reserve(bytes.len())?;
        let run = Run::whole(stamp, self.store.len(), bytes.len() as u32);
        let last = ElemId::new(stamp, bytes.len() as u32 - 1);
        let found = self.found;
        self.found = None;
        let mut visits = self.visits;
        let at = put(
            &mut self.blocks,
            &mut self.places,
            &mut self.hints,
            found,
            after,
            run,
            &mut visits,
        )?;
        self.store.extend_from_slice(bytes).unwrap();
        self.visits = visits;
        self.found = Some(Found {
            id: last,
            at,
            is_far: false,
        });
        Ok(())
    }

    /// Marks the bytes `from` to `to`, both included, of the insertion with this stamp dead. Memory
    /// leaves the text as it was. No memory is taken if the range is empty, or if the text has no
    /// byte of the insertion from `from` on.
    pub fn delete(&mut self, stamp: Stamp, from: u32, to: u32) -> Result<(), AllocError>
        ensures ok { OnOk result (elements self.new
            ≡ kill (bytes_from stamp from to) (elements self.old)) }
        ensures kept { OnErr result (self.new ≡ self.old) }
        ensures runs { HasMore 2 self.old self.new }
        ensures visits { OnOk result
            (LooksAtSome (length self.old.cutting) self.old.visits self.new.visits) }
        ensures looks { OnOk result (LooksAtLeast
            (looks_to_delete (bytes_from stamp from to) self.old.cutting) self.old.visits self.new.visits) }
        ensures memory_only_when { OnErr result
            ((from ≤ to) × (has_from stamp from (elements self.old) ≡ true)) }
    {
        let range = ByteRange {
            stamp,
            first: from,
            last: to,
        };
        let found = self.found;
        self.found = None;
        let mut visits = self.visits;
        mark_dead(
            &mut self.blocks,
            &mut self.places,
            &mut self.hints,
            found,
            range,
            &mut visits,
        )?;
        self.visits = visits;
        Ok(())
    }

    /// The live bytes, in order. A text without one takes no memory.
    pub fn text(&self) -> Result<Vec<u8>, AllocError>
        ensures ok { IfOk result (λ bytes. bytes.items ≡ alive_bytes (elements self.now)) }
        ensures memory_only_when { OnErr result (0 < length (alive_bytes (elements self.now))) }
    {
        let mut out = Vec::new(*self.store.allocator());
        self.append_to(&mut out)?;
        Ok(out)
    }

    /// Appends the live bytes, in order. Memory comes only if the vector has no room for them; then
    /// nothing is appended.
    pub fn append_to(&self, out: &mut Vec<u8>) -> Result<(), AllocError>
        ensures ok { OnOk result
            (out.new.items ≡ out.old.items ++ alive_bytes (elements self.now)) }
        ensures kept { OnErr result (out.new.items ≡ out.old.items) }
        ensures memory_only_when { OnErr result
            (vec_capacity out.old < vec_len out.old + length (alive_bytes (elements self.now))) }
    {
        out.reserve(self.length())?;
        for block in &self.blocks {
            push_live(out, &self.store, &block.runs);
        }
        Ok(())
    }

    /// Whether two texts have the same elements, dead ones included.
    #[tactic(auto, using(crate::proofs::PutBytes::cutting_spells))]
    pub fn same(&self, other: &Text) -> bool
        ensures { IsTrue result ↔ elements self.now ≡ elements other.now }
    {
        spell_same(&self.store, &self.blocks, &other.store, &other.blocks)
    }

    /// Whether a byte was put into the text, dead or not.
    pub fn has(&self, id: ElemId) -> bool
        ensures { result ≡ list_any (λ x. same_element x.id id) (elements self.now) }
    {
        any_has(&self.blocks, &self.places, &self.hints, self.found, id)
    }

    /// Looks for a byte that the next edit names, so that it is found at once then. The text
    /// doesn't change.
    pub fn hint(&mut self, id: ElemId)
        ensures { self.new ≡ self.old }
    {
        if found_of(self.found, id).is_some() {
            return;
        }
        let asked = find_asked(&self.blocks, &self.places, &self.hints, id);
        if asked.at.block < self.blocks.len() {
            self.found = Some(asked);
        }
    }

    /// How many runs were looked at since the text was made.
    pub fn visits(&self) -> u64
        ensures { result ≡ self.now.visits }
    {
        self.visits
    }

    /// How many bytes are alive.
    pub fn length(&self) -> usize
        ensures { result ≡ length (alive_bytes (elements self.now)) }
    {
        count_live(&self.blocks)
    }

    /// The name of the k-th live byte, if there are so many.
    pub fn elem_at(&self, k: usize) -> Option<ElemId>
        ensures { result ≡ slice_get (alive_names (elements self.now)) k }
    {
        match live_at(&self.blocks, k) {
            Some((run, i)) => Some(run.name(i)),
            None => None,
        }
    }

    /// Appends the names of the live bytes from one position up to another, without the latter, as
    /// far as there are any. It walks through the runs once. Memory comes only if the vector has no
    /// room for so many names; then nothing is appended.
    pub fn append_names(
        &self,
        from: usize,
        to: usize,
        out: &mut Vec<ElemId>,
    ) -> Result<(), AllocError>
        ensures ok { OnOk result
            (out.new.items ≡ out.old.items ++ names_between from to (elements self.now)) }
        ensures kept { OnErr result (out.new.items ≡ out.old.items) }
        ensures memory_only_when { OnErr result
            (vec_capacity out.old < vec_len out.old + (to - from)) }
    {
        out.reserve(to.saturating_sub(from))?;
        push_names(out, &self.blocks, Positions { from, to });
        Ok(())
    }

    /// The k-th live byte, if there are so many.
    pub fn byte_at(&self, k: usize) -> Option<u8>
        ensures { result ≡ slice_get (alive_bytes (elements self.now)) k }
    {
        match live_at(&self.blocks, k) {
            Some((run, i)) => Some(self.store[run.start + i as usize]),
            None => None,
        }
    }
}
