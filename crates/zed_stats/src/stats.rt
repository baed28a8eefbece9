//! The stats of a board.

ghost use Rattle.std.specs.Prelude.{◌≡◌, ◌<◌, ◌&&◌, not, [], length, false, slice_get, OnOk, OnErr, IfErr, IfSome, Some};
ghost use Rattle.zed_stats.specs.Fields.{new_stat, value_of, write, remove as removed};
ghost use Rattle.zed_stats.specs.Stats.{has as is_there, add as added, change, number_of as number_in};

use crate::field::StatField;
use crate::stat::{LiveStat, StatValues};
use crate::{add, seek};
use indexmap::IndexMap;
use std::alloc::{AllocError, Global};
use std::marker::Model;
use zed_types::{Stamp, StatId, StatSetting};

/// The stats of a board, removed ones too, in the order of their names: by stamp, and then by index.
#[derive(Drop)]
pub struct Stats {
    entries: IndexMap<StatId, LiveStat>,
    // where the stat stands that was asked for last, since an edit names its stat several times
    last: usize,
}

impl Model for Stats {
    ghost use Rattle.std.specs.Prelude.{List, IsSorted};
    ghost use Rattle.zed_types.specs.declared.names.StatId.{StatId as TheId};
    ghost use Rattle.zed_stats.specs.declared.stat.LiveStat.{LiveStat as TheStat};
    ghost use Rattle.zed_stats.specs.Stats.{stat_cmp};
    ghost use Rattle.indexmap.specs.IndexMap.{keys};

    ghost Value = { List (TheId × TheStat) };

    ghost view = { λ s. s.entries.entries };

    ghost invariant = { λ s. IsSorted stat_cmp (keys s.entries) };
}

/// Whether a stat is a player, and not removed.
fn is_alive_player(stat: &LiveStat) -> bool
    ensures { result ≡ stat.now.is_player && not stat.now.removed }
{
    stat.is_player && !stat.removed
}

/// Whether a stat is no player, and not removed.
fn is_alive_other(stat: &LiveStat) -> bool
    ensures { result ≡ not stat.now.is_player && not stat.now.removed }
{
    !stat.is_player && !stat.removed
}

impl Stats {
    /// No stat.
    pub fn new(alloc: Global) -> Stats
        ensures { result ≡ [] }
    {
        Stats {
            entries: IndexMap::new(alloc),
            last: 0,
        }
    }

    /// Adds a stat at its place. A stat that is there already stays as it is, removed or not.
    pub fn add(&mut self, id: StatId, is_player: bool, values: StatValues) -> Result<(), AllocError>
        ensures ok { OnOk result
            (self.new ≡ added id (new_stat is_player id.name.stamp values) self.old) }
        ensures kept { OnErr result (self.new ≡ self.old) }
        ensures memory_only_when { OnErr result (is_there id self.old ≡ false) }
    {
        let stat = LiveStat::new(is_player, id.name.stamp, values);
        add(&mut self.entries, id, stat)
    }

    /// Whether a stat of this name was added, removed or not.
    pub fn has(&self, id: StatId) -> bool
        ensures { result ≡ is_there id self.now }
    {
        seek(&self.entries, self.last, id).is_some()
    }

    /// Looks for a stat, so that the next call finds it at once. Nothing changes.
    pub fn hint(&mut self, id: StatId)
        ensures { self.new ≡ self.old }
    {
        if let Some(i) = seek(&self.entries, self.last, id) {
            self.last = i;
        }
    }

    /// Marks a stat removed, unless it is a player. It keeps its name and its fields.
    pub fn remove(&mut self, id: StatId)
        ensures { self.new ≡ change id removed self.old }
    {
        if let Some(i) = seek(&self.entries, self.last, id) {
            self.last = i;
            if let Some(stat) = self.entries.get_index_mut(i) {
                stat.remove();
            }
        }
    }

    /// Gives a field of a stat a value, unless it has one with a stamp as late or later.
    pub fn set_field(&mut self, id: StatId, stamp: Stamp, setting: StatSetting)
        ensures { self.new ≡ change id (write stamp setting) self.old }
    {
        if let Some(i) = seek(&self.entries, self.last, id) {
            self.last = i;
            if let Some(stat) = self.entries.get_index_mut(i) {
                stat.write(stamp, setting);
            }
        }
    }

    /// The number of a stat among those that are not removed, the player first; none for a removed one.
    pub fn number_of(&self, id: StatId) -> Option<usize>
        ensures { result ≡ number_in id self.now }
    {
        let mut number = 0;
        for (name, stat) in self.entries.iter() {
            if is_alive_player(stat) {
                if *name == id {
                    return Some(number);
                }
                number += 1;
            }
        }
        for (name, stat) in self.entries.iter() {
            if is_alive_other(stat) {
                if *name == id {
                    return Some(number);
                }
                number += 1;
            }
        }
        None
    }

    /// How many stats were added, removed ones too.
    pub fn count(&self) -> usize
        ensures { result ≡ length self.now }
    {
        self.entries.len()
    }

    /// Stat j in the order of names, under its name.
    pub fn at(&self, j: usize) -> (StatId, &LiveStat)
        requires { j < length self.now }
        ensures { slice_get self.now j ≡ Some (result.0, result.1.now) }
    {
        let (id, stat) = self.entries.get_index(j).unwrap();
        (*id, stat)
    }

    /// The value of a field of stat j in the order of names.
    pub fn field(&self, j: usize, field: StatField) -> StatSetting
        requires { j < length self.now }
        ensures { IfSome (slice_get self.now j) (λ e. result ≡ value_of field (e.1).values) }
    {
        let (_, stat) = self.at(j);
        stat.values.value(field)
    }
}
