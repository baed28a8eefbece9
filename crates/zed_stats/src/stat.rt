//! A stat, each of whose fields keeps its latest write.

ghost use Rattle.std.specs.Prelude.{◌≡◌, slice_index_or};
ghost use Rattle.zed_types.specs.Stat.{stat_byte_index, stat_number_index};
ghost use Rattle.zed_stats.specs.Fields.{number_at, value_of, with_number, with_setting, write as written, new_stat, remove as removed};

use crate::field::{FIELDS, StatField};
use zed_types::{Stamp, StatByte, StatFields, StatId, StatNumber, StatSetting};

/// The values of a stat's fields.
#[derive(Clone, Copy)]
pub struct StatValues {
    pub fields: StatFields,
    pub position: i16,
    pub follower: Option<StatId>,
    pub leader: Option<StatId>,
}

fn set_number(values: &mut StatValues, field: StatNumber, n: i16)
    ensures { values.new ≡ with_number (stat_number_index field) n values.old }
{
    match field.index() {
        Some(i) => values.fields.numbers[usize::from(i)] = n,
        None => values.position = n,
    }
}

fn set_value(values: &mut StatValues, setting: StatSetting)
    ensures { values.new ≡ with_setting setting values.old }
{
    match setting {
        StatSetting::Byte(field, n) => values.fields.bytes[usize::from(field.index())] = n,
        StatSetting::Number(field, n) => set_number(values, field, n),
        StatSetting::P3(target) => values.fields.p3 = target,
        StatSetting::Follower(follower) => values.follower = follower,
        StatSetting::Leader(leader) => values.leader = leader,
        StatSetting::Text(text) => values.fields.text = text,
    }
}

impl StatValues {
    /// A byte of the stat.
    pub fn byte(&self, field: StatByte) -> u8
        ensures { result ≡ slice_index_or self.now.fields.bytes (stat_byte_index field) 0 }
    {
        self.fields.bytes[usize::from(field.index())]
    }

    /// A number of the stat: one that a new stat is given, or its position.
    pub fn number(&self, field: StatNumber) -> i16
        ensures { result ≡ number_at (stat_number_index field) self.now }
    {
        match field.index() {
            Some(i) => self.fields.numbers[usize::from(i)],
            None => self.position,
        }
    }

    /// The value of a field.
    pub fn value(&self, field: StatField) -> StatSetting
        ensures { result ≡ value_of field self.now }
    {
        match field {
            StatField::Byte(byte) => StatSetting::Byte(byte, self.byte(byte)),
            StatField::Number(number) => StatSetting::Number(number, self.number(number)),
            StatField::P3 => StatSetting::P3(self.fields.p3),
            StatField::Follower => StatSetting::Follower(self.follower),
            StatField::Leader => StatSetting::Leader(self.leader),
            StatField::Text => StatSetting::Text(self.fields.text),
        }
    }
}

/// A stat: the values of its fields, each with the stamp of its write.
#[derive(Clone, Copy)]
pub struct LiveStat {
    /// Whether it is the player of its board, which can't be removed.
    pub is_player: bool,
    pub removed: bool,
    pub values: StatValues,
    /// By `StatField::number`.
    pub stamps: [Stamp; FIELDS],
}

impl LiveStat {
    /// A stat as it is when the edit with this stamp adds it.
    pub fn new(is_player: bool, stamp: Stamp, values: StatValues) -> LiveStat
        ensures { result ≡ new_stat is_player stamp values }
    {
        LiveStat {
            is_player,
            removed: false,
            values,
            stamps: [stamp; FIELDS],
        }
    }

    /// Gives a field a value, unless it has one with a stamp as late or later.
    pub fn write(&mut self, stamp: Stamp, setting: StatSetting)
        ensures { self.new ≡ written stamp setting self.old }
    {
        let field = usize::from(StatField::of(setting).number());
        if self.stamps[field].is_before(stamp) {
            self.stamps[field] = stamp;
            set_value(&mut self.values, setting);
        }
    }

    /// Marks the stat removed, unless it is a player.
    pub fn remove(&mut self)
        ensures { self.new ≡ removed self.old }
    {
        self.removed = !self.is_player;
    }
}
