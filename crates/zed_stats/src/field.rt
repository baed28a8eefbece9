//! The fields of a stat by name.

ghost use Rattle.std.specs.Prelude.{◌≡◌, ◌<◌};
ghost use Rattle.zed_stats.specs.Fields.{field_of, field_number};

use zed_types::{StatByte, StatNumber, StatSetting};

/// A field of a stat.
#[derive(Clone, Copy, PartialEq, Eq)]
pub enum StatField {
    Byte(StatByte),
    Number(StatNumber),
    P3,
    Follower,
    Leader,
    Text,
}

/// How many fields a stat has.
pub(crate) const FIELDS: usize = 14;

impl StatField {
    /// The field that a setting is of.
    pub fn of(setting: StatSetting) -> StatField
        ensures { result ≡ field_of setting }
    {
        match setting {
            StatSetting::Byte(field, _) => StatField::Byte(field),
            StatSetting::Number(field, _) => StatField::Number(field),
            StatSetting::P3(_) => StatField::P3,
            StatSetting::Follower(_) => StatField::Follower,
            StatSetting::Leader(_) => StatField::Leader,
            StatSetting::Text(_) => StatField::Text,
        }
    }

    /// Its number in an edit file.
    pub fn number(self) -> u8
        ensures result { result ≡ field_number self }
        ensures within { result < 14 }
    {
        match self {
            StatField::Byte(field) => field.field(),
            StatField::Number(field) => field.field(),
            StatField::P3 => 8,
            StatField::Follower => 9,
            StatField::Leader => 10,
            StatField::Text => 13,
        }
    }
}
