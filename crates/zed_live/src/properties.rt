//! The properties of a board, each of which keeps its latest write.

ghost use Rattle.std.specs.Prelude.{◌≡◌, true, IfOk, OnOk, OnErr};
ghost use Rattle.zed_types.specs.Strings.{board_has_string};
ghost use Rattle.zed_live.specs.Header.{write_each as each_written};
ghost use Rattle.zed_live.specs.Properties.{unwritten, write_property, write_properties};

use crate::header::{taken_out, write_each};
use std::alloc::{AllocError, Global};
use zed_cells::keep_in;
use zed_edit::Properties;
use zed_types::{BoardId, BoardSetting, Bytes, Stamp, Written};

/// The properties of a board, each with its latest write, if it was ever written.
#[derive(Drop)]
pub struct LiveProperties {
    /// By `BoardByte::index`.
    pub bytes: [Option<Written<u8>>; 3],
    /// By `BoardFlag::index`.
    pub flags: [Option<Written<bool>>; 2],
    pub time_limit: Option<Written<i16>>,
    pub rank: Option<Written<u16>>,
    /// By `Side::index`.
    pub exits: [Option<Written<Option<BoardId>>>; 4],
    /// By `BoardText::index`.
    pub texts: [Option<Written<Bytes>>; 2],
}

fn write_bytes(slots: &mut [Option<Written<u8>>; 3], stamp: Stamp, values: &[u8; 3])
    ensures { slots.new ≡ each_written stamp values.now slots.old }
{
    write_each(slots, stamp, values);
}

fn write_flags(slots: &mut [Option<Written<bool>>; 2], stamp: Stamp, values: &[bool; 2])
    ensures { slots.new ≡ each_written stamp values.now slots.old }
{
    write_each(slots, stamp, values);
}

fn write_exits(
    slots: &mut [Option<Written<Option<BoardId>>>; 4],
    stamp: Stamp,
    values: &[Option<BoardId>; 4],
)
    ensures { slots.new ≡ each_written stamp values.now slots.old }
{
    write_each(slots, stamp, values);
}

fn write_texts(
    alloc: Global,
    slots: &mut [Option<Written<Bytes>>; 2],
    stamp: Stamp,
    values: &mut [Bytes; 2],
)
    ensures { slots.new ≡ each_written stamp values.old slots.old }
{
    for i in 0..2 {
        let value = taken_out(alloc, &mut values[i]);
        keep_in(&mut slots[i], Written { stamp, value });
    }
}

impl LiveProperties {
    /// Properties of which none was ever written. They take no memory.
    pub fn new() -> LiveProperties
        ensures { result ≡ unwritten }
    {
        LiveProperties {
            bytes: [None, None, None],
            flags: [None, None],
            time_limit: None,
            rank: None,
            exits: [None, None, None, None],
            texts: [None, None],
        }
    }

    /// Gives the register of a setting its value, unless it has one with a stamp as late or later. Memory leaves the properties
    /// as they were.
    pub fn write(&mut self, stamp: Stamp, setting: &BoardSetting) -> Result<(), AllocError>
        ensures ok { OnOk result (self.new ≡ write_property stamp setting.now self.old) }
        ensures kept { OnErr result (self.new ≡ self.old) }
        ensures memory_only_when { OnErr result (board_has_string setting.now ≡ true) }
    {
        self.put(stamp, setting.copy()?);
        Ok(())
    }

    fn put(&mut self, stamp: Stamp, setting: BoardSetting)
        ensures { self.new ≡ write_property stamp setting self.old }
    {
        match setting {
            BoardSetting::Byte(field, value) => keep_in(
                &mut self.bytes[usize::from(field.index())],
                Written { stamp, value },
            ),
            BoardSetting::Flag(field, value) => keep_in(
                &mut self.flags[usize::from(field.index())],
                Written { stamp, value },
            ),
            BoardSetting::TimeLimit(value) => keep_in(
                &mut self.time_limit,
                Written { stamp, value },
            ),
            BoardSetting::Rank(value) => keep_in(&mut self.rank, Written { stamp, value }),
            BoardSetting::Exit(side, value) => keep_in(
                &mut self.exits[usize::from(side.index())],
                Written { stamp, value },
            ),
            BoardSetting::Text(field, value) => keep_in(
                &mut self.texts[usize::from(field.index())],
                Written { stamp, value },
            ),
        }
    }

    /// Gives all registers the values with which an edit makes the board, unless they have one with a stamp as late or later.
    /// The strings are taken out there.
    pub fn write_all(&mut self, alloc: Global, stamp: Stamp, made: &mut Properties)
        ensures { self.new ≡ write_properties stamp made.old self.old }
    {
        write_bytes(&mut self.bytes, stamp, &made.bytes);
        write_flags(&mut self.flags, stamp, &made.flags);
        keep_in(
            &mut self.time_limit,
            Written {
                stamp,
                value: made.time_limit,
            },
        );
        keep_in(
            &mut self.rank,
            Written {
                stamp,
                value: made.rank,
            },
        );
        write_exits(&mut self.exits, stamp, &made.exits);
        write_texts(alloc, &mut self.texts, stamp, &mut made.texts);
    }
}
