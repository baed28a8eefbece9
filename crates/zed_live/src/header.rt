//! The header, each of whose registers keeps its latest write.

ghost use Rattle.std.specs.Prelude.{◌≡◌, length, true, OnOk, OnErr};
ghost use Rattle.zed_types.specs.Strings.{header_has_string};
ghost use Rattle.zed_live.specs.Header.{unwritten, write_header, write_each as each_written, write_all as all_written};

use std::alloc::{AllocError, Global};
use std::mem::replace;
use zed_cells::keep_in;
use zed_edit::Header;
use zed_types::{BoardId, Bytes, HeaderSetting, Stamp, Written};

/// The header registers, each with its latest write, if it was ever written.
#[derive(Drop)]
pub struct LiveHeader {
    /// By `HeaderNumber::index`.
    pub numbers: [Option<Written<i16>>; 9],
    /// By `KeyColour::index`.
    pub keys: [Option<Written<bool>>; 7],
    pub saved: Option<Written<bool>>,
    pub current_board: Option<Written<BoardId>>,
    pub world_name: Option<Written<Bytes>>,
    /// By `FlagSlot::index`.
    pub flags: [Option<Written<Bytes>>; 10],
}

/// Gives each register of a table the value at its place, unless it has one with a stamp as late or later.
pub(crate) fn write_each<V: Copy>(slots: &mut [Option<Written<V>>], stamp: Stamp, values: &[V])
    requires { length values.now ≡ length slots.old }
    ensures { slots.new ≡ each_written stamp values.now slots.old }
{
    for i in 0..values.len() {
        keep_in(
            &mut slots[i],
            Written {
                stamp,
                value: values[i],
            },
        );
    }
}

fn write_numbers(slots: &mut [Option<Written<i16>>; 9], stamp: Stamp, values: &[i16; 9])
    ensures { slots.new ≡ each_written stamp values.now slots.old }
{
    write_each(slots, stamp, values);
}

fn write_keys(slots: &mut [Option<Written<bool>>; 7], stamp: Stamp, values: &[bool; 7])
    ensures { slots.new ≡ each_written stamp values.now slots.old }
{
    write_each(slots, stamp, values);
}

/// Takes a string out of its place.
pub(crate) fn taken_out(alloc: Global, place: &mut Bytes) -> Bytes
    ensures { result ≡ place.old }
{
    replace(place, Bytes::new(Vec::new(alloc)))
}

/// Gives each flag the string at its place, which it takes out there, unless it has one with a stamp as late or later.
fn write_flags(
    alloc: Global,
    slots: &mut [Option<Written<Bytes>>; 10],
    stamp: Stamp,
    values: &mut [Bytes; 10],
)
    ensures { slots.new ≡ each_written stamp values.old slots.old }
{
    for i in 0..10 {
        let value = taken_out(alloc, &mut values[i]);
        keep_in(&mut slots[i], Written { stamp, value });
    }
}

impl LiveHeader {
    /// A header of which no register was ever written. It takes no memory.
    pub fn new() -> LiveHeader
        ensures { result ≡ unwritten }
    {
        LiveHeader {
            numbers: [None, None, None, None, None, None, None, None, None],
            keys: [None, None, None, None, None, None, None],
            saved: None,
            current_board: None,
            world_name: None,
            flags: [None, None, None, None, None, None, None, None, None, None],
        }
    }

    /// Gives the register of a setting its value, unless it has one with a stamp as late or later. Memory leaves the header as
    /// it was.
    pub fn write(&mut self, stamp: Stamp, setting: &HeaderSetting) -> Result<(), AllocError>
        ensures ok { OnOk result (self.new ≡ write_header stamp setting.now self.old) }
        ensures kept { OnErr result (self.new ≡ self.old) }
        ensures memory_only_when { OnErr result (header_has_string setting.now ≡ true) }
    {
        self.put(stamp, setting.copy()?);
        Ok(())
    }

    fn put(&mut self, stamp: Stamp, setting: HeaderSetting)
        ensures { self.new ≡ write_header stamp setting self.old }
    {
        match setting {
            HeaderSetting::Number(field, value) => keep_in(
                &mut self.numbers[usize::from(field.index())],
                Written { stamp, value },
            ),
            HeaderSetting::Key(key, value) => keep_in(
                &mut self.keys[usize::from(key.index())],
                Written { stamp, value },
            ),
            HeaderSetting::Saved(value) => keep_in(&mut self.saved, Written { stamp, value }),
            HeaderSetting::CurrentBoard(value) => keep_in(
                &mut self.current_board,
                Written { stamp, value },
            ),
            HeaderSetting::WorldName(value) => keep_in(
                &mut self.world_name,
                Written { stamp, value },
            ),
            HeaderSetting::Flag(slot, value) => keep_in(
                &mut self.flags[usize::from(slot.index())],
                Written { stamp, value },
            ),
        }
    }

    /// Gives all registers the values of another header, whose strings it takes out, unless they have one with a stamp as late
    /// or later.
    pub(crate) fn write_all(&mut self, alloc: Global, stamp: Stamp, header: &mut Header)
        ensures { self.new ≡ all_written stamp header.old self.old }
    {
        write_numbers(&mut self.numbers, stamp, &header.numbers);
        write_keys(&mut self.keys, stamp, &header.keys);
        keep_in(
            &mut self.saved,
            Written {
                stamp,
                value: header.saved,
            },
        );
        keep_in(
            &mut self.current_board,
            Written {
                stamp,
                value: header.current_board,
            },
        );
        let world_name = taken_out(alloc, &mut header.world_name);
        keep_in(
            &mut self.world_name,
            Written {
                stamp,
                value: world_name,
            },
        );
        write_flags(alloc, &mut self.flags, stamp, &mut header.flags);
    }
}
