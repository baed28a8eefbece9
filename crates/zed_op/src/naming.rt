//! What an edit names.
ghost use Rattle.std.specs.Prelude.{◌≡◌, ◌++◌, Bool};
ghost use Rattle.std.specs.List.{list_all};
ghost use Rattle.std.specs.Option.{option_to_list};
ghost use Rattle.zed_types.specs.Names.{byte_of as byte_at};
ghost use Rattle.smallvec.specs.SmallVec.{HasRoomFor};
ghost use Rattle.zed_op.specs.declared.thing.Thing.{Thing as TheThing};
ghost use Rattle.zed_op.specs.Names.{TestsAs, target_named, header_names, board_names, stat_names, names_of, stamp_of};

use crate::op::{Edit, Op};
use crate::thing::Thing;
use smallvec::SmallVec;
use std::alloc::Global;
use zed_types::{
    BoardSetting, ByteRange, ElemId, HeaderSetting, Stamp, StatSetting, ThirdParameter,
};

impl Thing {
    /// The stamp of the edit that made the thing.
    pub fn stamp(&self) -> Stamp
        ensures { result ≡ stamp_of self.now }
    {
        match self {
            Thing::Board(board) => board.name.stamp,
            Thing::Stat(stat) => stat.name.stamp,
            Thing::Text(text) => text.name.stamp,
            Thing::Element(_, element) => element.name.stamp,
        }
    }
}

fn in_target(target: &ThirdParameter) -> Option<Thing>
    ensures { option_to_list result ≡ target_named target.now }
{
    match target {
        ThirdParameter::Byte(_) => None,
        ThirdParameter::Board(board) => Some(Thing::Board(*board)),
    }
}

fn in_header_setting(setting: &HeaderSetting) -> Option<Thing>
    ensures { option_to_list result ≡ header_names setting.now }
{
    match setting {
        HeaderSetting::CurrentBoard(board) => Some(Thing::Board(*board)),
        _ => None,
    }
}

fn in_board_setting(setting: &BoardSetting) -> Option<Thing>
    ensures { option_to_list result ≡ board_names setting.now }
{
    match setting {
        BoardSetting::Exit(_, Some(board)) => Some(Thing::Board(*board)),
        _ => None,
    }
}

fn in_stat_setting(setting: &StatSetting) -> Option<Thing>
    ensures { option_to_list result ≡ stat_names setting.now }
{
    match setting {
        StatSetting::P3(target) => in_target(target),
        StatSetting::Follower(Some(stat)) | StatSetting::Leader(Some(stat)) => {
            Some(Thing::Stat(*stat))
        }
        StatSetting::Text(Some(text)) => Some(Thing::Text(*text)),
        _ => None,
    }
}

fn byte_of(range: &ByteRange, index: u32) -> ElemId
    ensures { result ≡ byte_at range.now.stamp index }
{
    ElemId::new(range.stamp, index)
}

fn add(things: &mut SmallVec<Thing, 3>, thing: Option<Thing>)
    requires { HasRoomFor things.old 1 }
    ensures items { things.new.items ≡ things.old.items ++ option_to_list thing }
    ensures capacity { things.new.capacity ≡ things.old.capacity }
{
    if let Some(thing) = thing {
        things.push_reserved(thing);
    }
}

/// The things that an edit names, at most three, values of registers included; of a range of bytes
/// its ends. They are kept in the result itself, so this takes no memory.
pub fn names(alloc: Global, edit: &Edit) -> SmallVec<Thing, 3>
    ensures result { result.items ≡ names_of edit.now.op }
    ensures inline { result.capacity ≡ 3 }
{
    let mut things = SmallVec::new(alloc);
    match &edit.op {
        Op::Genesis(_) | Op::BoardAdd(_) | Op::TextAdd => {}
        Op::SetHeader(setting) => add(&mut things, in_header_setting(setting)),
        Op::BoardRemove(board) | Op::SetCells(board, _, _) => {
            things.push_reserved(Thing::Board(*board));
        }
        Op::SetBoard(board, setting) => {
            things.push_reserved(Thing::Board(*board));
            add(&mut things, in_board_setting(setting));
        }
        Op::StatAdd(board, fields) => {
            things.push_reserved(Thing::Board(*board));
            add(&mut things, in_target(&fields.p3));
            add(&mut things, fields.text.map(Thing::Text));
        }
        Op::StatRemove(stat) => things.push_reserved(Thing::Stat(*stat)),
        Op::SetStat(stat, setting) => {
            things.push_reserved(Thing::Stat(*stat));
            add(&mut things, in_stat_setting(setting));
        }
        Op::TextInsert(text, after, _) => {
            things.push_reserved(Thing::Text(*text));
            add(&mut things, after.map(|byte| Thing::Element(*text, byte)));
        }
        Op::TextDelete(text, range) => {
            things.push_reserved(Thing::Text(*text));
            things.push_reserved(Thing::Element(*text, byte_of(range, range.first)));
            things.push_reserved(Thing::Element(*text, byte_of(range, range.last)));
        }
    }
    things
}

/// Whether a thing passes a test, if there is one.
fn passes<F: Fn(Thing) -> bool>(test: &F, thing: Option<Thing>) -> bool
    requires { F.IsAlwaysCallable test.now }
    ensures { (good : TheThing → Bool)
        → TestsAs good (F.post test.now)
        → result ≡ list_all good (option_to_list thing) }
{
    match thing {
        Some(thing) => test(thing),
        None => true,
    }
}

/// Whether all things that an edit names pass a test, one after the other. Each edit that is read
/// is asked this, so no list is made for it.
pub fn all_named<F: Fn(Thing) -> bool>(op: &Op, test: F) -> bool
    requires { F.IsAlwaysCallable test }
    ensures { (good : TheThing → Bool)
        → TestsAs good (F.post test)
        → result ≡ list_all good (names_of op.now) }
{
    match op {
        Op::Genesis(_) | Op::BoardAdd(_) | Op::TextAdd => true,
        Op::SetHeader(setting) => passes(&test, in_header_setting(setting)),
        Op::BoardRemove(board) | Op::SetCells(board, _, _) => test(Thing::Board(*board)),
        Op::SetBoard(board, setting) => {
            test(Thing::Board(*board)) && passes(&test, in_board_setting(setting))
        }
        Op::StatAdd(board, fields) => {
            test(Thing::Board(*board))
                && passes(&test, in_target(&fields.p3))
                && passes(&test, fields.text.map(Thing::Text))
        }
        Op::StatRemove(stat) => test(Thing::Stat(*stat)),
        Op::SetStat(stat, setting) => {
            test(Thing::Stat(*stat)) && passes(&test, in_stat_setting(setting))
        }
        Op::TextInsert(text, after, _) => {
            test(Thing::Text(*text)) && passes(&test, after.map(|byte| Thing::Element(*text, byte)))
        }
        Op::TextDelete(text, range) => {
            test(Thing::Text(*text))
                && test(Thing::Element(*text, byte_of(range, range.first)))
                && test(Thing::Element(*text, byte_of(range, range.last)))
        }
    }
}
