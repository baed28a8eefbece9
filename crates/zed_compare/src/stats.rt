//! Fields of stats that are overridden.
ghost use Rattle.std.specs.Prelude.{◌≡◌, ◌++◌, OnOk, filter_map, nat_eq, option_map};
ghost use Rattle.std.specs.Option.{option_copied};
ghost use Rattle.std.specs.Ordering.{int_eq};
ghost use Rattle.zed_types.specs.declared.names.BoardId.{BoardId as TheBoard};
ghost use Rattle.zed_types.specs.declared.names.StatId.{StatId as TheStat};
ghost use Rattle.zed_laws.specs.Fields as fields;
ghost use Rattle.zed_live.specs.Stat.{shown_stat};
ghost use Rattle.zed_join.specs.declared.sides.Views.{Views as TheViews};
ghost use Rattle.zed_compare.specs.Findings.{of_registers, stat_finding, stat_findings};
ghost use Rattle.zed_compare.specs.Registers.{in_field, of_that_stat, place_of as place_shown, step_of as step_shown, third_of as third_shown, under_of as under_shown};
ghost use Rattle.zed_join.specs.Things.{IsStat, shown_stat_as};

use crate::finding::Finding;
use crate::registers::{FIELDS, StatRegister};
use std::alloc::AllocError;
use zed_document::View;
use zed_join::{StatIn, Target, Views};
use zed_sides::{Overridden, Readings};
use zed_stats::LiveStat;
use zed_types::{Place, StatByte, StatId, StatNumber, ThirdParameter, Tile};

/// How far a stat steps to the side and down.
#[derive(Clone, Copy, PartialEq, Eq)]
pub struct Step {
    pub x: i16,
    pub y: i16,
}

/// The third parameter of a stat: a byte, or a board.
#[derive(Clone, Copy, PartialEq, Eq)]
pub enum Third {
    Byte(u8),
    Board(Target),
}

/// Where a stat stands.
pub fn place_of(stat: &LiveStat) -> Place
    ensures { (x : TheStat) → result ≡ place_shown (shown_stat x stat.now) }
{
    Place {
        x: stat.values.byte(StatByte::X),
        y: stat.values.byte(StatByte::Y),
    }
}

/// How far a stat steps.
pub fn step_of(stat: &LiveStat) -> Step
    ensures { (x : TheStat) → result ≡ step_shown (shown_stat x stat.now) }
{
    Step {
        x: stat.values.number(StatNumber::StepX),
        y: stat.values.number(StatNumber::StepY),
    }
}

/// The tile under a stat.
pub fn under_of(stat: &LiveStat) -> Tile
    ensures { (x : TheStat) → result ≡ under_shown (shown_stat x stat.now) }
{
    Tile {
        element: stat.values.byte(StatByte::UnderElement),
        colour: stat.values.byte(StatByte::UnderColour),
    }
}

/// The third parameter of a stat, as a view shows it.
pub fn third_of(view: &View, stat: &LiveStat) -> Third
    ensures { result ≡ third_shown view.now stat.now.values.fields.p3 }
{
    match stat.values.fields.p3 {
        ThirdParameter::Byte(byte) => Third::Byte(byte),
        ThirdParameter::Board(board) => Third::Board(Target::of(view, Some(board))),
    }
}

fn place_in(stat: Option<&LiveStat>) -> Option<Place>
    ensures { (x : TheStat) → result
        ≡ option_map place_shown (shown_stat_as x (option_copied stat.entry)) }
{
    match stat {
        Some(stat) => Some(place_of(stat)),
        None => None,
    }
}

fn in_place(stat: &StatIn<'_>) -> Option<Overridden>
    ensures { (w : TheViews) (b : TheBoard) (x : TheStat) → IsStat w b x stat.now
        → result ≡ of_that_stat w b x StatRegister.Place }
{
    Readings {
        base: place_in(stat.base),
        mine: place_in(stat.mine),
        theirs: place_in(stat.theirs),
        union: place_in(stat.union),
    }
    .overridden()
}

fn step_in(stat: Option<&LiveStat>) -> Option<Step>
    ensures { (x : TheStat) → result
        ≡ option_map step_shown (shown_stat_as x (option_copied stat.entry)) }
{
    match stat {
        Some(stat) => Some(step_of(stat)),
        None => None,
    }
}

fn in_step(stat: &StatIn<'_>) -> Option<Overridden>
    ensures { (w : TheViews) (b : TheBoard) (x : TheStat) → IsStat w b x stat.now
        → result ≡ of_that_stat w b x StatRegister.Step }
{
    Readings {
        base: step_in(stat.base),
        mine: step_in(stat.mine),
        theirs: step_in(stat.theirs),
        union: step_in(stat.union),
    }
    .overridden()
}

fn under_in(stat: Option<&LiveStat>) -> Option<Tile>
    ensures { (x : TheStat) → result
        ≡ option_map under_shown (shown_stat_as x (option_copied stat.entry)) }
{
    match stat {
        Some(stat) => Some(under_of(stat)),
        None => None,
    }
}

fn in_under(stat: &StatIn<'_>) -> Option<Overridden>
    ensures { (w : TheViews) (b : TheBoard) (x : TheStat) → IsStat w b x stat.now
        → result ≡ of_that_stat w b x StatRegister.Under }
{
    Readings {
        base: under_in(stat.base),
        mine: under_in(stat.mine),
        theirs: under_in(stat.theirs),
        union: under_in(stat.union),
    }
    .overridden()
}

fn number_in(stat: Option<&LiveStat>, field: StatNumber) -> Option<i16>
    ensures { (x : TheStat) → result
        ≡ option_map (fields.stat_number field).value (shown_stat_as x (option_copied stat.entry)) }
{
    match stat {
        Some(stat) => Some(stat.values.number(field)),
        None => None,
    }
}

fn in_number(stat: &StatIn<'_>, field: StatNumber) -> Option<Overridden>
    ensures { (w : TheViews) (b : TheBoard) (x : TheStat) → IsStat w b x stat.now
        → result ≡ in_field int_eq (fields.stat_number field) w b x }
{
    Readings {
        base: number_in(stat.base, field),
        mine: number_in(stat.mine, field),
        theirs: number_in(stat.theirs, field),
        union: number_in(stat.union, field),
    }
    .overridden()
}

fn byte_in(stat: Option<&LiveStat>, field: StatByte) -> Option<u8>
    ensures { (x : TheStat) → result
        ≡ option_map (fields.stat_byte field).value (shown_stat_as x (option_copied stat.entry)) }
{
    match stat {
        Some(stat) => Some(stat.values.byte(field)),
        None => None,
    }
}

fn in_byte(stat: &StatIn<'_>, field: StatByte) -> Option<Overridden>
    ensures { (w : TheViews) (b : TheBoard) (x : TheStat) → IsStat w b x stat.now
        → result ≡ in_field nat_eq (fields.stat_byte field) w b x }
{
    Readings {
        base: byte_in(stat.base, field),
        mine: byte_in(stat.mine, field),
        theirs: byte_in(stat.theirs, field),
        union: byte_in(stat.union, field),
    }
    .overridden()
}

fn follower_in(stat: Option<&LiveStat>) -> Option<Option<StatId>>
    ensures { (x : TheStat) → result
        ≡ option_map fields.follower.value (shown_stat_as x (option_copied stat.entry)) }
{
    match stat {
        Some(stat) => Some(stat.values.follower),
        None => None,
    }
}

fn in_follower(stat: &StatIn<'_>) -> Option<Overridden>
    ensures { (w : TheViews) (b : TheBoard) (x : TheStat) → IsStat w b x stat.now
        → result ≡ of_that_stat w b x StatRegister.Follower }
{
    Readings {
        base: follower_in(stat.base),
        mine: follower_in(stat.mine),
        theirs: follower_in(stat.theirs),
        union: follower_in(stat.union),
    }
    .overridden()
}

fn leader_in(stat: Option<&LiveStat>) -> Option<Option<StatId>>
    ensures { (x : TheStat) → result
        ≡ option_map fields.leader.value (shown_stat_as x (option_copied stat.entry)) }
{
    match stat {
        Some(stat) => Some(stat.values.leader),
        None => None,
    }
}

fn in_leader(stat: &StatIn<'_>) -> Option<Overridden>
    ensures { (w : TheViews) (b : TheBoard) (x : TheStat) → IsStat w b x stat.now
        → result ≡ of_that_stat w b x StatRegister.Leader }
{
    Readings {
        base: leader_in(stat.base),
        mine: leader_in(stat.mine),
        theirs: leader_in(stat.theirs),
        union: leader_in(stat.union),
    }
    .overridden()
}

fn third_in(view: &View, stat: Option<&LiveStat>) -> Option<Third>
    ensures { (x : TheStat) → result
        ≡ option_map (λ s. third_shown view.now s.fields.p3) (shown_stat_as x (option_copied stat.entry)) }
{
    match stat {
        Some(stat) => Some(third_of(view, stat)),
        None => None,
    }
}

fn in_third(views: &Views<'_>, stat: &StatIn<'_>) -> Option<Overridden>
    ensures { (b : TheBoard) (x : TheStat) → IsStat views.now b x stat.now
        → result ≡ of_that_stat views.now b x StatRegister.P3 }
{
    Readings {
        base: third_in(&views.base, stat.base),
        mine: third_in(&views.mine, stat.mine),
        theirs: third_in(&views.theirs, stat.theirs),
        union: third_in(&views.union, stat.union),
    }
    .overridden()
}

// What is overridden of a register of a stat.
fn overridden_of_stat(
    views: &Views<'_>,
    stat: &StatIn<'_>,
    register: StatRegister,
) -> Option<Overridden>
    ensures { (b : TheBoard) (x : TheStat) → IsStat views.now b x stat.now
        → result ≡ of_that_stat views.now b x register }
{
    match register {
        StatRegister::Place => in_place(stat),
        StatRegister::Step => in_step(stat),
        StatRegister::Under => in_under(stat),
        StatRegister::Cycle => in_number(stat, StatNumber::Cycle),
        StatRegister::Position => in_number(stat, StatNumber::Position),
        StatRegister::P1 => in_byte(stat, StatByte::P1),
        StatRegister::P2 => in_byte(stat, StatByte::P2),
        StatRegister::Follower => in_follower(stat),
        StatRegister::Leader => in_leader(stat),
        StatRegister::P3 => in_third(views, stat),
    }
}

// Appends those of some registers of a stat that are overridden.
fn find_registers(
    found: &mut Vec<Finding>,
    views: &Views<'_>,
    id: StatId,
    stat: &StatIn<'_>,
    registers: &[StatRegister],
) -> Result<(), AllocError>
    ensures { OnOk result ((b : TheBoard) → IsStat views.now b id stat.now → found.new.items
        ≡ found.old.items ++ filter_map (stat_finding views.now b id) registers.now) }
{
    for register in registers {
        if let Some(overridden) = overridden_of_stat(views, stat, *register) {
            found.push(Finding::Stat(id, *register, overridden))?;
        }
    }
    Ok(())
}

/// Appends the fields of a stat that are overridden.
pub(crate) fn find_fields(
    found: &mut Vec<Finding>,
    views: &Views<'_>,
    id: StatId,
    stat: &StatIn<'_>,
) -> Result<(), AllocError>
    ensures all { OnOk result ((b : TheBoard) → IsStat views.now b id stat.now
        → found.new.items ≡ found.old.items ++ stat_findings views.now b id) }
    ensures registers { OnOk result ((b : TheBoard) → IsStat views.now b id stat.now
        → of_registers found.new.items
        ≡ of_registers found.old.items ++ stat_findings views.now b id) }
{
    find_registers(found, views, id, stat, &FIELDS)
}
