//! Registers of the world that are overridden.
ghost use Rattle.std.specs.Prelude.{◌≡◌, ◌++◌, OnOk, Some, filter_map, nat_eq};
ghost use Rattle.std.specs.Bool.{beq};
ghost use Rattle.std.specs.Cmp.Lexicographic.{pointwise};
ghost use Rattle.std.specs.Ordering.{int_eq};
ghost use Rattle.zed_laws.specs.Fields as fields;
ghost use Rattle.zed_laws.specs.Winners.{of_header};
ghost use Rattle.zed_join.specs.Targets.{same_target, target};
ghost use Rattle.zed_compare.specs.Reading.{in_readings, in_register};
ghost use Rattle.zed_compare.specs.Findings.{of_registers, world_finding, world_findings};
ghost use Rattle.zed_compare.specs.Registers.{of_world};

use crate::finding::Finding;
use crate::registers::{WORLD_REGISTERS, WorldRegister};
use std::alloc::AllocError;
use zed_document::View;
use zed_join::{Target, Views};
use zed_sides::{Overridden, Readings};
use zed_types::{FlagSlot, HeaderNumber, KeyColour};

fn number(views: &Views<'_>, field: HeaderNumber) -> Option<Overridden>
    ensures { result ≡ in_register int_eq (of_header (fields.header_number field)) views.now }
{
    Readings {
        base: views.base.header().number(field),
        mine: views.mine.header().number(field),
        theirs: views.theirs.header().number(field),
        union: views.union.header().number(field),
    }
    .overridden()
}

fn key(views: &Views<'_>, colour: KeyColour) -> Option<Overridden>
    ensures { result ≡ in_register beq (of_header (fields.key colour)) views.now }
{
    Readings {
        base: views.base.header().key(colour),
        mine: views.mine.header().key(colour),
        theirs: views.theirs.header().key(colour),
        union: views.union.header().key(colour),
    }
    .overridden()
}

fn saved(views: &Views<'_>) -> Option<Overridden>
    ensures { result ≡ in_register beq (of_header fields.saved) views.now }
{
    Readings {
        base: views.base.header().saved(),
        mine: views.mine.header().saved(),
        theirs: views.theirs.header().saved(),
        union: views.union.header().saved(),
    }
    .overridden()
}

fn start(view: &View) -> Target
    ensures { result ≡ target view.now (Some view.now.header.current_board) }
{
    Target::of(view, Some(view.header().current_board()))
}

fn start_board(views: &Views<'_>) -> Option<Overridden>
    ensures { result ≡ in_readings same_target
        (λ p. target p (Some p.header.current_board)) views.now }
{
    Readings {
        base: start(&views.base),
        mine: start(&views.mine),
        theirs: start(&views.theirs),
        union: start(&views.union),
    }
    .overridden()
}

fn name(views: &Views<'_>) -> Option<Overridden>
    ensures { result ≡ in_register (pointwise nat_eq) (of_header fields.world_name) views.now }
{
    Readings {
        base: views.base.header().world_name(),
        mine: views.mine.header().world_name(),
        theirs: views.theirs.header().world_name(),
        union: views.union.header().world_name(),
    }
    .overridden()
}

fn flag(views: &Views<'_>, slot: FlagSlot) -> Option<Overridden>
    ensures { result ≡ in_register (pointwise nat_eq) (of_header (fields.flag slot)) views.now }
{
    Readings {
        base: views.base.header().flag(slot),
        mine: views.mine.header().flag(slot),
        theirs: views.theirs.header().flag(slot),
        union: views.union.header().flag(slot),
    }
    .overridden()
}

/// What is overridden of a register of the world.
pub(crate) fn overridden_in_world(views: &Views<'_>, register: WorldRegister) -> Option<Overridden>
    ensures { result ≡ of_world views.now register }
{
    match register {
        WorldRegister::Number(field) => number(views, field),
        WorldRegister::Key(colour) => key(views, colour),
        WorldRegister::Saved => saved(views),
        WorldRegister::StartBoard => start_board(views),
        WorldRegister::Name => name(views),
        WorldRegister::Flag(slot) => flag(views, slot),
    }
}

// Appends those of some registers of the world that are overridden.
fn find_registers(
    found: &mut Vec<Finding>,
    views: &Views<'_>,
    registers: &[WorldRegister],
) -> Result<(), AllocError>
    ensures { OnOk result (found.new.items
        ≡ found.old.items ++ filter_map (world_finding views.now) registers.now) }
{
    for register in registers {
        if let Some(overridden) = overridden_in_world(views, *register) {
            found.push(Finding::World(*register, overridden))?;
        }
    }
    Ok(())
}

/// Appends the registers of the world that are overridden.
pub(crate) fn find_in_world(found: &mut Vec<Finding>, views: &Views<'_>) -> Result<(), AllocError>
    ensures all { OnOk result (found.new.items ≡ found.old.items ++ world_findings views.now) }
    ensures registers { OnOk result
        (of_registers found.new.items ≡ of_registers found.old.items ++ world_findings views.now) }
{
    find_registers(found, views, &WORLD_REGISTERS)
}
