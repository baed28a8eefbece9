//! Findings about the lines of programs.
ghost use Rattle.std.specs.Prelude.{◌≡◌, ◌<◌, ◌++◌, OnErr, OnOk, length};
ghost use Rattle.zed_lint.specs.Program.{command_findings, line_findings, lines_findings, place_findings};

use crate::commands::note_commands;
use crate::finding::{Finding, Spot};
use crate::labels::{begins_commands, starts_line};
use crate::noting::note;
use crate::said::{long_line, low_name, vain_choice};
use std::alloc::AllocError;
use zed_types::Bytes;
use zed_world::StatData;

// Notes what is wrong in the line at a place, if it begins with a command or a step.
fn note_command(
    found: &mut Vec<Finding>,
    spot: Spot,
    stats: &[StatData],
    held: &[Bytes],
    set: &[Bytes],
    program: &[u8],
    at: usize,
) -> Result<(), AllocError>
    ensures { OnOk result (found.new.items ≡ found.old.items
        ++ command_findings spot stats.now held.now set.now program.now at) }
{
    if begins_commands(program, at) {
        note_commands(found, spot, stats, held, set, program, at)
    } else {
        Ok(())
    }
}

// Notes what is found of the line that begins at a place.
#[tactic(auto, unfolding(crate::specs::Program::line_findings))]
fn note_line(
    found: &mut Vec<Finding>,
    spot: Spot,
    stats: &[StatData],
    held: &[Bytes],
    set: &[Bytes],
    program: &[u8],
    at: usize,
) -> Result<(), AllocError>
    ensures { OnOk result (found.new.items ≡ found.old.items
        ++ line_findings spot stats.now held.now set.now program.now at) }
{
    let choice = vain_choice(*found.allocator(), stats, program, at)?;
    note(found, spot, choice)?;
    note(found, spot, low_name(program, at))?;
    note(found, spot, long_line(program, at))?;
    note_command(found, spot, stats, held, set, program, at)
}

fn note_place(
    found: &mut Vec<Finding>,
    spot: Spot,
    stats: &[StatData],
    held: &[Bytes],
    set: &[Bytes],
    program: &[u8],
    at: usize,
    byte: u8,
) -> Result<(), AllocError>
    ensures { OnOk result (found.new.items ≡ found.old.items
        ++ place_findings spot stats.now held.now set.now program.now at byte) }
{
    if starts_line(program, at) {
        note_line(found, spot, stats, held, set, program, at)
    } else {
        Ok(())
    }
}

/// Notes the findings about the lines of a program.
pub(crate) fn note_lines(
    found: &mut Vec<Finding>,
    spot: Spot,
    stats: &[StatData],
    held: &[Bytes],
    set: &[Bytes],
    program: &[u8],
) -> Result<(), AllocError>
    ensures ok { OnOk result (found.new.items ≡ found.old.items
        ++ lines_findings spot stats.now held.now set.now program.now) }
    ensures memory_only_when { OnErr result (0 < length program.now) }
{
    for (at, byte) in program.iter().enumerate() {
        note_place(found, spot, stats, held, set, program, at, *byte)?;
    }
    Ok(())
}
