//! What a stat's program does to the board.
ghost use Rattle.std.specs.Prelude.{◌≡◌};
ghost use Rattle.zed_oop.specs.Acting.{with_position, skip_line, with_cycle, with_p1, with_p2, with_step};

use zed_oop_syntax::line_after;
use zed_scene::{Scene, Step};

/// How the turn goes on after an instruction.
#[derive(Clone, Copy, PartialEq, Eq)]
pub enum Next {
    /// The rest of the line is skipped.
    Skip,
    /// With the instruction at its position.
    Stay,
    /// With the command at its position.
    Command,
    /// The rest of the line is skipped, and the turn ends.
    SkipAndEnd,
    /// The turn ends at its position.
    End,
    /// The turn ends with a message of an error, and the program with it.
    Error,
}

/// Sets the position of the stat whose turn it is.
pub(crate) fn set_position(scene: &mut Scene, position: Option<usize>)
    ensures { scene.new ≡ with_position position scene.old }
{
    scene.set_running_position(position);
}

pub(crate) fn set_p1(scene: &mut Scene, p1: u8)
    ensures { scene.new ≡ with_p1 p1 scene.old }
{
    if let Some(stat) = scene.running_stat() {
        let mut changed = stat;
        changed.p1 = p1;
        scene.put_running_stat(changed);
    }
}

pub(crate) fn set_p2(scene: &mut Scene, p2: u8)
    ensures { scene.new ≡ with_p2 p2 scene.old }
{
    if let Some(stat) = scene.running_stat() {
        let mut changed = stat;
        changed.p2 = p2;
        scene.put_running_stat(changed);
    }
}

pub(crate) fn set_cycle(scene: &mut Scene, cycle: u16)
    ensures { scene.new ≡ with_cycle cycle scene.old }
{
    if let Some(stat) = scene.running_stat() {
        let mut changed = stat;
        changed.cycle = cycle;
        scene.put_running_stat(changed);
    }
}

pub(crate) fn set_step(scene: &mut Scene, step: Step)
    ensures { scene.new ≡ with_step step scene.old }
{
    if let Some(stat) = scene.running_stat() {
        let mut changed = stat;
        changed.step = step;
        scene.put_running_stat(changed);
    }
}

#[tactic(auto, unfolding(crate::specs::Acting::skip_line))]
/// Skips the rest of the line in which the program of the stat with the turn is.
pub(crate) fn skip_line(scene: &mut Scene)
    ensures { scene.new ≡ skip_line scene.old }
{
    if let Some(stat) = scene.running_stat_ref() {
        if let Some(at) = stat.position {
            let next = line_after(scene.program(stat.program), at);
            set_position(scene, Some(next));
        }
    }
}
