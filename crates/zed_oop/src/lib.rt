//! Programs of objects, running: what each command does, and a turn.
#![tactic(auto)]

mod acting;
mod choosing;
mod holding;
mod laws;
mod leading;
mod making;
mod performing;
mod programs;
mod sending;
mod testing;
mod turning;

pub use choosing::{Chosen, choose};
pub use holding::{give, take};
pub use laws::{first_words_are_used, idle_turns_take_no_memory, one_turn};
pub use leading::led;
pub use sending::send_alone;
pub use testing::holds;
pub use turning::{Effects, have_turn, turn};
pub use zed_oop_syntax::{
    Counter, Course, Heading, Instruction, Line, LineKind, OopCommand, Program, Query, Test,
    TileKind, Turning, condition, direction, kind, name_of, next_command, standing_at,
};
pub use zed_scene::{
    BREAKABLE, BULLET, Counters, PLAYER, Scene, SceneError, Scroll, Shooter, Stat, Step, WATER,
    Words, ahead, apart, clockwise, counter_clockwise, is_destructible, is_on_board, is_walkable,
    opposite, random_step, sign, tile_in,
};
