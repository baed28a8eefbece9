//! A turn of a program.
ghost use Rattle.std.specs.Prelude.{◌≡◌, ◌≤◌, ◌-◌, length, ◌++◌, ◌∷◌, [], ℕ, List, OnOk, OnErr, IfOk, Some, Err, None, codes};
ghost use Rattle.zed_oop.specs.Turn.{CommandWants, Comes, DoesStep, HasTurn, InstructionWants, IsAstray, IsNearer, ReadingTakes, RunTakes, Runs, StepsTo, TurnTakes, TurnsTo, after, commanded, ends, finished, instructed, settled, state, stepped, to_place};
ghost use Rattle.zed_oop.specs.Acting.{with_position};
ghost use Rattle.zed_scene.specs.Trying.{try_move};

use crate::acting::{Next, set_position, skip_line};
use crate::leading::led;
use crate::performing::perform;
use std::alloc::{AllocError, Global};
use zed_oop_syntax::{Heading, Instruction, OopCommand, next_command, standing_at};
use zed_scene::{Scene, SceneError, Stat, Step, Words};
use zed_types::{Bytes, Place, Seq};

/// What is read next.
#[derive(Clone, Copy, PartialEq, Eq)]
pub enum Reading {
    Instructing,
    /// A command, of the instruction that began at a place.
    Commanding(usize),
}

/// How the turn goes on.
#[derive(Clone, Copy, PartialEq, Eq)]
pub enum After {
    Ends,
    Goes(Reading),
    /// The same, and a command word was read.
    Counts(Reading),
}

/// What a turn did, beside its changes of the board.
#[derive(Drop)]
pub struct Effects {
    /// Words of chance that were used.
    pub used: usize,
    /// Messages, in order.
    pub lines: Seq<Bytes>,
    /// The stat's number after the turn, or None if it was removed.
    pub number: Option<usize>,
}

/// Command words that a turn reads at most.
const COMMANDS: u8 = 33;

/// Ends a program with the message of an error.
fn fail(alloc: Global, scene: &mut Scene, lines: &mut Seq<Bytes>) -> Result<(), AllocError>
    ensures stops { OnOk result (scene.new ≡ with_position None scene.old) }
    ensures tells { OnOk result (lines.new ≡ lines.old ++ codes "ERR" ∷ []) }
{
    set_position(scene, None);
    let text = Bytes::from_slice(alloc, b"ERR")?;
    lines.push(text)?;
    Ok(())
}

/// Makes a step: the position is `next` if that was done, and `again` otherwise.
fn finish_step(scene: &mut Scene, from: Place, step: Step, again: usize, next: usize)
    ensures { (ws : List ℕ) → (ls : List (List ℕ))
        → stepped again next (try_move from step scene.old) (state scene.old ws ls)
        ≡ ends (state scene.new ws ls) }
{
    if scene.try_move(from, step) {
        set_position(scene, Some(next));
    } else {
        set_position(scene, Some(again));
    }
}

fn do_step(
    alloc: Global,
    scene: &mut Scene,
    stat: Stat,
    heading: &Heading,
    again: usize,
    next: usize,
    words: &mut Words,
    lines: &mut Seq<Bytes>,
) -> Result<(), SceneError>
    ensures result { DoesStep result heading.now stat again next
        (state scene.old words.old lines.old) (state scene.new words.new lines.new) }
    ensures memory_only_when { result ≡ Err SceneError.Memory
        → IsAstray heading.now stat (state scene.old words.old lines.old) }
{
    match led(scene, heading, stat, words) {
        Ok(Some(step)) => {
            finish_step(scene, stat.place, step, again, next);
            Ok(())
        }
        Ok(None) => {
            fail(alloc, scene, lines)?;
            Ok(())
        }
        Err(error) => Err(error),
    }
}

/// Goes on behind an instruction.
fn instruct(
    alloc: Global,
    scene: &mut Scene,
    stat: Stat,
    at: usize,
    instruction: Instruction,
    next: usize,
    words: &mut Words,
    lines: &mut Seq<Bytes>,
) -> Result<After, SceneError>
    ensures result { Comes result
        (instructed instruction at next stat (state scene.old words.old lines.old))
        (state scene.new words.new lines.new) }
    ensures memory_only_when { result ≡ Err SceneError.Memory
        → InstructionWants instruction stat (state scene.old words.old lines.old) }
{
    match instruction {
        Instruction::End => {
            set_position(scene, None);
            Ok(After::Ends)
        }
        Instruction::Skipped => {
            set_position(scene, Some(next));
            Ok(After::Goes(Reading::Instructing))
        }
        Instruction::Blank => {
            set_position(scene, Some(next));
            Ok(After::Goes(Reading::Instructing))
        }
        Instruction::Message(text) => {
            set_position(scene, Some(next));
            lines.push(text)?;
            Ok(After::Goes(Reading::Instructing))
        }
        Instruction::Command => {
            set_position(scene, Some(next));
            Ok(After::Goes(Reading::Commanding(at)))
        }
        Instruction::Step(heading) => {
            do_step(alloc, scene, stat, &heading, at, next, words, lines)?;
            Ok(After::Ends)
        }
        Instruction::Attempt(heading) => {
            do_step(alloc, scene, stat, &heading, next, next, words, lines)?;
            Ok(After::Ends)
        }
    }
}

/// Goes on behind a command.
fn settle(
    alloc: Global,
    scene: &mut Scene,
    start: usize,
    next: Next,
    lines: &mut Seq<Bytes>,
) -> Result<After, AllocError>
    ensures result { (ws : List ℕ) → IfOk result (λ a.
        settled start next (state scene.old ws lines.old)
        ≡ after a (state scene.new ws lines.new)) }
    ensures memory_only_when { OnErr result (next ≡ Next.Error) }
{
    match next {
        Next::Skip => {
            skip_line(scene);
            Ok(After::Counts(Reading::Instructing))
        }
        Next::Stay => Ok(After::Counts(Reading::Instructing)),
        Next::Command => Ok(After::Counts(Reading::Commanding(start))),
        Next::SkipAndEnd => {
            skip_line(scene);
            Ok(After::Ends)
        }
        Next::End => Ok(After::Ends),
        Next::Error => {
            fail(alloc, scene, lines)?;
            Ok(After::Ends)
        }
    }
}

/// Does a command, or goes on where there is none.
fn command_with(
    alloc: Global,
    scene: &mut Scene,
    stat: Stat,
    start: usize,
    command: Option<OopCommand>,
    next: usize,
    words: &mut Words,
    lines: &mut Seq<Bytes>,
) -> Result<After, SceneError>
    ensures result { Comes result
        (commanded command start next stat (state scene.old words.old lines.old))
        (state scene.new words.new lines.new) }
    ensures memory_only_when { result ≡ Err SceneError.Memory → CommandWants command start stat
        (to_place (Some next) (state scene.old words.old lines.old)) }
{
    set_position(scene, Some(next));
    match command {
        None => Ok(After::Goes(Reading::Instructing)),
        Some(command) => {
            let how = perform(scene, alloc, &command, start, stat, words)?;
            let after = settle(alloc, scene, start, how, lines)?;
            Ok(after)
        }
    }
}

/// One instruction, or one command.
fn one_step(
    alloc: Global,
    scene: &mut Scene,
    reading: Reading,
    words: &mut Words,
    lines: &mut Seq<Bytes>,
) -> Result<After, SceneError>
    ensures steps { StepsTo result reading
        (state scene.old words.old lines.old) (state scene.new words.new lines.new) }
    ensures nearer { IfOk result (λ a. IsNearer a reading scene.old scene.new) }
    ensures memory_only_when { result ≡ Err SceneError.Memory
        → ReadingTakes reading (state scene.old words.old lines.old) }
{
    let stat = match scene.running_stat_ref() {
        Some(stat) => stat,
        None => return Ok(After::Ends),
    };
    let at = match stat.position {
        Some(at) => at,
        None => return Ok(After::Ends),
    };
    match reading {
        Reading::Instructing => {
            let (instruction, next) = standing_at(alloc, scene.program(stat.program), at)?;
            let own = *stat;
            instruct(alloc, scene, own, at, instruction, next, words, lines)
        }
        Reading::Commanding(start) => {
            let (command, next) = next_command(alloc, scene.program(stat.program), at)?;
            let own = *stat;
            command_with(alloc, scene, own, start, command, next, words, lines)
        }
    }
}

/// Steps up to the next command word: what is read behind it, or None where the turn ended.
fn run_on(
    alloc: Global,
    scene: &mut Scene,
    reading: Reading,
    words: &mut Words,
    lines: &mut Seq<Bytes>,
) -> Result<Option<Reading>, SceneError>
    ensures result { Runs result reading
        (state scene.old words.old lines.old) (state scene.new words.new lines.new) }
    ensures takes { RunTakes result reading
        (state scene.old words.old lines.old) (state scene.new words.new lines.new) }
{
    let mut next = reading;
    loop {
        match one_step(alloc, scene, next, words, lines) {
            Ok(after) => match after {
                After::Ends => return Ok(None),
                After::Counts(reading) => return Ok(Some(reading)),
                After::Goes(reading) => next = reading,
            },
            Err(error) => return Err(error),
        }
    }
}

/// Skips the rest of the line in place of a command that may not be read any more.
fn finish(scene: &mut Scene, reading: Reading)
    ensures { (ws : List ℕ) (ls : List (List ℕ))
        → state scene.new ws ls ≡ finished reading (state scene.old ws ls) }
{
    if let Reading::Commanding(_) = reading {
        skip_line(scene);
    }
}

/// What a turn did, beside its changes of the board.
fn told(scene: &Scene, left: &Words, lines: Seq<Bytes>, words: &[u16]) -> Effects
    ensures used { result.used ≡ length words.now - length left.now }
    ensures lines { result.lines ≡ lines }
    ensures number { result.number ≡ scene.now.running }
{
    Effects {
        used: words.len().saturating_sub(left.left()),
        lines,
        number: scene.running(),
    }
}

/// One turn of the program of a stat. It takes from the caller's words of chance, and answers the
/// messages, in order. If the words run out or memory is refused, the board is left in the middle
/// of the turn.
pub fn have_turn(
    alloc: Global,
    scene: &mut Scene,
    stat: usize,
    words: &mut Words,
) -> Result<Seq<Bytes>, SceneError>
    ensures result { HasTurn result scene.old stat words.old scene.new words.new }
    ensures memory_only_when { result ≡ Err SceneError.Memory
        → TurnTakes scene.old stat words.old }
{
    scene.set_running(stat);
    let mut lines = Seq::new(alloc);
    let mut reading = Reading::Instructing;
    let mut commands = COMMANDS;
    while commands > 0 {
        commands -= 1;
        match run_on(alloc, scene, reading, words, &mut lines) {
            Ok(next) => match next {
                Some(next) => reading = next,
                None => return Ok(lines),
            },
            Err(error) => return Err(error),
        }
    }
    finish(scene, reading);
    Ok(lines)
}

/// One turn of the program of a stat, with these words of chance. If the words run out or memory is
/// refused, the board is left in the middle of the turn.
pub fn turn(
    alloc: Global,
    scene: &mut Scene,
    stat: usize,
    words: &[u16],
) -> Result<Effects, SceneError>
    ensures result { TurnsTo result scene.old stat words.now scene.new }
    ensures memory_only_when { result ≡ Err SceneError.Memory
        → TurnTakes scene.old stat words.now }
{
    let mut left = Words::new(words);
    let lines = have_turn(alloc, scene, stat, &mut left)?;
    Ok(told(scene, &left, lines, words))
}
