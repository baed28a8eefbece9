//! Commands as a program writes them.
ghost use Rattle.std.specs.Prelude.{◌≡◌, ◌≤◌, IfOk, OnErr, Some, length, max};
ghost use Rattle.zed_oop_syntax.specs.Command.{AimAt, AmountAt, BehindTakes, CommandAt, CommandBehind, CommandTakes, ExchangeAt, counter_of};
ghost use Rattle.zed_oop_syntax.specs.Heading.{DirectionTakes};
ghost use Rattle.zed_oop_syntax.specs.Text.{upper};
ghost use Rattle.zed_oop_syntax.specs.Verbs.{DoingTakes, IsBare, IsDoing, IsNaming, NamingTakes, NextWord, bare_word, doing_word, naming_word};

use crate::conditions::{Query, condition};
use crate::heading::{Heading, direction};
use crate::kinds::{TileKind, kind};
use crate::text::{says, upper, value_at, value_end, word_at, written_at};
use std::alloc::{AllocError, Global};
use zed_types::Bytes;

/// A number that programs give and take.
#[derive(Clone, Copy, PartialEq, Eq)]
pub enum Counter {
    Health,
    Ammo,
    Gems,
    Torches,
    Score,
    Time,
}

/// A command as a program writes it. None means a counter or a kind that doesn't exist.
#[derive(Drop)]
pub enum OopCommand {
    Go(Heading),
    Try(Heading),
    Walk(Heading),
    Shoot(Heading),
    Set(Bytes),
    Clear(Bytes),
    If(Query),
    Give(Option<Counter>, u16),
    Take(Option<Counter>, u16),
    End,
    EndGame,
    Idle,
    Restart,
    Send(Bytes),
    Zap(Bytes),
    Restore(Bytes),
    Lock,
    Unlock,
    Become(Option<TileKind>),
    Die,
    Put(Heading, Option<TileKind>),
    Change(Option<TileKind>, Option<TileKind>),
    Cycle(u16),
    Char(u16),
    Bind(Bytes),
    /// PLAY and THROWSTAR, which do nothing here.
    Nothing,
    /// Any other word: a message to that label.
    Other(Bytes),
}

/// A command that does, asks or counts something.
#[derive(Clone, Copy)]
enum Doing {
    Go,
    Try,
    Walk,
    Shoot,
    Put,
    If,
    Give,
    Take,
    Cycle,
    Char,
}

/// The command that does, asks or counts something which a word is, if it is one.
#[tactic(auto, unfolding(crate::specs::Command::is_deed))]
fn doing_of(word: &[u8]) -> Option<Doing>
    ensures { IsDoing (upper word.now) result }
{
    if says(word, "GO") {
        Some(Doing::Go)
    } else if says(word, "TRY") {
        Some(Doing::Try)
    } else if says(word, "WALK") {
        Some(Doing::Walk)
    } else if says(word, "SHOOT") {
        Some(Doing::Shoot)
    } else if says(word, "PUT") {
        Some(Doing::Put)
    } else if says(word, "IF") {
        Some(Doing::If)
    } else if says(word, "GIVE") {
        Some(Doing::Give)
    } else if says(word, "TAKE") {
        Some(Doing::Take)
    } else if says(word, "CYCLE") {
        Some(Doing::Cycle)
    } else if says(word, "CHAR") {
        Some(Doing::Char)
    } else {
        None
    }
}

/// A command that names something.
#[derive(Clone, Copy)]
enum Naming {
    Set,
    Clear,
    Send,
    Zap,
    Restore,
    Bind,
    Become,
    Change,
}

/// The command that names something which a word is, if it is one.
#[tactic(auto, unfolding(crate::specs::Command::is_naming))]
fn naming_of(word: &[u8]) -> Option<Naming>
    ensures { IsNaming (upper word.now) result }
{
    if says(word, "SET") {
        Some(Naming::Set)
    } else if says(word, "CLEAR") {
        Some(Naming::Clear)
    } else if says(word, "SEND") {
        Some(Naming::Send)
    } else if says(word, "ZAP") {
        Some(Naming::Zap)
    } else if says(word, "RESTORE") {
        Some(Naming::Restore)
    } else if says(word, "BIND") {
        Some(Naming::Bind)
    } else if says(word, "BECOME") {
        Some(Naming::Become)
    } else if says(word, "CHANGE") {
        Some(Naming::Change)
    } else {
        None
    }
}

/// A command of one word.
#[derive(Clone, Copy)]
enum Bare {
    End,
    EndGame,
    Idle,
    Restart,
    Lock,
    Unlock,
    Die,
    Play,
    ThrowStar,
}

/// The command of one word that this word is, if it is one.
#[tactic(auto, unfolding(crate::specs::Command::is_bare))]
fn bare_of(word: &[u8]) -> Option<Bare>
    ensures { IsBare (upper word.now) result }
{
    if says(word, "END") {
        Some(Bare::End)
    } else if says(word, "ENDGAME") {
        Some(Bare::EndGame)
    } else if says(word, "IDLE") {
        Some(Bare::Idle)
    } else if says(word, "RESTART") {
        Some(Bare::Restart)
    } else if says(word, "LOCK") {
        Some(Bare::Lock)
    } else if says(word, "UNLOCK") {
        Some(Bare::Unlock)
    } else if says(word, "DIE") {
        Some(Bare::Die)
    } else if says(word, "PLAY") {
        Some(Bare::Play)
    } else if says(word, "THROWSTAR") {
        Some(Bare::ThrowStar)
    } else {
        None
    }
}

/// The counter of a word.
#[tactic(auto, unfolding(crate::specs::Command::counter_of))]
fn counter_of(word: &[u8]) -> Option<Counter>
    ensures { result ≡ counter_of (upper word.now) }
{
    if says(word, "HEALTH") {
        Some(Counter::Health)
    } else if says(word, "AMMO") {
        Some(Counter::Ammo)
    } else if says(word, "GEMS") {
        Some(Counter::Gems)
    } else if says(word, "TORCHES") {
        Some(Counter::Torches)
    } else if says(word, "SCORE") {
        Some(Counter::Score)
    } else if says(word, "TIME") {
        Some(Counter::Time)
    } else {
        None
    }
}

/// A counter and a value.
fn amount_at(program: &[u8], at: usize) -> ((Option<Counter>, u16), usize)
    ensures result { AmountAt program.now at result.0 result.1 }
    ensures within { result.1 ≤ max at (length program.now) }
    ensures ends { at ≤ result.1 }
{
    let (name, end) = written_at(program, at);
    let value = value_at(program, end);
    ((counter_of(name), value), value_end(program, end))
}

/// A direction and a kind.
fn aim_at(
    alloc: Global,
    program: &[u8],
    at: usize,
) -> Result<((Heading, Option<TileKind>), usize), AllocError>
    ensures result { IfOk result (λ r. AimAt program.now at r.0 r.1) }
    ensures within { IfOk result (λ r. r.1 ≤ max at (length program.now)) }
    ensures ends { IfOk result (λ r. at ≤ r.1) }
    ensures memory_only_when { OnErr result (DirectionTakes program.now at) }
{
    let (heading, end) = direction(alloc, program, at)?;
    let (kind, last) = kind(program, end, false);
    Ok(((heading, kind), last))
}

/// Two kinds.
fn exchange_at(program: &[u8], at: usize) -> ((Option<TileKind>, Option<TileKind>), usize)
    ensures result { ExchangeAt program.now at result.0 result.1 }
    ensures within { result.1 ≤ max at (length program.now) }
    ensures ends { at ≤ result.1 }
{
    let (first, end) = kind(program, at, false);
    let (second, last) = kind(program, end, false);
    ((first, second), last)
}

/// The command of such a word, which ends at a place.
fn deed_behind(
    alloc: Global,
    program: &[u8],
    word: &[u8],
    verb: Doing,
    at: usize,
) -> Result<(OopCommand, usize), AllocError>
    requires said { upper word.now ≡ doing_word verb }
    ensures result { IfOk result (λ r. CommandBehind program.now (upper word.now) at r.0 r.1) }
    ensures within { IfOk result (λ r. r.1 ≤ max at (length program.now)) }
    ensures ends { IfOk result (λ r. at ≤ r.1) }
    ensures memory_only_when { OnErr result (DoingTakes program.now verb at) }
{
    match verb {
        Doing::Go => {
            let (heading, end) = direction(alloc, program, at)?;
            Ok((OopCommand::Go(heading), end))
        }
        Doing::Try => {
            let (heading, end) = direction(alloc, program, at)?;
            Ok((OopCommand::Try(heading), end))
        }
        Doing::Walk => {
            let (heading, end) = direction(alloc, program, at)?;
            Ok((OopCommand::Walk(heading), end))
        }
        Doing::Shoot => {
            let (heading, end) = direction(alloc, program, at)?;
            Ok((OopCommand::Shoot(heading), end))
        }
        Doing::Put => {
            let ((heading, kind), end) = aim_at(alloc, program, at)?;
            Ok((OopCommand::Put(heading, kind), end))
        }
        Doing::If => {
            let (query, end) = condition(alloc, program, at)?;
            Ok((OopCommand::If(query), end))
        }
        Doing::Give => {
            let ((counter, value), end) = amount_at(program, at);
            Ok((OopCommand::Give(counter, value), end))
        }
        Doing::Take => {
            let ((counter, value), end) = amount_at(program, at);
            Ok((OopCommand::Take(counter, value), end))
        }
        Doing::Cycle => Ok((
            OopCommand::Cycle(value_at(program, at)),
            value_end(program, at),
        )),
        Doing::Char => Ok((
            OopCommand::Char(value_at(program, at)),
            value_end(program, at),
        )),
    }
}

/// The command of such a word, which ends at a place.
fn naming_behind(
    alloc: Global,
    program: &[u8],
    word: &[u8],
    verb: Naming,
    at: usize,
) -> Result<(OopCommand, usize), AllocError>
    requires said { upper word.now ≡ naming_word verb }
    ensures result { IfOk result (λ r. CommandBehind program.now (upper word.now) at r.0 r.1) }
    ensures within { IfOk result (λ r. r.1 ≤ max at (length program.now)) }
    ensures ends { IfOk result (λ r. at ≤ r.1) }
    ensures memory_only_when { OnErr result (NamingTakes program.now verb at) }
{
    match verb {
        Naming::Set => {
            let (name, end) = word_at(alloc, program, at)?;
            Ok((OopCommand::Set(name), end))
        }
        Naming::Clear => {
            let (name, end) = word_at(alloc, program, at)?;
            Ok((OopCommand::Clear(name), end))
        }
        Naming::Send => {
            let (name, end) = word_at(alloc, program, at)?;
            Ok((OopCommand::Send(name), end))
        }
        Naming::Zap => {
            let (name, end) = word_at(alloc, program, at)?;
            Ok((OopCommand::Zap(name), end))
        }
        Naming::Restore => {
            let (name, end) = word_at(alloc, program, at)?;
            Ok((OopCommand::Restore(name), end))
        }
        Naming::Bind => {
            let (name, end) = word_at(alloc, program, at)?;
            Ok((OopCommand::Bind(name), end))
        }
        Naming::Become => {
            let (kind, end) = kind(program, at, false);
            Ok((OopCommand::Become(kind), end))
        }
        Naming::Change => {
            let ((first, second), end) = exchange_at(program, at);
            Ok((OopCommand::Change(first, second), end))
        }
    }
}

/// The command of such a word.
fn bare_command(program: &[u8], word: &[u8], verb: Bare, at: usize) -> OopCommand
    requires said { upper word.now ≡ bare_word verb }
    ensures { CommandBehind program.now (upper word.now) at result at }
{
    match verb {
        Bare::End => OopCommand::End,
        Bare::EndGame => OopCommand::EndGame,
        Bare::Idle => OopCommand::Idle,
        Bare::Restart => OopCommand::Restart,
        Bare::Lock => OopCommand::Lock,
        Bare::Unlock => OopCommand::Unlock,
        Bare::Die => OopCommand::Die,
        Bare::Play => OopCommand::Nothing,
        Bare::ThrowStar => OopCommand::Nothing,
    }
}

/// The command whose word ends at a place.
fn command_behind(
    alloc: Global,
    program: &[u8],
    word: &[u8],
    at: usize,
) -> Result<(OopCommand, usize), AllocError>
    ensures result { IfOk result (λ r. CommandBehind program.now (upper word.now) at r.0 r.1) }
    ensures within { IfOk result (λ r. r.1 ≤ max at (length program.now)) }
    ensures ends { IfOk result (λ r. at ≤ r.1) }
    ensures memory_only_when { OnErr result (BehindTakes program.now (upper word.now) at) }
{
    if let Some(verb) = doing_of(word) {
        return deed_behind(alloc, program, word, verb, at);
    }
    if let Some(verb) = naming_of(word) {
        return naming_behind(alloc, program, word, verb, at);
    }
    match bare_of(word) {
        Some(verb) => Ok((bare_command(program, word, verb, at), at)),
        None => Ok((OopCommand::Other(upper(alloc, word)?), at)),
    }
}

/// The first word from a place on that isn't THEN, with its letters as they are written, and where it ends.
fn next_word(program: &[u8], at: usize) -> (&[u8], usize)
    ensures result { NextWord program.now at (upper result.0.now) result.1 }
    ensures within { result.1 ≤ max at (length program.now) }
    ensures ends { at ≤ result.1 }
{
    let mut from = at;
    loop {
        let (word, end) = written_at(program, from);
        if !says(word, "THEN") {
            return (word, end);
        }
        from = end;
    }
}

/// The command at a place, or None if there is no word, and the place after it. THEN is skipped. It
/// takes memory only for turns, for a name, for the word of a flag, and for a word that is no
/// command.
pub fn next_command(
    alloc: Global,
    program: &[u8],
    at: usize,
) -> Result<(Option<OopCommand>, usize), AllocError>
    ensures result { IfOk result (λ r. CommandAt program.now at r.0 r.1) }
    ensures within { IfOk result (λ r. r.1 ≤ max at (length program.now)) }
    ensures ends { IfOk result (λ r. at ≤ r.1) }
    ensures memory_only_when { OnErr result (CommandTakes program.now at) }
{
    let (word, end) = next_word(program, at);
    if word.is_empty() {
        return Ok((None, end));
    }
    let (command, last) = command_behind(alloc, program, word, end)?;
    Ok((Some(command), last))
}
