//! Choices of lines of scrolls.
ghost use Rattle.std.specs.Prelude.{◌≡◌, IfOk, OnErr, MatchResult, Ok, Err};
ghost use Rattle.zed_oop.specs.Choosing.{asked, chosen, ChoiceTakes, sent_by};

use crate::sending::{is_heard, send};
use std::alloc::{AllocError, Global};
use zed_oop_syntax::{ScrollLine, scroll_line, upper};
use zed_scene::Scene;

/// What came of a choice.
#[derive(Clone, Copy, Debug, PartialEq, Eq)]
pub enum Chosen {
    /// The label was sent.
    Sent,
    /// No stat to which it is sent has this label.
    NoLabel,
    /// The stat that spoke is gone, so that nothing hears it.
    Gone,
    /// It leads to a file, and there is none.
    NoFile,
    /// There is no such line, or it is no choice.
    NoChoice,
}

/// The number of the stat that spoke and the label that it is to send, or what else comes of the choice.
fn asked(scene: &Scene, scroll: usize, line: usize) -> Result<(usize, &[u8]), Chosen>
    ensures { MatchResult result
        (λ r. asked scroll line scene.now ≡ Ok (r.0, r.1.now))
        (λ c. asked scroll line scene.now ≡ Err c) }
{
    let Some(scroll) = scene.scrolls().get(scroll) else {
        return Err(Chosen::NoChoice);
    };
    let Some(line) = scroll.lines.as_slice().get(line) else {
        return Err(Chosen::NoChoice);
    };
    match scroll_line(line.as_slice()) {
        ScrollLine::Choice(label, _) => match scroll.speaker {
            Some(i) => Ok((i, label)),
            None => Err(Chosen::Gone),
        },
        ScrollLine::File(_, _) => Err(Chosen::NoFile),
        ScrollLine::Plain(_) | ScrollLine::Centred(_) => Err(Chosen::NoChoice),
    }
}

/// Sends a word as the program of stat i would.
fn send_as(scene: &mut Scene, i: usize, word: &[u8]) -> Chosen
    ensures { sent_by i word.now scene.old ≡ (result, scene.new) }
{
    scene.set_running(i);
    let heard = is_heard(scene, word);
    let _own = send(scene, word);
    if heard { Chosen::Sent } else { Chosen::NoLabel }
}

/// Chooses a line of a scroll, both counted from 0: the stat that spoke sends the label as by a
/// command, in upper case. It goes on there when it has its next turn. Memory comes only for a
/// label that is to be sent, and changes nothing.
pub fn choose(
    alloc: Global,
    scene: &mut Scene,
    scroll: usize,
    line: usize,
) -> Result<Chosen, AllocError>
    ensures result { IfOk result (λ c. chosen scroll line scene.old ≡ (c, scene.new)) }
    ensures kept { OnErr result (scene.new ≡ scene.old) }
    ensures memory_only_when { OnErr result (ChoiceTakes scroll line scene.old) }
{
    match asked(scene, scroll, line) {
        Ok((i, label)) => {
            let word = upper(alloc, label)?;
            Ok(send_as(scene, i, word.as_slice()))
        }
        Err(nothing) => Ok(nothing),
    }
}
