//! What is said in a turn, and the choices that it offers.
ghost use Rattle.std.specs.Prelude.{◌≡◌, IfOk, OnErr, OnOk, slice_get};
ghost use Rattle.zed_scene.specs.Scene.{running_stat};
ghost use Rattle.zed_oop.specs.Choosing.{ChoiceTakes};
ghost use Rattle.zed_play.specs.Scrolls.{chosen, or_interaction, program_in, said, spoken_by, title_of};

use crate::game::Game;
use crate::play::Play;
use std::alloc::{AllocError, Global};
use zed_oop::{Chosen, Scene, Scroll, choose, name_of};
use zed_types::{Bytes, Seq};

/// Who speaks in a turn.
#[derive(Clone, Copy, PartialEq, Eq)]
pub enum Voice {
    Object,
    /// A scroll that is touched.
    Scroll,
}

/// The title of what an object says.
fn or_interaction(name: &[u8]) -> &[u8]
    ensures { result.now ≡ or_interaction name.now }
{
    if name.is_empty() {
        b"Interaction"
    } else {
        name
    }
}

fn title_of(voice: Voice, program: &[u8]) -> &[u8]
    ensures { result.now ≡ title_of voice program.now }
{
    match voice {
        Voice::Object => or_interaction(name_of(program)),
        Voice::Scroll => b"Scroll",
    }
}

/// The program of stat i.
pub(crate) fn program_in(scene: &Scene, i: usize) -> Option<usize>
    ensures { result ≡ program_in (slice_get scene.now.stats i) }
{
    match scene.stat_ref(i) {
        Some(stat) => stat.program,
        None => None,
    }
}

/// The program by which the stat spoke whose turn it was, and which had another one before.
fn spoken_by(before: Option<usize>, scene: &Scene) -> Option<usize>
    ensures { result ≡ spoken_by before (running_stat scene.now) }
{
    match scene.running_stat_ref() {
        Some(stat) => stat.program,
        None => before,
    }
}

/// Opens a scroll of what was said in a turn, if that is two lines or more.
pub(crate) fn say(
    alloc: Global,
    scene: &mut Scene,
    voice: Voice,
    before: Option<usize>,
    lines: Seq<Bytes>,
) -> Result<(), AllocError>
    ensures { OnOk result (scene.new ≡ said voice before lines scene.old) }
{
    if lines.as_slice().len() < 2 {
        return Ok(());
    }
    let program = spoken_by(before, scene);
    let title = Bytes::from_slice(alloc, title_of(voice, scene.program(program)))?;
    scene.open_scroll(title, lines)
}

impl Play {
    /// What was said in the last step that was made, in order: a scroll for each turn of a program
    /// in which it said two lines or more. One line alone is only a message.
    pub fn scrolls(&self) -> &[Scroll]
        ensures result { result.now ≡ self.now.game.scene.scrolls }
    {
        self.game.scene.scrolls()
    }

    /// Chooses a line of a scroll, both counted from 0. The object that spoke sends the label as
    /// by a command of its own. This is no step: it takes no words of chance, and the playtest may
    /// have ended. Memory comes only for a label that is to be sent, and changes nothing.
    pub fn choose(&mut self, scroll: usize, line: usize) -> Result<Chosen, AllocError>
        ensures result { IfOk result (λ c. chosen scroll line self.old ≡ (c, self.new)) }
        ensures kept { OnErr result (self.new ≡ self.old) }
        ensures memory_only_when { OnErr result
            (ChoiceTakes scroll line self.old.game.scene) }
    {
        choose(self.alloc, &mut self.game.scene, scroll, line)
    }
}
