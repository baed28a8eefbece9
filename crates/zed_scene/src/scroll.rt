//! What programs said in the turns of a step.
ghost use Rattle.std.specs.Prelude.{◌≡◌, [], OnOk, OnErr};
ghost use Rattle.zed_scene.specs.Scene.{with_scroll};

use crate::scene::Scene;
use std::alloc::{AllocError, Global};
use zed_types::{Bytes, Seq};

/// Lines that a program said in one turn.
#[derive(Drop)]
pub struct Scroll {
    /// The number of the stat that spoke. It is followed where stats are removed; None once the
    /// stat is gone.
    pub speaker: Option<usize>,
    pub title: Bytes,
    /// As they were said.
    pub lines: Seq<Bytes>,
}

impl Scene {
    /// What was said since the last time that all scrolls were closed, in order.
    pub fn scrolls(&self) -> &[Scroll]
        ensures result { result.now ≡ self.now.scrolls }
    {
        self.scrolls.as_slice()
    }

    /// Opens a scroll of the stat whose program has its turn. Memory changes nothing.
    pub fn open_scroll(&mut self, title: Bytes, lines: Seq<Bytes>) -> Result<(), AllocError>
        ensures result { OnOk result (self.new ≡ with_scroll title lines self.old) }
        ensures kept { OnErr result (self.new ≡ self.old) }
    {
        self.scrolls.push(Scroll {
            speaker: self.running,
            title,
            lines,
        })
    }

    /// Closes all scrolls.
    pub fn close_scrolls(&mut self, alloc: Global)
        ensures result { self.new ≡ record self.old { scrolls = [] } }
    {
        self.scrolls = Seq::new(alloc);
    }
}
