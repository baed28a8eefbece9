//! The devices of a playtest in place.
ghost use Rattle.std.specs.Prelude.{◌≡◌, []};

use crate::queue::Queue;
use std::alloc::Global;

/// A terminal, what is typed there, and a source of chance.
#[derive(Drop)]
pub struct Console<T, I, C> {
    pub terminal: T,
    pub inputs: Queue<I>,
    pub chance: C,
}

impl<T, I, C> Console<T, I, C> {
    /// These devices, with nothing to come before what is typed. It takes no memory.
    pub fn new(alloc: Global, terminal: T, inputs: I, chance: C) -> Console<T, I, C>
        ensures terminal { result.terminal ≡ terminal }
        ensures kept { result.inputs.kept.items ≡ [] }
        ensures taken { result.inputs.taken ≡ 0 }
        ensures source { result.inputs.source ≡ inputs }
        ensures chance { result.chance ≡ chance }
    {
        Console {
            terminal,
            inputs: Queue::new(alloc, inputs),
            chance,
        }
    }
}
