//! The devices and links that the rows of a script describe, before they are boxed as such.
use crate::desk::Desk;
use crate::devices::{Fails, MemoryKeys, MemoryScreen};
use crate::traces::{Ended, Trace};
use crate::wires::{Sink, Wire, sink_of, wire_of};
use std::alloc::AllocError;
use zed_play::Key;

/// Devices and links.
#[derive(Drop)]
pub struct Parts {
    pub screen: Box<MemoryScreen>,
    pub keys: Box<MemoryKeys>,
    pub wires: Vec<Box<Wire>>,
    pub sinks: Vec<Box<Sink>>,
}

fn key_of(number: u64) -> Key {
    match number {
        1 => Key::North,
        2 => Key::South,
        3 => Key::West,
        4 => Key::East,
        5 => Key::ShootNorth,
        6 => Key::ShootSouth,
        7 => Key::ShootWest,
        8 => Key::ShootEast,
        _ => Key::Wait,
    }
}

fn screen_of(desk: &Desk) -> Result<Box<MemoryScreen>, AllocError> {
    let trace = Trace::of(&desk.traces, Ended::Device)?;
    Ok(Box::new(desk.alloc, MemoryScreen::new(trace))?)
}

fn keys_of(desk: &Desk) -> Result<Box<MemoryKeys>, AllocError> {
    let trace = Trace::of(&desk.traces, Ended::Device)?;
    Ok(Box::new(desk.alloc, MemoryKeys::new(desk.alloc, trace))?)
}

fn next_wire(desk: &mut Desk) -> Result<Box<Wire>, AllocError> {
    let trace = Trace::of(&desk.traces, Ended::Link)?;
    let piece = desk.tape.size();
    let passing = desk.tape.option();
    let handed = desk.tape.bytes(desk.alloc);
    wire_of(desk.alloc, handed, piece, passing, trace)
}

fn next_sink(desk: &mut Desk) -> Result<Box<Sink>, AllocError> {
    let trace = Trace::of(&desk.traces, Ended::Link)?;
    let handed = desk.tape.bytes(desk.alloc);
    sink_of(desk.alloc, handed, trace)
}

impl Parts {
    fn new(desk: &Desk) -> Result<Parts, AllocError> {
        Ok(Parts {
            screen: screen_of(desk)?,
            keys: keys_of(desk)?,
            wires: Vec::new(desk.alloc),
            sinks: Vec::new(desk.alloc),
        })
    }

    /// Takes the keys that are left in a row.
    fn take_keys(&mut self, desk: &mut Desk) {
        for _ in 0..usize::MAX {
            if desk.tape.is_done() {
                return;
            }
            self.keys.put(key_of(desk.tape.number()));
        }
    }

    fn take_wire(&mut self, desk: &mut Desk) {
        if let Ok(wire) = next_wire(desk) {
            let _ = self.wires.push(wire);
        }
    }

    fn take_sink(&mut self, desk: &mut Desk) {
        if let Ok(sink) = next_sink(desk) {
            let _ = self.sinks.push(sink);
        }
    }

    /// Takes in a row of this letter.
    fn take(&mut self, letter: u8, desk: &mut Desk) {
        match letter {
            b'l' => self.take_wire(desk),
            b's' => self.take_sink(desk),
            b'k' => self.take_keys(desk),
            b'c' => self.screen.set_fails(Fails::of(desk.tape.option())),
            _ => self.keys.set_fails(Fails::of(desk.tape.option())),
        }
    }

    /// Those of the next rows, up to one that ends them.
    pub fn next(desk: &mut Desk) -> Result<Parts, AllocError> {
        let mut parts = Parts::new(desk)?;
        for _ in 0..usize::MAX {
            match desk.next() {
                b'.' => return Ok(parts),
                letter => parts.take(letter, desk),
            }
        }
        Ok(parts)
    }
}
