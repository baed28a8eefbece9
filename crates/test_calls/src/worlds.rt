//! World files are read, written and tested with each growth refused, and the largest one is written as it was read. What is read of other
//! world files is in the rows of readings.
use crate::growths::{refuse_each, turn_of};
use crate::pieces::{Piece, RUNS, made_of, put_pieces};
use std::alloc::Global;
use test_rows::{Turn, refuse};
use zed_world::{World, WorldError, is_canonical, read_world, write_world};

/// Two boards, with a world's name, a flag, a board's name and message, a stat with a program and one that shares it.
const FULL: &[Piece] = &[
    (b"\xff\xff\x01", 26),
    (b"\x01W", 19),
    (b"\x01F", 460),
    (b"\x08\x01\x01N", 49),
    (RUNS, 0),
    (b"\xff", 6),
    (b"\x01M", 57),
    (b"\x1e\x0c", 18),
    (b"\x02\0", 0),
    (b"\x1e\x0c", 4),
    (b"\x01\0\0\0\0\xff\xff\xff\xff", 18),
    (b"\x01\x01", 4),
    (b"\x03\0\0\0\0\xff\xff\xff\xff", 8),
    (b"\x02", 9),
    (b"AB\x02\x01", 4),
    (b"\x03\0\0\0\0\xff\xff\xff\xff", 8),
    (b"\xff\xff", 8),
    (b"\xc4", 52),
    (RUNS, 0),
    (b"\xff", 65),
    (b"\x1e\x0c", 20),
    (b"\x1e\x0c", 4),
    (b"\x01\0\0\0\0\xff\xff\xff\xff", 18),
];

fn read_once(alloc: Global, bytes: &[u8], nth: usize) -> Turn {
    refuse(alloc, nth);
    let error = read_world(alloc, bytes).err();
    turn_of(alloc, error.is_none(), error == Some(WorldError::Memory))
}

fn reads_each(alloc: Global, bytes: &[u8]) -> bool {
    refuse_each!(nth => read_once(alloc, bytes, nth))
}

#[test]
fn reading_a_world_refused(rt: HostRuntime) {
    assert!(rt; reads_each(rt.alloc(), made_of(rt.alloc(), FULL).as_slice()));
}

/// Writes the world of these bytes.
fn write_once(alloc: Global, world: &World, bytes: &[u8], nth: usize) -> Turn {
    refuse(alloc, nth);
    match write_world(alloc, world, 20000) {
        Ok(text) => turn_of(alloc, text.as_slice() == bytes, false),
        Err(fault) => turn_of(alloc, false, fault == WorldError::Memory),
    }
}

fn writes_each(alloc: Global, world: &World, bytes: &[u8]) -> bool {
    refuse_each!(nth => write_once(alloc, world, bytes, nth))
}

fn is_written_each(alloc: Global, bytes: &[u8]) -> bool {
    match read_world(alloc, bytes) {
        Ok(world) => writes_each(alloc, &world, bytes),
        Err(_) => false,
    }
}

#[test]
fn writing_a_world_refused(rt: HostRuntime) {
    assert!(rt; is_written_each(rt.alloc(), made_of(rt.alloc(), FULL).as_slice()));
}

fn rewrite_once(alloc: Global, bytes: &[u8], nth: usize) -> Turn {
    refuse(alloc, nth);
    match is_canonical(alloc, bytes) {
        Ok(is_so) => turn_of(alloc, is_so, false),
        Err(fault) => turn_of(alloc, false, fault == WorldError::Memory),
    }
}

fn rewrites_each(alloc: Global, bytes: &[u8]) -> bool {
    refuse_each!(nth => rewrite_once(alloc, bytes, nth))
}

#[test]
fn rewriting_a_world_refused(rt: HostRuntime) {
    assert!(rt; rewrites_each(rt.alloc(), made_of(rt.alloc(), FULL).as_slice()));
}

/// A board of 32,767 bytes, most of them the player's program.
const LONGEST: &[Piece] = &[
    (b"\xff\x7f", 51),
    (RUNS, 0),
    (b"\xff", 65),
    (b"\x1e\x0c", 20),
    (b"\x1e\x0c", 4),
    (b"\x01\0\0\0\0\xff\xff\xff\xff", 8),
    (b"\x3b\x7f", 8 + 32571),
];

/// The largest file that there can be: 101 such boards.
fn largest(alloc: Global) -> Vec<u8> {
    let mut out = made_of(alloc, &[(b"\xff\xff\x64", 509)]);
    for _ in 0..101 {
        put_pieces(&mut out, LONGEST);
    }
    out
}

/// Whether what is read of bytes is written just so again.
fn is_written_so(alloc: Global, world: &World, bytes: &[u8]) -> bool {
    match write_world(alloc, world, 32767) {
        Ok(text) => text.as_slice() == bytes,
        Err(_) => false,
    }
}

fn is_same_again(alloc: Global, bytes: &[u8]) -> bool {
    match read_world(alloc, bytes) {
        Ok(world) => bytes.len() == 3_310_181 && is_written_so(alloc, &world, bytes),
        Err(_) => false,
    }
}

#[test]
fn the_largest_file_is_written_as_it_was_read(rt: HostRuntime) {
    assert!(rt; is_same_again(rt.alloc(), largest(rt.alloc()).as_slice()));
}
