//! Stamps, strings, lists and elements by example.
use std::alloc::{AllocError, Global};
use zed_types::{Bytes, Look, Push, Seq, Stamp, element};

fn stamp(time: u64, replica: u16) -> Stamp {
    Stamp { time, replica }
}

#[test]
fn stamps_come_by_time_and_then_by_replica(rt: HostRuntime) {
    let early = stamp(2, 9);
    let late = stamp(3, 1);
    assert!(rt; Stamp::GENESIS.is_before(early) && early.is_before(late));
    assert!(rt; !late.is_before(early) && !late.is_before(late));
}

/// Whether bytes have a copy that holds the same.
fn has_copy(bytes: &Bytes) -> bool {
    match bytes.copy() {
        Ok(copy) => copy.as_slice() == b"#END\r".as_slice() && copy.is_same(bytes),
        Err(AllocError) => false,
    }
}

fn are_copied(alloc: Global) -> bool {
    match b"#END\r".to_vec(alloc) {
        Ok(bytes) => has_copy(&Bytes::new(bytes)),
        Err(AllocError) => false,
    }
}

#[test]
fn bytes_are_copied(rt: HostRuntime) {
    assert!(rt; are_copied(rt.alloc()));
}

/// A list that got its elements at places.
fn list_of(alloc: Global) -> Result<Seq<u8>, AllocError> {
    let mut list = Seq::new(alloc);
    list.push(1u8)?;
    list.push(5u8)?;
    list.insert(1, 4)?;
    list.insert_all(1, [2, 3].to_vec(alloc)?)?;
    Ok(list)
}

fn are_in_place(alloc: Global) -> bool {
    match list_of(alloc) {
        Ok(list) => list.as_slice() == [1, 2, 3, 4, 5].as_slice(),
        Err(AllocError) => false,
    }
}

#[test]
fn a_list_takes_elements_at_a_place(rt: HostRuntime) {
    assert!(rt; are_in_place(rt.alloc()));
}

/// Whether the player is told so.
fn player_is_told() -> bool {
    let player = element(4);
    player.word == "PLAYER"
        && player.character == Look::Character(b'@')
        && player.push == Push::Any
        && player.destructible
        && !player.walkable
}

/// Whether these looks, pushes and words are told.
fn others_are_told() -> bool {
    element(25).push == Push::NorthSouth
        && element(36).character == Look::FirstParameter
        && element(53).character == Look::Colour
        && element(54).word == ""
        && element(255).character == Look::Character(b'?')
}

#[test]
fn elements_are_told_by_number(rt: HostRuntime) {
    assert!(rt; player_is_told() && others_are_told());
}
