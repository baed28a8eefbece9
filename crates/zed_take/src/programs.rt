//! The programs of a board's stats.
use zed_world::{BoardData, Code, StatData};

/// The number of the stat that has the bytes of a stat's program, if the stat has one.
pub(crate) fn owner_of(board: &BoardData, number: usize) -> Option<usize> {
    match board.stats.as_slice().get(number) {
        Some(stat) => match &stat.code {
            Code::None => None,
            Code::Own(_) => Some(number),
            Code::Same(owner) => Some(usize::from(*owner)),
        },
        None => None,
    }
}

fn own_bytes(stat: &StatData) -> &[u8] {
    match &stat.code {
        Code::Own(bytes) => bytes.as_slice(),
        _ => &[],
    }
}

/// The bytes of a stat's program, none where it has no program.
pub(crate) fn program(board: &BoardData, number: usize) -> &[u8] {
    let owner = owner_of(board, number).unwrap_or(number);
    match board.stats.as_slice().get(owner) {
        Some(stat) => own_bytes(stat),
        None => &[],
    }
}
