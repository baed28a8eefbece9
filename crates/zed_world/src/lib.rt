//! World files of ZZT 3.2: reading and writing them. docs/FORMATS.md has the layout.
#![tactic(auto)]

mod blocks;
mod board;
mod boards;
mod canonical;
mod error;
mod fields;
mod header;
mod laws;
mod put;
mod reading;
mod size;
mod stat;
mod stats;
mod world;
mod writing;

pub use board::{BoardData, Properties};
pub use canonical::is_canonical;
pub use error::WorldError;
pub use header::Header;
pub use laws::{
    canonical_files_are_short, canonical_files_are_tested, files_are_read_by_place, read_is_normal,
    written_is_read,
};
pub use reading::read_world;
pub use size::{BODY_FRAME, STAT_FRAME, body_len};
pub use stat::{Code, StatData};
pub use stats::is_passage;
pub use world::World;
pub use writing::write_world;
