//! The value of a world.
ghost use Rattle.std.specs.Prelude.{◌≡◌};
ghost use Rattle.std.specs.List.{AllByRecursion};
ghost use Rattle.zed_world.specs.Normal.{HasNormalParts, HasShortBody, IsNormal};

use crate::board::BoardData;
use crate::header::Header;
use crate::laws::{read_is_normal, written_is_read};
use std::marker::Model;
use zed_types::Seq;

/// A world that some file spells: each number, string and list fits its field, each board, stat and
/// program that it names is there, and each board fits in one body. Contracts see its header and
/// the list of its boards.
#[derive(Drop)]
pub struct World {
    header: Header,
    boards: Seq<BoardData>,
}

impl Model for World {
    ghost use Rattle.zed_world.specs.Contents.{Contents};

    ghost Value = { Contents };

    ghost use Rattle.zed_world.specs.Normal.{IsNormal};

    ghost view = { λ a. record { header = a.header; boards = a.boards } };

    ghost invariant = { λ a. IsNormal (record { header = a.header; boards = a.boards }) };
}

impl World {
    /// A world of these boards, the title first.
    pub fn new(header: Header, boards: Seq<BoardData>) -> World
        requires parts { HasNormalParts (record { header = header; boards = boards }) }
        requires bodies { AllByRecursion HasShortBody boards }
        ensures { result ≡ record { header = header; boards = boards } }
    {
        written_is_read();
        World { header, boards }
    }

    /// The world that some file spells.
    pub(crate) fn spelled(header: Header, boards: Seq<BoardData>) -> World
        requires { IsNormal (record { header = header; boards = boards }) }
        ensures { result ≡ record { header = header; boards = boards } }
    {
        World { header, boards }
    }

    /// What comes before the boards.
    pub fn header(&self) -> &Header
        ensures result { result.now ≡ self.now.header }
        ensures normal { HasNormalParts self.now }
    {
        read_is_normal();
        &self.header
    }

    /// The boards, 1 to 101, the title first.
    pub fn boards(&self) -> &[BoardData]
        ensures result { result.now ≡ self.now.boards }
        ensures normal { HasNormalParts self.now }
    {
        read_is_normal();
        self.boards.as_slice()
    }
}
