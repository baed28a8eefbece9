//! Pictures of boards, place by place.
ghost use Rattle.std.specs.Prelude.{◌≡◌, ◌<◌, slice_set};
ghost use Rattle.zed_screen.specs.Frames.{DrawsBoard, Shows};
ghost use Rattle.zed_screen.specs.Panel.{play_cell};
ghost use Rattle.zed_screen.specs.Picture.{data_cell};

use crate::error::ScreenError;
use crate::frame::{Cell, Frame, SIDE};
use crate::panel::play_cell;
use crate::picture::data_cell;
use zed_play::Play;
use zed_world::{BoardData, World};

fn put(cells: &mut [Cell; 2000], k: u16, cell: Cell)
    requires { k < 2000 }
    ensures { cells.new ≡ slice_set cells.old k cell }
{
    cells[usize::from(k)] = cell;
}

/// The picture of a board in play, with six numbers beside it. It takes no memory.
#[tactic(auto, using(crate::proofs::Painting::one_more))]
pub fn draw_play(play: &Play) -> Frame
    ensures result { Shows result (play_cell play.now) }
{
    let mut cells = [SIDE; 2000];
    for k in 0..2000_u16 {
        put(&mut cells, k, play_cell(play, k));
    }
    Frame { cells }
}

#[tactic(auto, using(crate::proofs::Painting::one_more))]
fn draw_data(board: &BoardData) -> Frame
    ensures { Shows result (data_cell board.now) }
{
    let mut cells = [SIDE; 2000];
    for k in 0..2000_u16 {
        put(&mut cells, k, data_cell(board, k));
    }
    Frame { cells }
}

/// The picture of the board of this number, 0 for the title, or NoBoard if the world has no such
/// board. It takes no memory.
pub fn draw_board(world: &World, board: usize) -> Result<Frame, ScreenError>
    ensures result { DrawsBoard result world.now board }
{
    match world.boards().get(board) {
        None => Err(ScreenError::NoBoard),
        Some(data) => Ok(draw_data(data)),
    }
}
