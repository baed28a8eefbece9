//! What registers hold after writes, in whatever order these came.

ghost use Rattle.zed_cells.specs.Latest.{LatestIsHeld, OrderIsForgotten};
ghost use Rattle.zed_cells.specs.Cells.{CellsHoldTheLatest};

/// A register holds the latest of the writes that it took. Neither their order nor repeats count.
/// `V` is the type of its values.
pub fn order_is_forgotten<V>()
    ensures latest { LatestIsHeld V }
    ensures order { OrderIsForgotten V }
{}

/// Each cell holds the latest of the rectangles that reach it.
pub fn cells_hold_the_latest()
    ensures { CellsHoldTheLatest }
{}
