//! Laws of runs: which text is the greedy one, and that a text of runs reads back as its tiles.
ghost use Rattle.std.specs.Prelude.{◌≡◌, ℕ, List, length};
ghost use Rattle.zed_types.specs.declared.tile.Tile.{Tile};
ghost use Rattle.zed_types.specs.declared.tile.TheConstants.{TILES};
ghost use Rattle.zed_runs.specs.Runs.{Runs, IsGreedy, greedy};
ghost use Rattle.zed_runs.specs.Laws.{GreedyIsRead, NoRunsBeginOthers, TilesReadAreWhole, TilesReadAreRuns, RunsAreRead};

/// The greedy text expands to exactly its tiles. Its counts are 1 to 255, and each run is as long
/// as it can be. No other text is like that.
pub fn greedy_is_the_one()
    ensures holds { (tiles : List Tile) → IsGreedy tiles (greedy tiles) }
    ensures alone { (tiles : List Tile) (b : List ℕ) → IsGreedy tiles b → b ≡ greedy tiles }
{}

/// The greedy text of a board is a text of runs. It reads back, whatever follows it.
pub fn greedy_is_read()
    ensures runs { (tiles : List Tile) → length tiles ≡ TILES → Runs tiles (greedy tiles) }
    ensures back { GreedyIsRead }
{}

/// No text of runs begins another.
pub fn runs_are_one()
    ensures { NoRunsBeginOthers }
{}

/// Reading finds a whole board exactly if a text of its runs is at the front.
pub fn tiles_are_runs()
    ensures whole { TilesReadAreWhole }
    ensures read { TilesReadAreRuns }
    ensures all { RunsAreRead }
{}
