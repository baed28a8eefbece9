//! How many bytes a board takes, counted without writing it.
ghost use Rattle.std.specs.Prelude.{◌≡◌, ◌≤◌, ◌*◌, None, Some, length, OnOk, IfErr, FitsSigned};
ghost use Rattle.std.specs.Int.{w16};
ghost use Rattle.std.specs.List.{flat_map, AllByRecursion};
ghost use Rattle.zed_world.specs.Writing.{code_length, code_text, stat_text, body_text, first_over};
ghost use Rattle.zed_world.specs.Normal.{IsWritable};

use crate::board::BoardData;
use crate::error::WorldError;
use crate::stat::{Code, StatData};
use zed_runs::runs_len;

/// The bytes of a body beside its runs and its stats: the name, the properties, the number of stats.
pub const BODY_FRAME: usize = 51 + 86 + 2;

/// The bytes of a stat beside its program.
pub const STAT_FRAME: usize = 33;

/// How many bytes a program takes with its stat.
fn code_len(code: &Code) -> usize
    requires { FitsSigned w16 (code_length code.now) }
    ensures result { result ≡ length (code_text code.now) }
    ensures within { result ≤ 32767 }
{
    match code {
        Code::Own(bytes) => bytes.as_slice().len(),
        _ => 0,
    }
}

/// How many bytes the stats of a board take.
fn stats_len(stats: &[StatData]) -> usize
    requires few { length stats.now ≤ 151 }
    requires programs { AllByRecursion (λ s. FitsSigned w16 (code_length s.code)) stats.now }
    ensures result { result ≡ length (flat_map stat_text stats.now) }
    ensures within { result ≤ 32800 * 151 }
{
    let mut bytes = 0;
    for stat in stats {
        bytes += STAT_FRAME + code_len(&stat.code);
    }
    bytes
}

/// How many bytes the body of a board takes.
pub fn body_len(board: &BoardData) -> usize
    requires { IsWritable board.now }
    ensures result { result ≡ length (body_text board.now) }
    ensures within { result ≤ 4957439 }
{
    BODY_FRAME + runs_len(&board.tiles) + stats_len(board.stats.as_slice())
}

/// Refuses the first board whose body is over the limit.
pub(crate) fn within_limit(limit: usize, boards: &[BoardData]) -> Result<(), WorldError>
    requires { AllByRecursion IsWritable boards.now }
    ensures result { OnOk result (first_over limit 0 boards.now ≡ None) }
    ensures over { IfErr result (λ e. first_over limit 0 boards.now ≡ Some e) }
{
    for (number, board) in boards.iter().enumerate() {
        let bytes = body_len(board);
        if limit < bytes {
            return Err(WorldError::BoardOver {
                board: number,
                bytes,
            });
        }
    }
    Ok(())
}
