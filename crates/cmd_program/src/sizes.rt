//! How many bytes the boards of a world take in a file.
ghost use Rattle.std.specs.Prelude.{◌≡◌, ◌<◌, ◌≤◌, length, IfErr, None, OnOk, Some};
ghost use Rattle.std.specs.List.{AllByRecursion, flat_map};
ghost use Rattle.zed_world.specs.Writing.{body_text, code_text, first_over, stat_text};
ghost use Rattle.zed_world.specs.declared.error.WorldError.TheVariants.{BoardOver};
ghost use Rattle.cmd_program.specs.Sizes.{CanBeCounted};

use zed_runs::runs_len;
use zed_types::READ_BODY_LIMIT;
use zed_world::{BODY_FRAME, BoardData, Code, STAT_FRAME, StatData};

/// A board that is over the limit: its number and its bytes.
#[derive(Clone, Copy)]
pub(crate) struct Over {
    pub board: usize,
    pub bytes: usize,
}

fn code_len(code: &Code) -> usize
    ensures { result ≡ length (code_text code.now) }
{
    match code {
        Code::Own(bytes) => bytes.as_slice().len(),
        Code::None | Code::Same(_) => 0,
    }
}

fn stats_len(stats: &[StatData]) -> usize
    requires { length (flat_map stat_text stats.now) < 18446744073709486080 }
    ensures result { result ≡ length (flat_map stat_text stats.now) }
    ensures within { result < 18446744073709486080 }
{
    let mut bytes = 0;
    for stat in stats {
        let more = STAT_FRAME + code_len(&stat.code);
        bytes += more;
    }
    bytes
}

fn body_len(board: &BoardData) -> usize
    requires { CanBeCounted board.now }
    ensures { result ≡ length (body_text board.now) }
{
    BODY_FRAME + runs_len(&board.tiles) + stats_len(board.stats.as_slice())
}

/// Refuses the first board that would have more bytes than a file can spell.
pub(crate) fn within_limit(boards: &[BoardData]) -> Result<(), Over>
    requires { AllByRecursion CanBeCounted boards.now }
    ensures fits { OnOk result (first_over 32767 0 boards.now ≡ None) }
    ensures over { IfErr result (λ o. first_over 32767 0 boards.now
        ≡ Some (BoardOver o.board o.bytes)) }
{
    for (number, board) in boards.iter().enumerate() {
        let bytes = body_len(board);
        if READ_BODY_LIMIT < bytes {
            return Err(Over {
                board: number,
                bytes,
            });
        }
    }
    Ok(())
}
