//! The first lines of programs.
ghost use Rattle.std.specs.Prelude.{◌≡◌};
ghost use Rattle.zed_log.specs.Program.{first_line as line_first, own_bytes as bytes_had, program_bytes as bytes_of};

use zed_world::{Code, StatData};

// The end of a line of a program.
const END: u8 = 13;

fn own_bytes(code: &Code) -> &[u8]
    ensures { result.now ≡ bytes_had code.now }
{
    match code {
        Code::Own(bytes) => bytes.as_slice(),
        Code::None | Code::Same(_) => &[],
    }
}

// The bytes of the program of a stat, on a board with these stats.
fn program_bytes<'a>(stats: &'a [StatData], code: &'a Code) -> &'a [u8]
    ensures { result.now ≡ bytes_of stats.now code.now }
{
    match code {
        Code::None => &[],
        Code::Own(bytes) => bytes.as_slice(),
        Code::Same(n) => match stats.get(usize::from(*n)) {
            Some(stat) => own_bytes(&stat.code),
            None => &[],
        },
    }
}

// The first line of bytes, without its end.
fn line_of(bytes: &[u8]) -> &[u8]
    ensures { result.now ≡ line_first bytes.now }
{
    for (i, byte) in bytes.iter().enumerate() {
        if *byte == END {
            let (line, _) = bytes.split_at(i);
            return line;
        }
    }
    bytes
}

/// The first line of the program of a stat, on a board with these stats.
pub(crate) fn first_line<'a>(stats: &'a [StatData], code: &'a Code) -> &'a [u8]
    ensures { result.now ≡ line_first (bytes_of stats.now code.now) }
{
    line_of(program_bytes(stats, code))
}
