//! Places in a text.
ghost use Rattle.std.specs.Prelude.{◌≡◌, ◌≤◌, ◌==◌, length, filter, not};
ghost use Rattle.std.specs.List.{suffix_len};
ghost use Rattle.zed_plaintext.specs.Place.{place_behind as place_for};

use crate::error::BadText;

// How many lines these characters end.
fn lines_in(front: &[char]) -> usize
    ensures result { result ≡ length (filter (λ c. c == 10) front.now) }
    ensures within { result ≤ length front.now }
{
    let mut lines = 0;
    for character in front {
        if *character == '\n' {
            lines += 1;
        }
    }
    lines
}

// How many characters stand behind the last end of a line.
#[tactic(auto, using(crate::proofs::Lists::longer, crate::proofs::Lists::ended))]
fn last_line_len(front: &[char]) -> usize
    ensures result { result ≡ suffix_len (λ c. not (c == 10)) front.now }
    ensures within { result ≤ length front.now }
{
    let mut len = 0;
    for character in front {
        len = if *character == '\n' { 0 } else { len + 1 };
    }
    len
}

/// The place behind these characters.
#[tactic(auto, unfolding(crate::specs::Place::place_behind))]
pub(crate) fn place_behind(front: &[char]) -> BadText
    ensures { result ≡ place_for front.now }
{
    BadText {
        line: lines_in(front) + 1,
        column: last_line_len(front) + 1,
    }
}
