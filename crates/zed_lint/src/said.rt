//! Findings about what programs say, and about names below their first lines.
ghost use Rattle.std.specs.Prelude.{◌≡◌, IfOk, length};
ghost use Rattle.zed_lint.specs.Said.{above, below, is_said_with_others, is_text, is_vain, long_line, low_name, offered, passes, shown, vain_choice};

use crate::finding::What;
use crate::labels::{is_known, label_of, starts_line};
use std::alloc::{AllocError, Global};
use zed_oop_syntax::{LineKind, ScrollLine, begun_at, byte_is, line_after, line_text, scroll_line};
use zed_types::Bytes;
use zed_world::StatData;

/// Columns of a line that a scroll shows.
const SCROLL_COLUMNS: usize = 42;

// The text that is shown of a line of a scroll.
fn shown(line: &[u8]) -> &[u8]
    ensures { result.now ≡ shown line.now }
{
    match scroll_line(line) {
        ScrollLine::Plain(text)
        | ScrollLine::Centred(text)
        | ScrollLine::Choice(_, text)
        | ScrollLine::File(_, text) => text,
    }
}

// Whether a line of text begins at a place.
fn is_text(program: &[u8], at: usize) -> bool
    ensures { result ≡ is_text program.now at }
{
    match begun_at(program, at) {
        LineKind::Message => true,
        _ => false,
    }
}

// Whether a line is passed over that begins at a place: a label, a remark, a name or an empty line.
fn passes(program: &[u8], at: usize) -> bool
    ensures { result ≡ passes program.now at }
{
    match begun_at(program, at) {
        LineKind::Skipped | LineKind::Blank => true,
        _ => false,
    }
}

// Whether the next line above a place that isn't passed over is text.
fn above(program: &[u8], at: usize) -> bool
    ensures { result ≡ above program.now at }
{
    let mut line = at;
    while line > 0 {
        line -= 1;
        if starts_line(program, line) && !passes(program, line) {
            return is_text(program, line);
        }
    }
    false
}

// Whether the next line from a place on that isn't passed over is text.
#[tactic(auto, using(crate::proofs::Below::line_passed, crate::proofs::Below::line_kept))]
fn below(program: &[u8], at: usize) -> bool
    ensures { result ≡ below program.now (length program.now) at }
{
    let mut line = at;
    let mut left = program.len();
    while left > 0 && passes(program, line) {
        left -= 1;
        line = line_after(program, line);
    }
    left > 0 && is_text(program, line)
}

// Whether other text is said with the line at a place.
#[tactic(auto, unfolding(crate::specs::Said::is_said_with_others))]
fn is_said_with_others(program: &[u8], at: usize) -> bool
    ensures { result ≡ is_said_with_others program.now at }
{
    above(program, at) || below(program, line_after(program, at))
}

/// A line of text of too many columns for a scroll, if one begins at a place.
pub(crate) fn long_line(program: &[u8], at: usize) -> Option<What>
    ensures { result ≡ long_line program.now at }
{
    let columns = shown(line_text(program, at)).len();
    if SCROLL_COLUMNS < columns && is_text(program, at) && is_said_with_others(program, at) {
        Some(What::LongLine(at, columns))
    } else {
        None
    }
}

/// A name that a line at a place gives, if it is below the first and that gives none.
pub(crate) fn low_name(program: &[u8], at: usize) -> Option<What>
    ensures { result ≡ low_name program.now at }
{
    if byte_is(program, at, b'@') && !byte_is(program, 0, b'@') {
        Some(What::LowName(at))
    } else {
        None
    }
}

// The label to which the line at a place leads if it is chosen; none where it is no choice, or one of a file.
fn offered(line: &[u8]) -> &[u8]
    ensures { result.now ≡ offered line.now }
{
    match scroll_line(line) {
        ScrollLine::Choice(link, _) => label_of(link),
        ScrollLine::Plain(_) | ScrollLine::Centred(_) | ScrollLine::File(_, _) => &[],
    }
}

// Whether a line of text offers a label that no program has.
fn is_vain(stats: &[StatData], label: &[u8]) -> bool
    ensures { result ≡ is_vain stats.now label.now }
{
    !label.is_empty() && !is_known(stats, label)
}

/// A choice that a line at a place offers, and that leads to a label which no program has.
pub(crate) fn vain_choice(
    alloc: Global,
    stats: &[StatData],
    program: &[u8],
    at: usize,
) -> Result<Option<What>, AllocError>
    ensures { IfOk result (λ what. what ≡ vain_choice stats.now program.now at) }
{
    let label = offered(line_text(program, at));
    if is_vain(stats, label) {
        Ok(Some(What::NoChoice(at, Bytes::from_slice(alloc, label)?)))
    } else {
        Ok(None)
    }
}
