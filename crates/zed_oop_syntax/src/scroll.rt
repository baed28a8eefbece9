//! Lines of scrolls, and the names of programs.
ghost use Rattle.std.specs.Prelude.{◌≡◌, ◌∷◌, position};
ghost use Rattle.zed_oop_syntax.specs.Scroll.{Shows, before_semicolon, behind_semicolon, is_semicolon, name_of};

use crate::labels::byte_is;
use crate::lines::line_text;

/// How a line of a scroll is shown.
#[derive(Clone, Copy)]
pub enum ScrollLine<'a> {
    /// As it was said.
    Plain(&'a [u8]),
    /// `$TEXT`: the text, which is centred.
    Centred(&'a [u8]),
    /// `!LABEL;TEXT`: the label that it sends, and the text. Without a `;` the whole line is shown.
    Choice(&'a [u8], &'a [u8]),
    /// `!-FILE;TEXT`: the file that it names, and the text.
    File(&'a [u8], &'a [u8]),
}

fn semicolon(bytes: &[u8]) -> Option<usize>
    ensures { result ≡ position is_semicolon bytes.now }
{
    bytes.iter().position(|b| *b == b';')
}

/// What is before the first `;`.
fn before_semicolon(bytes: &[u8]) -> &[u8]
    ensures { result.now ≡ before_semicolon bytes.now }
{
    match semicolon(bytes) {
        Some(k) => &bytes[..k],
        None => bytes,
    }
}

/// What is behind the first `;`.
fn behind_semicolon(bytes: &[u8]) -> &[u8]
    ensures { result.now ≡ behind_semicolon bytes.now }
{
    match semicolon(bytes) {
        Some(k) => &bytes[k + 1..],
        None => bytes,
    }
}

/// The choice that a line is, with what stands behind its `!`.
fn choice<'a>(line: &'a [u8], rest: &'a [u8]) -> ScrollLine<'a>
    requires { line.now ≡ 33 ∷ rest.now }
    ensures { Shows line.now result }
{
    let link = before_semicolon(rest);
    let text = behind_semicolon(line);
    match link.split_first() {
        Some((first, file)) => {
            if *first == b'-' {
                ScrollLine::File(file, text)
            } else {
                ScrollLine::Choice(link, text)
            }
        }
        None => ScrollLine::Choice(link, text),
    }
}

/// How a line of a scroll is shown.
pub fn scroll_line(line: &[u8]) -> ScrollLine
    ensures result { Shows line.now result }
{
    match line.split_first() {
        Some((first, rest)) => match *first {
            b'$' => ScrollLine::Centred(rest),
            b'!' => choice(line, rest),
            _ => ScrollLine::Plain(line),
        },
        None => ScrollLine::Plain(line),
    }
}

/// The name of a program that begins with `@`: what is behind it on its line. Other programs have
/// an empty name.
#[tactic(auto, unfolding(crate::specs::Scroll::name_of))]
pub fn name_of(program: &[u8]) -> &[u8]
    ensures result { result.now ≡ name_of program.now }
{
    if byte_is(program, 0, b'@') {
        line_text(program, 1)
    } else {
        &[]
    }
}
