//! What is shown over a playtest: what was said in its last step.
ghost use Rattle.std.specs.Prelude.{◌≡◌, ◌+◌, None, slice_get};
ghost use Rattle.zed_oop_syntax.specs.Scroll.{is_choice};
ghost use Rattle.zed_terminal.specs.Overlaid.{asked, asked_alone, asked_in, behind, closed, down, entered, is_choice_at, lines_of, moved, opened, paged, up};

use crate::input::{Input, Page, Size};
use crate::moves::{Choice, Move};
use std::cmp;
use zed_oop_syntax::{ScrollLine, scroll_line};
use zed_play::{Chosen, Key, Play};
use zed_types::Bytes;

/// The scroll that is open, of those of a step, and the line in its middle, both counted from 0.
#[derive(Clone, Copy, PartialEq, Eq)]
pub struct Shown {
    pub scroll: usize,
    pub line: usize,
}

/// What is shown over a playtest.
#[derive(Drop)]
pub struct Overlay {
    /// The playtest of the board that the player left, while what was said there is shown.
    pub before: Option<Play>,
    /// The scroll that is open, if one is.
    pub shown: Option<Shown>,
    /// What came of the last choice, if no key was played since.
    pub said: Option<Chosen>,
}

/// What is to be done for what is typed.
#[derive(Clone, Copy, PartialEq, Eq)]
pub enum Act {
    /// A key is played.
    Play(Key),
    /// A line is chosen.
    Choose(Choice),
    /// This scroll is shown, or none any more.
    Show(Option<Shown>),
    /// The terminal has this size.
    Resize(Size),
}

/// So many lines are a page.
const PAGE: usize = 14;

/// A scroll of the last step of a playtest, from its first line on, if there is one of this number.
pub(crate) fn opened(scroll: usize, play: &Play) -> Option<Shown>
    ensures { result ≡ opened scroll play.now }
{
    match play.scrolls().get(scroll) {
        Some(_) => Some(Shown { scroll, line: 0 }),
        None => None,
    }
}

/// The scroll behind one of this number, if there is one.
pub(crate) fn behind(scroll: usize, play: &Play) -> Option<Shown>
    ensures { result ≡ behind scroll play.now }
{
    if scroll < play.scrolls().len() {
        opened(scroll + 1, play)
    } else {
        None
    }
}

/// The lines of the scroll that is open.
fn lines_of(shown: Shown, play: &Play) -> &[Bytes]
    ensures { result.now ≡ lines_of shown play.now }
{
    match play.scrolls().get(shown.scroll) {
        Some(scroll) => scroll.lines.as_slice(),
        None => &[],
    }
}

fn is_choice(line: &[u8]) -> bool
    ensures { result ≡ is_choice line.now }
{
    match scroll_line(line) {
        ScrollLine::Choice(_, _) | ScrollLine::File(_, _) => true,
        ScrollLine::Plain(_) | ScrollLine::Centred(_) => false,
    }
}

/// Whether the line in the middle is a choice.
fn is_choice_at(shown: Shown, play: &Play) -> bool
    ensures { result ≡ is_choice_at shown play.now }
{
    match lines_of(shown, play).get(shown.line) {
        Some(line) => is_choice(line.as_slice()),
        None => false,
    }
}

impl Shown {
    /// So many lines further up, or at the first one.
    fn up(self, count: usize) -> Shown
        ensures { result ≡ up count self }
    {
        Shown {
            scroll: self.scroll,
            line: self.line.saturating_sub(count),
        }
    }

    /// So many lines further down, or at the last one of so many.
    fn down(self, count: usize, lines: usize) -> Shown
        ensures { result ≡ down count lines self }
    {
        Shown {
            scroll: self.scroll,
            line: cmp::min(self.line.saturating_add(count), lines.saturating_sub(1)),
        }
    }

    /// Where a key leads to: up and down go by one line, and no other key goes anywhere.
    fn moved(self, key: Key, play: &Play) -> Shown
        ensures { result ≡ moved key play.now self }
    {
        match key {
            Key::North => self.up(1),
            Key::South => self.down(1, lines_of(self, play).len()),
            _ => self,
        }
    }

    fn paged(self, page: Page, play: &Play) -> Shown
        ensures { result ≡ paged page play.now self }
    {
        match page {
            Page::Up => self.up(PAGE),
            Page::Down => self.down(PAGE, lines_of(self, play).len()),
        }
    }

    /// Enter chooses the line in the middle, or else goes on to the next scroll.
    fn entered(self, play: &Play) -> Act
        ensures { result ≡ entered play.now self }
    {
        if is_choice_at(self, play) {
            Act::Choose(Choice {
                scroll: self.scroll,
                line: self.line,
            })
        } else {
            Act::Show(behind(self.scroll, play))
        }
    }

    /// What is to be done for what is typed where this is open.
    fn asked(self, input: Input, play: &Play) -> Act
        ensures { result ≡ asked_in self input play.now }
    {
        match input {
            Input::Pressed(key) => Act::Show(Some(self.moved(key, play))),
            Input::Paged(page) => Act::Show(Some(self.paged(page, play))),
            Input::Entered => self.entered(play),
            Input::Escaped => Act::Show(behind(self.scroll, play)),
            Input::Resized(size) => Act::Resize(size),
            Input::Kept(Move::Key(key)) => Act::Play(key),
            Input::Kept(Move::Choice(choice)) => Act::Choose(choice),
        }
    }
}

/// What is to be done for what is typed where no scroll is open.
fn asked_alone(input: Input) -> Act
    ensures { result ≡ asked_alone input }
{
    match input {
        Input::Pressed(key) | Input::Kept(Move::Key(key)) => Act::Play(key),
        Input::Paged(_) | Input::Entered | Input::Escaped => Act::Show(None),
        Input::Resized(size) => Act::Resize(size),
        Input::Kept(Move::Choice(choice)) => Act::Choose(choice),
    }
}

/// What is to be done for what is typed, where this is open of a playtest that is shown.
pub(crate) fn asked(shown: Option<Shown>, input: Input, play: &Play) -> Act
    ensures { result ≡ asked shown input play.now }
{
    match shown {
        Some(shown) => shown.asked(input, play),
        None => asked_alone(input),
    }
}

impl Overlay {
    /// Nothing.
    pub(crate) fn nothing() -> Overlay
        ensures { result ≡ closed }
    {
        Overlay {
            before: None,
            shown: None,
            said: None,
        }
    }
}
