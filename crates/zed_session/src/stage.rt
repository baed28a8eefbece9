//! The stage: a screen, a source of keys, and a playtest.
ghost use Rattle.std.specs.Prelude.{◌≡◌, ◌≤◌, None, IfErr, OnErr, false, option_map, true};
ghost use Rattle.zed_host.specs.Counting.{Counts};
ghost use Rattle.zed_types.specs.declared.limits.TheConstants.{READ_BODY_LIMIT};
ghost use Rattle.zed_session.specs.Devices.{AsksOnce};
ghost use Rattle.zed_session.specs.Refusals.{ShownAfter, ShowsOnce, is_key_fault, is_screen_fault};
ghost use Rattle.zed_session.specs.Boards.{Answers, ShowsBoard, Starts, world_shown};
ghost use Rattle.zed_session.specs.Play.{PlaysKey, ShowsKey, ShowsStep, goes_on};

use crate::boards::show_board;
use crate::error::SessionError;
use crate::keys::Keys;
use crate::playing::Playing;
use crate::screen::Screen;
use std::alloc::Global;
use zed_document::Document;
use zed_play::Play;

/// A screen and a source of keys, with what is being played there.
#[derive(Drop)]
pub struct Stage {
    alloc: Global,
    screen: Box<dyn Screen>,
    keys: Box<dyn Keys>,
    playing: Playing,
}

impl Stage {
    /// A stage on which nothing was played yet. It takes no memory.
    pub fn new(alloc: Global, screen: Box<dyn Screen>, keys: Box<dyn Keys>) -> Stage
        ensures screen { result.screen ≡ screen }
        ensures keys { result.keys ≡ keys }
        ensures playing { result.playing ≡ record { playtest = None; kept = None } }
    {
        Stage {
            alloc,
            screen,
            keys,
            playing: Playing::nothing(),
        }
    }

    /// The playtest that was started last, if one was.
    pub fn playtest(&self) -> Option<&Play>
        ensures result { option_map (λ play. play.now) result ≡ self.now.playing.playtest }
    {
        self.playing.playtest()
    }

    /// Shows the board of this number, in the world that the document exports. The limit, at most
    /// 32,767, is the most bytes of a board's body. Refusals, in order: those of the export;
    /// NoBoard if the world has no such board; ScreenFault if the screen failed.
    pub fn show(
        &mut self,
        document: &Document,
        board: usize,
        limit: usize,
    ) -> Result<(), SessionError>
        requires { limit ≤ READ_BODY_LIMIT }
        ensures result { Answers (world_shown limit document.now) board
            (ShowsBoard (shown self.old.screen) (shown self.new.screen)) result }
        ensures err { IfErr result (λ e.
            ShownAfter e (shown self.old.screen) (shown self.new.screen)) }
        ensures screen_faults { Counts (is_screen_fault result)
            (screen_failures self.old.screen) (screen_failures self.new.screen) }
        ensures foretold { ShowsOnce result
            (screen_foretells self.old.screen) (screen_foretells self.new.screen) }
        ensures keys { self.new.keys ≡ self.old.keys }
        ensures playing { self.new.playing ≡ self.old.playing }
    {
        show_board(self.alloc, self.screen.as_mut(), document, board, limit)
    }

    /// Starts a playtest, at tick 1, of the board of this number, in the world that the document
    /// exports. The limit, at most 32,767, is the most bytes of a board's body. A key that was kept
    /// is dropped. Refusals, in order: those of the export; NoBoard if the world has no such board;
    /// Memory. A refusal leaves the old playtest and a key that was kept as they were.
    pub fn play(
        &mut self,
        document: &Document,
        board: usize,
        limit: usize,
    ) -> Result<(), SessionError>
        requires { limit ≤ READ_BODY_LIMIT }
        ensures result { Answers (world_shown limit document.now) board (Starts self.new.playing) result }
        ensures err { OnErr result (self.new.playing ≡ self.old.playing) }
        ensures screen { self.new.screen ≡ self.old.screen }
        ensures keys { self.new.keys ≡ self.old.keys }
    {
        self.playing.start(self.alloc, document, board, limit)
    }

    /// Takes a key, makes a step of the playtest by it, shows that, and answers how many words of
    /// chance it used; None if no key is left. Refusals, in order: Over if no playtest is running;
    /// KeyFault if the source of keys failed; NoWords if the step needs more words: then the key is
    /// kept for the next call; Memory, after which the playtest has ended; ScreenFault if the
    /// screen failed: then the step is made.
    pub fn play_key(&mut self, words: &[u16]) -> Result<Option<usize>, SessionError>
        ensures result { PlaysKey result words.now
            self.old.playing (left self.old.keys) self.new.playing (left self.new.keys) }
        ensures shown { ShowsKey result
            self.new.playing.playtest (shown self.old.screen) (shown self.new.screen) }
        ensures key_faults { Counts (is_key_fault result)
            (key_failures self.old.keys) (key_failures self.new.keys) }
        ensures screen_faults { Counts (is_screen_fault result)
            (screen_failures self.old.screen) (screen_failures self.new.screen) }
        ensures idle { goes_on self.old.playing.playtest ≡ false → self.new ≡ self.old }
        ensures key_foretold { goes_on self.old.playing.playtest ≡ true
            → AsksOnce self.old.playing.kept (is_key_fault result)
            (keys_foretell self.old.keys) (keys_foretell self.new.keys) }
        ensures screen_foretold { ShowsStep result
            (screen_foretells self.old.screen) (screen_foretells self.new.screen) }
    {
        // Asked here too, so that the boxes are seen to be as they were.
        if !self.playing.goes_on() {
            return Err(SessionError::Over);
        }
        self.playing
            .play_key(self.screen.as_mut(), self.keys.as_mut(), words)
    }
}
