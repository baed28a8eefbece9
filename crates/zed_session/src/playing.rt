//! The playtest of a stage.
ghost use Rattle.std.specs.Prelude.{◌≡◌, ◌≤◌, None, IfErr, IfOk, OnErr, OnOk, false, is_err, is_some, option_map, true};
ghost use Rattle.zed_host.specs.Counting.{Counts};
ghost use Rattle.zed_types.specs.declared.limits.TheConstants.{READ_BODY_LIMIT};
ghost use Rattle.zed_session.specs.Boards.{Answers, Starts, world_shown};
ghost use Rattle.zed_session.specs.Devices.{AsksOnce, Foretold};
ghost use Rattle.zed_session.specs.Play.{MakesStep, PlaysKey, ShowsKey, ShowsPlay, ShowsStep, Takes, goes_on, kept_after};
ghost use Rattle.zed_session.specs.Refusals.{is_key_fault, is_screen_fault};

use crate::boards::playtest_of;
use crate::error::SessionError;
use crate::keys::{Keys, next_of};
use crate::screen::{Screen, show_on};
use std::alloc::Global;
use zed_document::Document;
use zed_play::{Key, Play, PlayError};
use zed_screen::draw_play;

/// The playtest that was started last, if one was, and the key that waits for its next step, if one does.
#[derive(Drop)]
pub struct Playing {
    playtest: Option<Play>,
    kept: Option<Key>,
}

impl Playing {
    /// Nothing was played yet. It takes no memory.
    pub fn nothing() -> Playing
        ensures { result ≡ record { playtest = None; kept = None } }
    {
        Playing {
            playtest: None,
            kept: None,
        }
    }

    /// The playtest that was started last, if one was.
    pub fn playtest(&self) -> Option<&Play>
        ensures result { option_map (λ play. play.now) result ≡ self.now.playtest }
    {
        self.playtest.as_ref()
    }

    /// Starts a playtest, at tick 1, of the board of this number, in the world that the document
    /// exports. The limit, at most 32,767, is the most bytes of a board's body. A key that was kept
    /// is dropped. Refusals, in order: those of the export; NoBoard if the world has no such board;
    /// Memory. A refusal leaves the old playtest and a key that was kept as they were.
    pub fn start(
        &mut self,
        alloc: Global,
        document: &Document,
        board: usize,
        limit: usize,
    ) -> Result<(), SessionError>
        requires { limit ≤ READ_BODY_LIMIT }
        ensures result { Answers (world_shown limit document.now) board (Starts self.new) result }
        ensures err { OnErr result (self.new ≡ self.old) }
    {
        let play = playtest_of(alloc, document, board, limit)?;
        self.playtest = Some(play);
        self.kept = None;
        Ok(())
    }

    /// Whether a playtest was started and hasn't ended.
    pub(crate) fn goes_on(&self) -> bool
        ensures result { result ≡ goes_on self.now.playtest }
    {
        match &self.playtest {
            Some(play) => play.ending().is_none(),
            None => false,
        }
    }

    /// Makes a step of the playtest, and keeps the key if the words run out.
    pub(crate) fn step(&mut self, key: Key, words: &[u16]) -> Result<usize, PlayError>
        requires { goes_on self.old.playtest ≡ true }
        ensures result { MakesStep result key words.now self.old.playtest self.new.playtest }
        ensures kept { self.new.kept ≡ kept_after result key }
    {
        let answer = match &mut self.playtest {
            Some(play) => play.step(key, words),
            None => Err(PlayError::Over),
        };
        self.kept = match answer {
            Err(PlayError::NoWords) => Some(key),
            _ => None,
        };
        answer
    }

    /// The key that was kept, or else the next one of a source.
    fn take_key(&mut self, keys: &mut dyn Keys) -> Result<Option<Key>, SessionError>
        ensures ok { IfOk result (λ key.
            Takes self.old.kept (left keys.old) key (left keys.new)) }
        ensures playing { self.new ≡ record self.old { kept = None } }
        ensures none_kept { OnErr result (self.old.kept ≡ None) }
        ensures err { IfErr result (λ e. e ≡ SessionError.KeyFault) }
        ensures left { OnErr result (left keys.new ≡ left keys.old) }
        ensures failures { Counts (is_key_fault result)
            (key_failures keys.old) (key_failures keys.new) }
        ensures foretold { AsksOnce self.old.kept (is_key_fault result)
            (keys_foretell keys.old) (keys_foretell keys.new) }
    {
        match self.kept.take() {
            Some(key) => Ok(Some(key)),
            None => next_of(keys),
        }
    }

    /// Shows the playtest that was started on a screen.
    fn show(&self, screen: &mut dyn Screen) -> Result<(), SessionError>
        requires { is_some self.now.playtest ≡ true }
        ensures ok { OnOk result (ShowsPlay
            self.now.playtest (shown screen.old) (shown screen.new)) }
        ensures told { OnErr result (is_some (shown screen.new) ≡ is_some (shown screen.old)) }
        ensures err { IfErr result (λ e. e ≡ SessionError.ScreenFault) }
        ensures failures { Counts (is_screen_fault result)
            (screen_failures screen.old) (screen_failures screen.new) }
        ensures foretold { Foretold (is_err result)
            (screen_foretells screen.old) (screen_foretells screen.new) }
    {
        match &self.playtest {
            Some(play) => show_on(screen, &draw_play(play)),
            None => Ok(()),
        }
    }

    /// Takes a key, makes a step of the playtest by it, shows that on a screen, and answers how
    /// many words of chance it used; None if no key is left. Refusals, in order: Over if no
    /// playtest is running; KeyFault if the source of keys failed; NoWords if the step needs more
    /// words: then the key is kept for the next call; Memory, after which the playtest has ended;
    /// ScreenFault if the screen failed: then the step is made.
    pub fn play_key(
        &mut self,
        screen: &mut dyn Screen,
        keys: &mut dyn Keys,
        words: &[u16],
    ) -> Result<Option<usize>, SessionError>
        ensures result { PlaysKey result words.now
            self.old (left keys.old) self.new (left keys.new) }
        ensures shown { ShowsKey result self.new.playtest (shown screen.old) (shown screen.new) }
        ensures key_faults { Counts (is_key_fault result)
            (key_failures keys.old) (key_failures keys.new) }
        ensures screen_faults { Counts (is_screen_fault result)
            (screen_failures screen.old) (screen_failures screen.new) }
        ensures idle { goes_on self.old.playtest ≡ false
            → (self.new ≡ self.old) × (screen.new ≡ screen.old) × (keys.new ≡ keys.old) }
        ensures key_foretold { goes_on self.old.playtest ≡ true
            → AsksOnce self.old.kept (is_key_fault result)
            (keys_foretell keys.old) (keys_foretell keys.new) }
        ensures screen_foretold { ShowsStep result
            (screen_foretells screen.old) (screen_foretells screen.new) }
    {
        if !self.goes_on() {
            return Err(SessionError::Over);
        }
        let Some(key) = self.take_key(keys)? else {
            return Ok(None);
        };
        let used = self.step(key, words)?;
        self.show(screen)?;
        Ok(Some(used))
    }
}
