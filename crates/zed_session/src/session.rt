//! The session: a document, its links and its stage.
ghost use Rattle.std.specs.Prelude.{◌≡◌, ◌≢◌, ◌≤◌, ◌<◌, ◌⊎◌, ◌↔◌, ℕ, [], ◌∷◌, ◌++◌, None, Some, Ok, Err, true, false, IfErr, IfOk, OnErr, OnOk, length, map, option_map, remove, slice_get, vec_capacity, vec_len};
ghost use Rattle.zed_types.specs.declared.limits.TheConstants.{READ_BODY_LIMIT};
ghost use Rattle.zed_document.specs.Counts.{NoCountFalls};
ghost use Rattle.zed_editfile.specs.Spelling.{file_text};
ghost use Rattle.zed_link.specs.Ends.{Changed, Took};
ghost use Rattle.zed_link.specs.Writing.{WritesAtMost};
ghost use Rattle.zed_session.specs.Boards.{Answers, ShowsBoard, Starts, world_shown};
ghost use Rattle.zed_host.specs.Counting.{Counts};
ghost use Rattle.zed_session.specs.Devices.{AsksOnce};
ghost use Rattle.zed_session.specs.Play.{PlaysKey, ShowsKey, ShowsStep, goes_on};
ghost use Rattle.zed_session.specs.Refusals.{ShownAfter, ShowsOnce, is_key_fault, is_screen_fault};
ghost use Rattle.zed_session.specs.Links.{PullsOver, RefusesPull, StopsOverLink, ends_at, seen, seen_at, writes_at};

use crate::error::SessionError;
use crate::file::file_of;
use crate::holding::HoldsDocument;
use crate::keys::Keys;
use crate::over::{receive_at, send_at};
use crate::screen::Screen;
use crate::stage::Stage;
use std::alloc::{AllocFailed, Global};
use zed_document::Document;
use zed_link::{Link, Pulled};
use zed_play::Play;

/// A document with the links over which it exchanges its edits, and the stage on which it is shown and played.
#[derive(Drop)]
pub struct Session {
    alloc: Global,
    document: Document,
    links: Vec<Box<dyn Link>>,
    stage: Stage,
}

impl Session {
    /// A session of a document, without links, in which nothing was played yet. It takes no memory.
    pub fn new(
        alloc: Global,
        document: Document,
        screen: Box<dyn Screen>,
        keys: Box<dyn Keys>,
    ) -> Session
        ensures document { result.document ≡ document }
        ensures links { result.links.items ≡ [] }
        ensures screen { result.stage.screen ≡ screen }
        ensures keys { result.stage.keys ≡ keys }
        ensures playing { result.stage.playing ≡ record { playtest = None; kept = None } }
    {
        Session {
            alloc,
            document,
            links: Vec::new(alloc),
            stage: Stage::new(alloc, screen, keys),
        }
    }

    /// Puts a link after the others, and answers its place. If memory runs out, the link is handed
    /// back.
    pub fn attach(&mut self, link: Box<dyn Link>) -> Result<usize, AllocFailed<Box<dyn Link>>>
        ensures result { IfOk result (λ place. place ≡ length self.old.links.items) }
        ensures ok { OnOk result (self.new.links.items ≡ self.old.links.items ++ link ∷ []) }
        ensures back { IfErr result (λ failed. failed.value ≡ link) }
        ensures kept { OnErr result (self.new.links.items ≡ self.old.links.items) }
        ensures memory_only_when { OnErr result
            (vec_capacity self.old.links ≤ vec_len self.old.links) }
        ensures document { self.new.document ≡ self.old.document }
        ensures stage { self.new.stage ≡ self.old.stage }
    {
        let place = self.links();
        self.links.push(link)?;
        Ok(place)
    }

    /// Hands over the link at this place, as it is. Those after it move down by one. NoLink if
    /// there is no link at this place.
    pub fn detach(&mut self, i: usize) -> Result<Box<dyn Link>, SessionError>
        ensures no_link { (result ≡ Err SessionError.NoLink) ↔ (length self.old.links.items ≤ i) }
        ensures ok { OnOk result (self.new.links.items ≡ remove self.old.links.items i) }
        ensures handed { IfOk result (λ link. slice_get self.old.links.items i ≡ Some link) }
        ensures err { IfErr result (λ e. e ≡ SessionError.NoLink) }
        ensures kept { OnErr result (self.new.links.items ≡ self.old.links.items) }
        ensures document { self.new.document ≡ self.old.document }
        ensures stage { self.new.stage ≡ self.old.stage }
    {
        if i >= self.links() {
            return Err(SessionError::NoLink);
        }
        Ok(self.links.remove(i))
    }

    /// How many links there are.
    pub fn links(&self) -> usize
        ensures result { result ≡ length self.now.links.items }
    {
        self.links.len()
    }

    /// The document.
    pub fn document(&self) -> &Document
        ensures result { result.now ≡ self.now.document }
    {
        &self.document
    }

    /// The playtest that was started last, if one was.
    pub fn playtest(&self) -> Option<&Play>
        ensures result { option_map (λ play. play.now) result ≡ self.now.stage.playing.playtest }
    {
        self.stage.playtest()
    }

    /// Shows the board of this number, in the world that the document exports. The limit, at most
    /// 32,767, is the most bytes of a board's body. Refusals, in order: those of the export;
    /// NoBoard if the world has no such board; ScreenFault if the screen failed.
    pub fn show(&mut self, board: usize, limit: usize) -> Result<(), SessionError>
        requires { limit ≤ READ_BODY_LIMIT }
        ensures result { Answers (world_shown limit self.old.document) board
            (ShowsBoard (shown self.old.stage.screen) (shown self.new.stage.screen)) result }
        ensures err { IfErr result (λ e.
            ShownAfter e (shown self.old.stage.screen) (shown self.new.stage.screen)) }
        ensures screen_faults { Counts (is_screen_fault result)
            (screen_failures self.old.stage.screen) (screen_failures self.new.stage.screen) }
        ensures foretold { ShowsOnce result
            (screen_foretells self.old.stage.screen) (screen_foretells self.new.stage.screen) }
        ensures keys { self.new.stage.keys ≡ self.old.stage.keys }
        ensures playing { self.new.stage.playing ≡ self.old.stage.playing }
        ensures document { self.new.document ≡ self.old.document }
        ensures links { self.new.links ≡ self.old.links }
    {
        self.stage.show(&self.document, board, limit)
    }

    /// Starts a playtest, at tick 1, of the board of this number, in the world that the document
    /// exports. The limit, at most 32,767, is the most bytes of a board's body. A key that was kept
    /// is dropped. Refusals, in order: those of the export; NoBoard if the world has no such board;
    /// Memory. A refusal leaves the old playtest and a key that was kept as they were.
    pub fn play(&mut self, board: usize, limit: usize) -> Result<(), SessionError>
        requires { limit ≤ READ_BODY_LIMIT }
        ensures result { Answers (world_shown limit self.old.document) board
            (Starts self.new.stage.playing) result }
        ensures err { OnErr result (self.new.stage.playing ≡ self.old.stage.playing) }
        ensures screen { self.new.stage.screen ≡ self.old.stage.screen }
        ensures keys { self.new.stage.keys ≡ self.old.stage.keys }
        ensures document { self.new.document ≡ self.old.document }
        ensures links { self.new.links ≡ self.old.links }
    {
        self.stage.play(&self.document, board, limit)
    }

    /// Takes a key, makes a step of the playtest by it, shows that, and answers how many words of
    /// chance it used; None if no key is left. Refusals, in order: Over if no playtest is running;
    /// KeyFault if the source of keys failed; NoWords if the step needs more words: then the key is
    /// kept for the next call; Memory, after which the playtest has ended; ScreenFault if the
    /// screen failed: then the step is made.
    pub fn play_key(&mut self, words: &[u16]) -> Result<Option<usize>, SessionError>
        ensures result { PlaysKey result words.now
            self.old.stage.playing (left self.old.stage.keys)
            self.new.stage.playing (left self.new.stage.keys) }
        ensures shown { ShowsKey result self.new.stage.playing.playtest
            (shown self.old.stage.screen) (shown self.new.stage.screen) }
        ensures key_faults { Counts (is_key_fault result)
            (key_failures self.old.stage.keys) (key_failures self.new.stage.keys) }
        ensures screen_faults { Counts (is_screen_fault result)
            (screen_failures self.old.stage.screen) (screen_failures self.new.stage.screen) }
        ensures idle { goes_on self.old.stage.playing.playtest ≡ false
            → self.new.stage ≡ self.old.stage }
        ensures key_foretold { goes_on self.old.stage.playing.playtest ≡ true
            → AsksOnce self.old.stage.playing.kept (is_key_fault result)
            (keys_foretell self.old.stage.keys) (keys_foretell self.new.stage.keys) }
        ensures screen_foretold { ShowsStep result
            (screen_foretells self.old.stage.screen) (screen_foretells self.new.stage.screen) }
        ensures document { self.new.document ≡ self.old.document }
        ensures links { self.new.links ≡ self.old.links }
    {
        self.stage.play_key(words)
    }

    /// Writes the edit file of the document, with all its edits, to the link at this place, and
    /// answers their number. Refusals, in order: NoLink if there is no link at this place; Memory,
    /// with all links as they were; LinkFault if the link failed, or took no byte of a write: then
    /// the link is let go, whatever front of the file it took.
    #[tactic(auto, using(crate::proofs::Places::others_at, crate::proofs::Places::shown_same))]
    pub fn push(&mut self, i: usize) -> Result<usize, SessionError>
        ensures no_link { (result ≡ Err SessionError.NoLink) ↔ (length self.old.links.items ≤ i) }
        ensures result { IfOk result (λ edits. edits ≡ length self.old.document.edits) }
        ensures ok { OnOk result (Changed
            (Took (file_text self.old.document.world self.old.document.edits))
            (ends_at i (map (λ link. ends link) self.old.links.items))
            (ends_at i (map (λ link. ends link) self.new.links.items))) }
        ensures wrote { OnOk result (WritesAtMost
            (length (file_text self.old.document.world self.old.document.edits))
            (writes_at i (map (λ link. writes link) self.old.links.items))
            (writes_at i (map (λ link. writes link) self.new.links.items))) }
        ensures others { OnOk result ((j : ℕ) → j ≢ i
            → slice_get self.new.links.items j ≡ slice_get self.old.links.items j) }
        ensures calm { OnOk result (map (λ link. failed link) self.new.links.items
            ≡ map (λ link. failed link) self.old.links.items) }
        ensures stalls { OnOk result (map (λ link. stalls link) self.new.links.items
            ≡ map (λ link. stalls link) self.old.links.items) }
        ensures reads { OnOk result (map (λ link. reads link) self.new.links.items
            ≡ map (λ link. reads link) self.old.links.items) }
        ensures accepts { OnOk result (map (λ link. accepts link) self.new.links.items
            ≡ map (λ link. accepts link) self.old.links.items) }
        ensures err { IfErr result (λ e. (e ≡ SessionError.NoLink)
            ⊎ (e ≡ SessionError.Memory) ⊎ (e ≡ SessionError.LinkFault)) }
        ensures kept { OnErr result ((result ≢ Err SessionError.LinkFault)
            → self.new.links.items ≡ self.old.links.items) }
        ensures dropped { result ≡ Err SessionError.LinkFault
            → self.new.links.items ≡ remove self.old.links.items i }
        ensures fault { result ≡ Err SessionError.LinkFault
            → slice_get (map (λ link. accepts link) self.old.links.items) i ≡ Some false }
        ensures document { self.new.document ≡ self.old.document }
        ensures stage { self.new.stage ≡ self.old.stage }
    {
        if i >= self.links() {
            return Err(SessionError::NoLink);
        }
        let file = file_of(self.alloc, &self.document)?;
        match send_at(&mut self.links, i, file.as_slice()) {
            Ok(()) => Ok(self.document.edits().len()),
            Err(_) => Err(SessionError::LinkFault),
        }
    }

    /// Reads an edit file of the document's world from the link at this place, to the end of input,
    /// and delivers each of its edits as soon as it is whole. NoLink if there is no link at this
    /// place; then Stale, before any read. After that the first refusal ends it: LinkFault if a
    /// read fails; the refusals of an edit file; Clash; Memory, after which the document may be
    /// stale if a delivery wanted it, but not if the reader alone did; TooManyTurns after 1,048,576
    /// reads that weren't the end. Then the link is let go, and what was delivered before stays.
    /// Except after Memory, no count of looks is lower than before.
    #[tactic(auto, using(crate::proofs::Places::others_at, crate::proofs::Places::shown_same))]
    pub fn pull(&mut self, i: usize) -> Result<Pulled, SessionError>
        ensures no_link { (result ≡ Err SessionError.NoLink) ↔ (length self.old.links.items ≤ i) }
        ensures stale { (result ≡ Err SessionError.Stale)
            ↔ ((i < length self.old.links.items) × (self.old.document.is_stale ≡ true)) }
        ensures ok { IfOk result (λ pulled. PullsOver self.old.document
            (seen_at i (map (λ link. seen (ends link) (reads link)) self.old.links.items))
            (seen_at i (map (λ link. seen (ends link) (reads link)) self.new.links.items))
            (Ok pulled) self.new.document.edits) }
        ensures err { IfErr result (λ e. e ≢ SessionError.NoLink → e ≢ SessionError.Stale
            → RefusesPull self.old.document
            (seen_at i (map (λ link. seen (ends link) (reads link)) self.old.links.items))
            e self.new.document.edits) }
        ensures others { OnOk result ((j : ℕ) → j ≢ i
            → slice_get self.new.links.items j ≡ slice_get self.old.links.items j) }
        ensures calm { OnOk result (map (λ link. failed link) self.new.links.items
            ≡ map (λ link. failed link) self.old.links.items) }
        ensures stalls { OnOk result (map (λ link. stalls link) self.new.links.items
            ≡ map (λ link. stalls link) self.old.links.items) }
        ensures writes { OnOk result (map (λ link. writes link) self.new.links.items
            ≡ map (λ link. writes link) self.old.links.items) }
        ensures accepts { OnOk result (map (λ link. accepts link) self.new.links.items
            ≡ map (λ link. accepts link) self.old.links.items) }
        ensures kept { (result ≡ Err SessionError.NoLink) ⊎ (result ≡ Err SessionError.Stale)
            → (self.new.links.items ≡ self.old.links.items)
            × (self.new.document ≡ self.old.document) }
        ensures dropped { IfErr result (λ e. e ≢ SessionError.NoLink → e ≢ SessionError.Stale
            → self.new.links.items ≡ remove self.old.links.items i) }
        ensures world { self.new.document.world ≡ self.old.document.world }
        ensures sound { (result ≢ Err SessionError.Memory)
            → self.new.document.is_stale ≡ self.old.document.is_stale }
        ensures stale_only_when { self.new.document.is_stale ≢ self.old.document.is_stale
            → StopsOverLink self.old.document
            (ends_at i (map (λ link. ends link) self.old.links.items)) self.new.document.edits }
        ensures visits { (result ≢ Err SessionError.Memory)
            → NoCountFalls self.old.document.counts self.new.document.counts }
        ensures stage { self.new.stage ≡ self.old.stage }
    {
        if i >= self.links() {
            return Err(SessionError::NoLink);
        }
        if self.document.view().is_err() {
            return Err(SessionError::Stale);
        }
        match receive_at(self.alloc, &mut self.links, i, &mut self.document) {
            Ok(pulled) => Ok(pulled),
            Err(failed) => Err(SessionError::from(failed.error)),
        }
    }
}

impl HoldsDocument for Session {
    ghost held = { λ session. session.document };

    ghost holding = { λ session d. record session { document = d } };

    fn document_mut(&mut self) -> &mut Document {
        &mut self.document
    }
}
