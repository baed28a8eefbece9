//! A playtest with what it came of.
ghost use Rattle.std.specs.Prelude.{◌≡◌, ◌≢◌, ◌+◌, ◌⊎◌, ◌<◌, ◌≤◌, ◌++◌, ◌∷◌, ℕ, [], Err, IfErr, IfOk, List, None, Ok, OnErr, OnOk, drop, false, is_some, length, true, vec_capacity, vec_len};
ghost use Rattle.zed_play.specs.Step.{Steps};
ghost use Rattle.zed_host.specs.Counting.{Counts};
ghost use Rattle.zed_terminal.specs.Devices.{Brings, chances};
ghost use Rattle.zed_terminal.specs.Errors.{is_chance_fault};
ghost use Rattle.zed_terminal.specs.Course.{Answers, IsSupplied, LacksInput, LacksSupply, LacksWords, PlaysKey, StepsOn, chooses, is_over, left_behind, next_by, over_step, point, with_open};
ghost use Rattle.zed_terminal.specs.Overlaid.{closed, or_other, seen, told};

use crate::atlas::Atlas;
use crate::devices::Chance;
use crate::error::TurnError;
use crate::moves::{Choice, Move};
use crate::overlay::{Act, Overlay, Shown, asked, behind, opened};
use crate::{DeviceFailed, Input, Size};
use std::alloc::{AllocError, Global};
use std::mem;
use zed_play::{Chosen, Ending, Key, Play, PlayError, Way};

/// A step that lacks words is tried again with 32 more of them, so many times.
const REFILLS: u32 = 4096;

/// A playtest with what was done in it and the words of chance that came, of which some aren't used
/// yet.
#[derive(Drop)]
pub struct Tape {
    pub play: Play,
    /// What is shown over it.
    pub overlay: Overlay,
    pub keys: Vec<Move>,
    pub words: Vec<u16>,
    /// How many words were used.
    pub used: usize,
    /// How large the terminal is.
    pub size: Size,
}

/// The playtest that the player left, if something is shown of what was said in it.
fn left_behind(left: Play, shown: Option<Shown>) -> Option<Play>
    ensures { result ≡ left_behind shown left }
{
    match shown {
        Some(_) => Some(left),
        None => None,
    }
}

impl Tape {
    /// A playtest before its first step, with words of chance that came already, on a terminal of
    /// this size. It takes no memory.
    pub fn new(play: Play, words: Vec<u16>, size: Size) -> Tape
        ensures play { result.play ≡ play }
        ensures overlay { result.overlay ≡ closed }
        ensures keys { result.keys.items ≡ [] }
        ensures words { result.words ≡ words }
        ensures used { result.used ≡ 0 }
        ensures size { result.size ≡ size }
    {
        let keys = Vec::new(*words.allocator());
        Tape {
            play,
            overlay: Overlay::nothing(),
            keys,
            words,
            used: 0,
            size,
        }
    }

    /// Makes a step by a key where the words that are left are enough; whether they are. Memory comes
    /// only where the step is refused for want of it, with which the playtest has failed.
    fn attempt(&mut self, key: Key) -> Result<bool, TurnError>
        requires within { self.old.used ≤ length self.old.words.items }
        requires going { self.old.play.ending ≡ None }
        ensures made { result ≡ Ok true → (used : ℕ)
            × Steps (Ok used) key self.old.play (drop self.old.used self.old.words.items) self.new.play
            × (self.new.used ≡ self.old.used + used) }
        ensures lacking { result ≡ Ok false
            → LacksWords key self.old.play (drop self.old.used self.old.words.items)
            × (self.new.play ≡ self.old.play) × (self.new.used ≡ self.old.used) }
        ensures err { IfErr result (λ e. e ≡ TurnError.Memory) }
        ensures memory_only_when { OnErr result (Steps (Err PlayError.Memory) key
            self.old.play (drop self.old.used self.old.words.items) self.new.play) }
        ensures words { self.new.words ≡ self.old.words }
        ensures overlay { self.new.overlay ≡ self.old.overlay }
        ensures keys { self.new.keys ≡ self.old.keys }
        ensures size { self.new.size ≡ self.old.size }
        ensures within { self.new.used ≤ length self.new.words.items }
    {
        let left = self.words.split_at(self.used).1;
        match self.play.step(key, left) {
            Ok(used) => {
                self.used += used;
                Ok(true)
            }
            Err(PlayError::NoWords) => Ok(false),
            Err(_) => Err(TurnError::Memory),
        }
    }

    /// Appends the next 32 words of a source of chance. It answers NoWords exactly where that fails.
    fn refill<C: Chance>(&mut self, chance: &mut C) -> Result<(), TurnError>
        ensures ok { OnOk result ((last : List ℕ) × (length last ≡ 32)
            × (self.new.words.items ≡ self.old.words.items ++ last)
            × Brings last (C.to_come chance.old) (C.to_come chance.new)) }
        ensures err { IfErr result (λ e. (e ≡ TurnError.Memory) ⊎ ((e ≡ TurnError.NoWords)
            × (C.to_come chance.new ≡ C.to_come chance.old))) }
        ensures memory_only_when { result ≡ Err TurnError.Memory
            → vec_capacity self.old.words < vec_len self.old.words + 32 }
        ensures failures { Counts (is_chance_fault result)
            (C.chance_failures chance.old) (C.chance_failures chance.new) }
        ensures grown { length self.old.words.items ≤ length self.new.words.items }
        ensures play { self.new.play ≡ self.old.play }
        ensures overlay { self.new.overlay ≡ self.old.overlay }
        ensures keys { self.new.keys ≡ self.old.keys }
        ensures used { self.new.used ≡ self.old.used }
        ensures size { self.new.size ≡ self.old.size }
    {
        match chance.more() {
            Ok(words) => Ok(self.words.extend_from_slice(&words)?),
            Err(DeviceFailed) => Err(TurnError::NoWords),
        }
    }

    /// Makes the step of a key, with as many words of chance as it needs, or 131,072 of them.
    fn supply<C: Chance>(&mut self, chance: &mut C, key: Key) -> Result<(), TurnError>
        requires within { self.old.used ≤ length self.old.words.items }
        requires going { self.old.play.ending ≡ None }
        ensures ok { OnOk result (IsSupplied key
            (point self.old) (chances (C.to_come chance.old) (C.chance_failures chance.old))
            (point self.new) (chances (C.to_come chance.new) (C.chance_failures chance.new))) }
        ensures err { IfErr result (λ e. (e ≡ TurnError.Memory) ⊎ ((e ≡ TurnError.NoWords)
            × LacksSupply key
            (point self.old) (chances (C.to_come chance.old) (C.chance_failures chance.old))
            (point self.new) (chances (C.to_come chance.new) (C.chance_failures chance.new)))) }
        ensures calm { (result ≢ Err TurnError.NoWords)
            → C.chance_failures chance.new ≡ C.chance_failures chance.old }
        ensures overlay { self.new.overlay ≡ self.old.overlay }
        ensures keys { self.new.keys ≡ self.old.keys }
        ensures size { self.new.size ≡ self.old.size }
        ensures within { self.new.used ≤ length self.new.words.items }
    {
        if self.attempt(key)? {
            return Ok(());
        }
        for _ in 0..REFILLS {
            self.refill(chance)?;
            if self.attempt(key)? {
                return Ok(());
            }
        }
        Err(TurnError::NoWords)
    }

    /// Keeps what was done.
    fn keep(&mut self, made: Move) -> Result<(), AllocError>
        ensures keys { OnOk result (self.new.keys.items ≡ self.old.keys.items ++ made ∷ []) }
        ensures memory_only_when { OnErr result
            (vec_capacity self.old.keys < vec_len self.old.keys + 1) }
        ensures play { self.new.play ≡ self.old.play }
        ensures overlay { self.new.overlay ≡ self.old.overlay }
        ensures words { self.new.words ≡ self.old.words }
        ensures used { self.new.used ≡ self.old.used }
        ensures size { self.new.size ≡ self.old.size }
    {
        self.keys.push(made)?;
        Ok(())
    }

    /// The playtest that goes on where the player left by a way for a board that is there. Memory
    /// comes only then.
    fn next<A: Atlas>(&self, alloc: Global, atlas: &A, way: Way) -> Result<Option<Play>, AllocError>
        ensures next { IfOk result (λ next. next
            ≡ next_by (A.world atlas.now) way self.now.play.ending self.now.play) }
        ensures memory_only_when { OnErr result (is_some
            (next_by (A.world atlas.now) way self.now.play.ending self.now.play) ≡ true) }
    {
        match self.play.ending() {
            Some(Ending::Left(board)) => atlas.enter(alloc, &self.play, board, way),
            _ => Ok(None),
        }
    }

    /// Goes on behind a step: with this playtest, if there is one, and with what was said in the
    /// step shown over the board.
    fn go_on(&mut self, next: Option<Play>)
        ensures play { self.new.play ≡ or_other next self.old.play }
        ensures overlay { self.new.overlay ≡ over_step next self.old.play }
        ensures keys { self.new.keys ≡ self.old.keys }
        ensures words { self.new.words ≡ self.old.words }
        ensures used { self.new.used ≡ self.old.used }
        ensures size { self.new.size ≡ self.old.size }
    {
        let shown = opened(0, &self.play);
        let before = match next {
            Some(next) => {
                let left = mem::replace(&mut self.play, next);
                left_behind(left, shown)
            }
            None => None,
        };
        self.overlay = Overlay {
            before,
            shown,
            said: None,
        };
    }

    /// Makes the step of a key of a playtest that goes on, and keeps the key; where the player left,
    /// it goes on over the boards.
    fn step_on<A: Atlas, C: Chance>(
        &mut self,
        alloc: Global,
        atlas: &A,
        chance: &mut C,
        key: Key,
    ) -> Result<(), TurnError>
        requires within { self.old.used ≤ length self.old.words.items }
        requires going { self.old.play.ending ≡ None }
        ensures ok { OnOk result (StepsOn (A.world atlas.now) key
            (point self.old) (chances (C.to_come chance.old) (C.chance_failures chance.old))
            (point self.new) (chances (C.to_come chance.new) (C.chance_failures chance.new))) }
        ensures err { IfErr result (λ e. (e ≡ TurnError.Memory) ⊎ ((e ≡ TurnError.NoWords)
            × LacksSupply key
            (point self.old) (chances (C.to_come chance.old) (C.chance_failures chance.old))
            (point self.new) (chances (C.to_come chance.new) (C.chance_failures chance.new)))) }
        ensures calm { (result ≢ Err TurnError.NoWords)
            → C.chance_failures chance.new ≡ C.chance_failures chance.old }
        ensures within { self.new.used ≤ length self.new.words.items }
    {
        let way = self.play.way(key);
        self.supply(chance, key)?;
        let next = self.next(alloc, atlas, way)?;
        self.go_on(next);
        self.keep(Move::Key(key))?;
        Ok(())
    }

    /// Plays a key, and keeps it. It closes what is shown; behind the end of the playtest it does
    /// nothing else.
    fn play_key<A: Atlas, C: Chance>(
        &mut self,
        alloc: Global,
        atlas: &A,
        chance: &mut C,
        key: Key,
    ) -> Result<(), TurnError>
        requires within { self.old.used ≤ length self.old.words.items }
        ensures ok { OnOk result (PlaysKey (A.world atlas.now) key
            (point self.old) (chances (C.to_come chance.old) (C.chance_failures chance.old))
            (point self.new) (chances (C.to_come chance.new) (C.chance_failures chance.new))) }
        ensures err { IfErr result (λ e. (e ≡ TurnError.Memory) ⊎ ((e ≡ TurnError.NoWords)
            × LacksSupply key
            (point self.old) (chances (C.to_come chance.old) (C.chance_failures chance.old))
            (point self.new) (chances (C.to_come chance.new) (C.chance_failures chance.new)))) }
        ensures calm { (result ≢ Err TurnError.NoWords)
            → C.chance_failures chance.new ≡ C.chance_failures chance.old }
        ensures within { self.new.used ≤ length self.new.words.items }
    {
        if self.play.ending().is_some() {
            self.overlay = Overlay::nothing();
            self.keep(Move::Key(key))?;
            return Ok(());
        }
        self.step_on(alloc, atlas, chance, key)
    }

    /// The playtest that is shown.
    pub(crate) fn seen(&self) -> &Play
        ensures { result.now ≡ seen self.now.overlay self.now.play }
    {
        match &self.overlay.before {
            Some(before) => before,
            None => &self.play,
        }
    }

    /// Shows a scroll in place of the one that is open, or nothing of what was said any more.
    fn show(&mut self, shown: Option<Shown>)
        ensures point { point self.new ≡ with_open shown (point self.old) }
        ensures within { self.old.used ≤ length self.old.words.items
            → self.new.used ≤ length self.new.words.items }
    {
        match shown {
            Some(_) => self.overlay.shown = shown,
            None => {
                self.overlay.shown = None;
                self.overlay.before = None;
            }
        }
    }

    /// What is told of a choice: on a board that the player left nothing hears it any more.
    fn told(&self, chosen: Chosen) -> Chosen
        ensures { result ≡ told self.now.overlay.before chosen }
    {
        match &self.overlay.before {
            Some(_) => Chosen::Gone,
            None => chosen,
        }
    }

    /// Chooses a line of a scroll, keeps that, and shows the next scroll, if there is one.
    fn choose(&mut self, choice: Choice) -> Result<(), TurnError>
        ensures ok { OnOk result (point self.new ≡ chooses choice (point self.old)) }
        ensures err { IfErr result (λ e. e ≡ TurnError.Memory) }
        ensures within { self.old.used ≤ length self.old.words.items
            → self.new.used ≤ length self.new.words.items }
    {
        let next = behind(choice.scroll, self.seen());
        let chosen = self.play.choose(choice.scroll, choice.line)?;
        self.overlay.said = Some(self.told(chosen));
        self.keep(Move::Choice(choice))?;
        self.show(next);
        Ok(())
    }

    /// Answers what is typed: a key is played, unless a scroll is open, in which it moves, as pages
    /// do; Enter chooses, and Escape closes; a size is taken over. What was kept is done again.
    pub(crate) fn answer<A: Atlas, C: Chance>(
        &mut self,
        alloc: Global,
        atlas: &A,
        chance: &mut C,
        input: Input,
    ) -> Result<(), TurnError>
        requires within { self.old.used ≤ length self.old.words.items }
        ensures ok { OnOk result (Answers (A.world atlas.now) input
            (point self.old) (chances (C.to_come chance.old) (C.chance_failures chance.old))
            (point self.new) (chances (C.to_come chance.new) (C.chance_failures chance.new))) }
        ensures err { IfErr result (λ e. (e ≡ TurnError.Memory) ⊎ ((e ≡ TurnError.NoWords)
            × LacksInput input
            (point self.old) (chances (C.to_come chance.old) (C.chance_failures chance.old))
            (point self.new) (chances (C.to_come chance.new) (C.chance_failures chance.new)))) }
        ensures calm { (result ≢ Err TurnError.NoWords)
            → C.chance_failures chance.new ≡ C.chance_failures chance.old }
        ensures within { self.new.used ≤ length self.new.words.items }
    {
        match asked(self.overlay.shown, input, self.seen()) {
            Act::Play(key) => self.play_key(alloc, atlas, chance, key),
            Act::Choose(choice) => self.choose(choice),
            Act::Show(shown) => {
                self.show(shown);
                Ok(())
            }
            Act::Resize(size) => {
                self.size = size;
                Ok(())
            }
        }
    }

    /// Whether it has ended, and nothing that was said in it is shown any more.
    pub(crate) fn is_over(&self) -> bool
        ensures { result ≡ is_over (point self.now) }
    {
        self.play.ending().is_some() && self.overlay.shown.is_none()
    }
}
