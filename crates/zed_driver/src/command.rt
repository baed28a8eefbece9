//! A command: which file it reads next, and what it comes to.
ghost use Rattle.std.specs.Prelude.{◌≡◌, ◌<◌, ◌++◌, ◌∷◌, ℕ, [], List, Option, Some, None, Result, Ok, Err, IfSome, MatchResult, OnOk, is_some, option_map, true};
ghost use Rattle.zed_driver.specs.declared.input.Input.{Input as Given};
ghost use Rattle.zed_driver.specs.Effects.{Effect as Effected};
ghost use Rattle.zed_driver.specs.declared.command.Stop.{Stop as Stopped};
ghost use Rattle.zed_driver.specs.declared.command.Stop.TheVariants.{File, Memory};

use crate::effect::Effect;
use crate::input::Input;
use std::alloc::{AllocError, AllocFailed, Global};
use zed_host::WriteError;

/// Why a command was not carried out.
#[derive(Drop)]
pub enum Stop<R> {
    /// A growth was refused.
    Memory,
    /// A file isn't there or can't be read, or the host failed at the effect.
    File,
    /// The command's own refusal.
    Refused(R),
}

impl<R> From<AllocError> for Stop<R> {
    ghost from_gives = { λ _ stop. stop ≡ Memory };

    fn from(_error: AllocError) -> Stop<R> {
        Stop::Memory
    }
}

impl<R, T: Drop> From<AllocFailed<T>> for Stop<R> {
    ghost from_gives = { λ _ stop. stop ≡ Memory };

    fn from(_error: AllocFailed<T>) -> Stop<R> {
        Stop::Memory
    }
}

impl<R> From<WriteError> for Stop<R> {
    ghost from_gives = { λ _ stop. stop ≡ File };

    fn from(_error: WriteError) -> Stop<R> {
        Stop::File
    }
}

/// A command. It says which file it reads next, is given that file, and so on, until it comes to an
/// effect or a refusal. It calls no host.
///
/// `Wants` and `Comes` say what it does. `Stands`, `next` and `most` are for the proof: what it may
/// be after some files, and that its reading ends.
pub trait Command {
    type Refusal: Drop;

    /// After these files it reads the one of this name.
    ghost Wants: { Self → List Given → List ℕ → Type 0 };

    /// After these files it comes to this.
    ghost Comes: { Self → List Given → Result Effected (Stopped Self.Refusal) → Type 0 };

    /// What a command, as it was at first, may be after these files.
    ghost Stands: { Self → List Given → Self → Type 0 };

    /// The name of the file that it reads next, if it reads one.
    ghost next: { Self → Option (List ℕ) };

    /// How many files it still reads at most.
    ghost most: { Self → ℕ };

    fn at_most(&self) -> usize
        ensures { result ≡ most self.now };

    fn next_file(&self) -> Option<&str>
        ensures next { option_map (λ name. name.now) result ≡ next self.now }
        ensures wants { (c : Self) (files : List Given) → Stands c files self.now
            → IfSome result (λ name. Wants c files name.now) }
        ensures within { IfSome result (λ name. 0 < most self.now) };

    /// Takes the file that it asked for. A refusal ends the command: behind it no file is read. It
    /// is called only where the command stands as it may after some files.
    fn give(&mut self, alloc: Global, file: Input) -> Result<(), Stop<Self::Refusal>>
        requires next { is_some (next self.old) ≡ true }
        requires stands { (c : Self) × (files : List Given) × Stands c files self.old }
        ensures stands { (c : Self) (files : List Given) → Stands c files self.old
            → MatchResult result
            (λ _. Stands c (files ++ file ∷ []) self.new)
            (λ e. Comes c (files ++ file ∷ []) (Err e)) }
        ensures fewer { OnOk result (most self.new < most self.old) };

    /// What it comes to, once it reads no more files.
    fn finish(&mut self, alloc: Global) -> Result<Effect, Stop<Self::Refusal>>
        requires next { next self.old ≡ None }
        requires stands { (c : Self) × (files : List Given) × Stands c files self.old }
        ensures comes { (c : Self) (files : List Given) → Stands c files self.old
            → MatchResult result (λ x. Comes c files (Ok x)) (λ e. Comes c files (Err e)) };
}
