//! Commands that read edit files one after the other, and tell something of their set of edits.
ghost use Rattle.std.specs.Prelude.{◌≡◌, ◌⊎◌, ◌++◌, [], ◌∷◌, ℕ, Err, IfOk, IfSome, List, MatchResult, None, Ok, OnErr, Option, Result, Some, false, length, map};
ghost use Rattle.zed_op.specs.declared.op.Edit.{Edit as TheEdit};
ghost use Rattle.zed_op.specs.Set.{AllFit};
ghost use Rattle.zed_driver.specs.declared.command.Stop.{Stop as Stopped};
ghost use Rattle.zed_driver.specs.declared.command.Stop.TheVariants.{Memory};
ghost use Rattle.zed_driver.specs.declared.input.Input.{Input as Given};
ghost use Rattle.zed_driver.specs.Effects.{Effect as Effected};
ghost use Rattle.zed_refusal.specs.declared.reason.Reason.{Reason as TheReason};
ghost use Rattle.zed_files.specs.Collected.{CameInto, world_in};
ghost use Rattle.zed_files.specs.Files.{WantsMemory};
ghost use Rattle.zed_files.specs.Gathers.{AreAll, Gathered as HasGathered, Gathers, GathersTo};
ghost use Rattle.zed_files.specs.Texts.{texts_of};

use crate::gathering::Gathered;
use crate::settling::{read_next, settled};
use std::alloc::{AllocError, Global};
use zed_document::{Document, deliveries_come_to_sets};
use zed_driver::{Command, Effect, Input, Stop};
use zed_refusal::Reason;

/// What a command tells of a set of edits.
pub trait Telling: Drop {
    /// What it comes to by this set: an effect, or a refusal.
    ghost tells: { Self → List TheEdit → Result Effected (Stopped TheReason) };

    fn tell(&self, alloc: Global, document: &Document) -> Result<Effect, Stop<Reason>>
        requires { document.now.is_stale ≡ false }
        ensures { MatchResult result
            (λ x. tells self.now document.now.edits ≡ Ok x)
            (λ e. (e ≡ Memory) ⊎ (tells self.now document.now.edits ≡ Err e)) };
}

// Takes one file more. Tells why a command stops at it, if it does.
fn taken(
    alloc: Global,
    gathered: &mut Gathered,
    file: Input,
) -> Result<Option<Stop<Reason>>, AllocError>
    requires sound { gathered.old.clash ≡ None
        → IfSome gathered.old.feed (λ f. f.document.is_stale ≡ false) }
    ensures took { (es : List TheEdit) → AllFit es
        → CameInto es gathered.old.feed gathered.old.clash
        → IfOk result (λ refusal. (more : List TheEdit) × AllFit more
        × Gathers (world_in gathered.old.feed) (file ∷ []) more (world_in gathered.new.feed) refusal
        × CameInto (es ++ more) gathered.new.feed gathered.new.clash) }
    ensures memory_only_when { OnErr result ((bytes : List ℕ) × (file ≡ Input.Bytes bytes)
        × WantsMemory (world_in gathered.old.feed) bytes) }
{
    match file {
        Input::Bytes(bytes) => read_next(alloc, gathered, bytes.as_slice()),
        Input::Missing => Ok(Some(Stop::File)),
        Input::Failed => Ok(Some(Stop::File)),
    }
}

/// A command that reads edit files, and tells something of the set of their edits. The edits of each
/// file are delivered as it is read, and its bytes are dropped then. Behind a file that is refused
/// none is read.
#[derive(Drop)]
pub struct OfFiles<'a, T: Telling> {
    names: &'a [&'a str],
    /// How many of them were read.
    count: usize,
    gathered: Gathered,
    /// Why the last one is refused, if it is.
    refusal: Option<Stop<Reason>>,
    telling: T,
}

impl<'a, T: Telling> OfFiles<'a, T> {
    /// Before a file was read.
    pub fn new(alloc: Global, names: &'a [&'a str], telling: T) -> OfFiles<'a, T>
        ensures names { result.names ≡ names.entry }
        ensures telling { result.telling ≡ telling }
        ensures count { result.count ≡ 0 }
        ensures gathered { HasGathered [] result.gathered.feed result.gathered.clash result.refusal }
    {
        OfFiles {
            names,
            count: 0,
            gathered: Gathered::new(alloc, None),
            refusal: None,
            telling,
        }
    }

    // The document of the files, once all were read or one is refused; or what comes first: a clash of two edits, or the refusal of a file, or
    // that there is none.
    fn settle(&mut self) -> Result<Document, Stop<Reason>>
        ensures set { (files : List Given)
            → HasGathered files self.old.gathered.feed self.old.gathered.clash self.old.refusal
            → AreAll (texts_of self.old.names.now) files self.old.refusal
            → MatchResult result
            (λ d. GathersTo (texts_of self.old.names.now) files (Ok d.edits))
            (λ e. GathersTo (texts_of self.old.names.now) files (Err e)) }
        ensures sound { (files : List Given)
            → HasGathered files self.old.gathered.feed self.old.gathered.clash self.old.refusal
            → IfOk result (λ d. d.is_stale ≡ false) }
        ensures telling { self.new.telling ≡ self.old.telling }
    {
        deliveries_come_to_sets();
        settled(
            self.gathered.feed.take(),
            self.gathered.clash,
            self.refusal.take(),
        )
    }
}

impl<'a, T: Telling> Command for OfFiles<'a, T> {
    ghost use Rattle.std.specs.Prelude.{length};
    ghost use Rattle.zed_files.specs.Gathers.{Gathered as HasGathered};
    ghost use Rattle.zed_files.specs.Tells.{FilesCome, FilesWant, left_of, next_of};
    ghost use Rattle.zed_files.specs.Texts.{texts_of};

    type Refusal = Reason;

    ghost Wants = { λ c. FilesWant (texts_of c.names.now) };

    ghost Comes = { λ c. FilesCome (T.tells c.telling) (texts_of c.names.now) };

    ghost Stands = { λ c files s. (s.names ≡ c.names) × (s.telling ≡ c.telling) × (s.count ≡ length files)
        × HasGathered files s.gathered.feed s.gathered.clash s.refusal };

    ghost next = { λ c. next_of (texts_of c.names.now) c.count c.refusal };

    ghost most = { λ c. left_of (texts_of c.names.now) c.count };

    fn at_most(&self) -> usize {
        self.names.len().saturating_sub(self.count)
    }

    fn next_file(&self) -> Option<&str> {
        if self.refusal.is_some() {
            return None;
        }
        match self.names.get(self.count) {
            Some(name) => Some(*name),
            None => None,
        }
    }

    fn give(&mut self, alloc: Global, file: Input) -> Result<(), Stop<Reason>> {
        match taken(alloc, &mut self.gathered, file) {
            Ok(refusal) => {
                self.refusal = refusal;
                self.count += 1;
                Ok(())
            }
            Err(_) => Err(Stop::Memory),
        }
    }

    fn finish(&mut self, alloc: Global) -> Result<Effect, Stop<Reason>> {
        let document = self.settle()?;
        self.telling.tell(alloc, &document)
    }
}
