//! Commands that open one edit file, do something with its edits, and write it again.
ghost use Rattle.std.specs.Prelude.{◌≡◌, ◌⊎◌, ℕ, Err, IfOk, List, MatchResult, None, Ok, Option, Result, Some, false, length};
ghost use Rattle.zed_op.specs.declared.op.Edit.{Edit as TheEdit};
ghost use Rattle.zed_driver.specs.declared.command.Stop.{Stop as Stopped};
ghost use Rattle.zed_driver.specs.declared.command.Stop.TheVariants.{Memory};
ghost use Rattle.zed_driver.specs.declared.input.Input.TheVariants.{Bytes};
ghost use Rattle.zed_driver.specs.Effects.{writes};
ghost use Rattle.zed_editfile.specs.Spelling.{file_text};
ghost use Rattle.zed_refusal.specs.declared.reason.Reason.{Reason as TheReason};
ghost use Rattle.zed_refusal.specs.Stops.{stop_as};
ghost use Rattle.zed_files.specs.Files.{WantsMemory};
ghost use Rattle.zed_files.specs.Lines.{edits_line};
ghost use Rattle.zed_files.specs.Opened.{FileEdits};
ghost use Rattle.zed_files.specs.Rewrites.{ActionLacks, IsRewritten, OpensFile};

use crate::refusal::edits_told;
use crate::settling::opened;
use std::alloc::{AllocError, Global};
use zed_document::Document;
use zed_driver::{Command, Effect, Input, Stop};
use zed_editfile::write_file;
use zed_refusal::Reason;

/// What a command does with the edits of a file.
pub trait Action: Drop {
    type Refusal: Drop;

    /// Its refusal for a reason that commands share.
    ghost refusal_for: { TheReason → Self.Refusal };

    /// Why it is refused before its file is read, if it is.
    ghost refuses: { Self → Option Self.Refusal };

    /// A document of this world, with these edits, comes to have these, or it is refused.
    ghost Does: { Self → FileEdits → Result (List TheEdit) (Stopped Self.Refusal) → Type 0 };

    /// It may take memory on a document of this world, with these edits.
    ghost MayTake: { Self → FileEdits → Type 0 };

    fn refused_for(reason: Reason) -> Self::Refusal
        ensures { result ≡ refusal_for reason };

    fn refused(&self) -> Option<Self::Refusal>
        ensures { result ≡ refuses self.now };

    fn act(&self, alloc: Global, document: &mut Document) -> Result<(), Stop<Self::Refusal>>
        requires sound { document.old.is_stale ≡ false }
        requires wanted { refuses self.now ≡ None }
        ensures does { MatchResult result
            (λ _. Does self.now (document.old.world, document.old.edits) (Ok document.new.edits))
            (λ e. ((e ≡ Memory) × MayTake self.now (document.old.world, document.old.edits))
            ⊎ Does self.now (document.old.world, document.old.edits) (Err e)) }
        ensures world { document.new.world ≡ document.old.world };
}

// The same stop, with the refusal of an action.
fn stopped<A: Action>(stop: Stop<Reason>) -> Stop<A::Refusal>
    ensures { result ≡ stop_as A.refusal_for stop }
{
    match stop {
        Stop::Memory => Stop::Memory,
        Stop::File => Stop::File,
        Stop::Refused(reason) => Stop::Refused(A::refused_for(reason)),
    }
}

// The document of a file, as it was read. The bytes are dropped then.
fn opened_file(alloc: Global, file: Input) -> Result<Document, Stop<Reason>>
    ensures opened { MatchResult result
        (λ d. OpensFile None file (Ok (d.world, d.edits)))
        (λ e. ((e ≡ Memory)
        × ((bytes : List ℕ) × (file ≡ Bytes bytes) × WantsMemory None bytes))
        ⊎ OpensFile None file (Err e)) }
    ensures sound { IfOk result (λ d. d.is_stale ≡ false) }
{
    match file {
        Input::Bytes(bytes) => opened(alloc, None, bytes.as_slice()),
        Input::Missing => Err(Stop::File),
        Input::Failed => Err(Stop::File),
    }
}

// A file is written with the edits of a document, and a line that counts them is printed.
fn rewritten(alloc: Global, file: &str, document: &Document) -> Result<Effect, AllocError>
    ensures { IfOk result (λ x. x ≡ writes file.now
        (file_text document.now.world document.now.edits)
        (edits_line (length document.now.edits))) }
{
    let line = edits_told(alloc, document.edits().len())?;
    match write_file(alloc, document.world(), document.edits()) {
        Ok(bytes) => Effect::writes(alloc, file, bytes, line.as_str()),
        // the only refusal is Memory
        Err(_) => Err(AllocError),
    }
}

// What comes of the document of a file by an action. Memory is lacking only where the action may take
// some, or was done.
fn acted<A: Action>(
    alloc: Global,
    file: &str,
    action: &A,
    document: Document,
) -> Result<Effect, Stop<A::Refusal>>
    requires sound { document.is_stale ≡ false }
    requires wanted { A.refuses action.now ≡ None }
    ensures { MatchResult result
        (λ x. IsRewritten (A.Does action.now) A.refusal_for file.now
        (Ok (document.world, document.edits)) (Ok x))
        (λ e. ((e ≡ Memory)
        × ActionLacks (A.MayTake action.now) (A.Does action.now) (document.world, document.edits))
        ⊎ IsRewritten (A.Does action.now) A.refusal_for file.now
        (Ok (document.world, document.edits)) (Err e)) }
{
    let mut document = document;
    action.act(alloc, &mut document)?;
    Ok(rewritten(alloc, file, &document)?)
}

/// A command that opens one edit file, does something with its edits, and writes it again, with a
/// line that counts them. The file's bytes are dropped before the action is done.
#[derive(Drop)]
pub struct Rewrites<'a, A: Action> {
    file: &'a str,
    action: A,
    /// The document of the file, once it was read.
    document: Option<Document>,
}

impl<'a, A: Action> Rewrites<'a, A> {
    /// Before the file was read.
    pub fn new(file: &'a str, action: A) -> Rewrites<'a, A>
        ensures file { result.file ≡ file.entry }
        ensures action { result.action ≡ action }
        ensures document { result.document ≡ None }
    {
        Rewrites {
            file,
            action,
            document: None,
        }
    }
}

impl<'a, A: Action> Command for Rewrites<'a, A> {
    ghost use Rattle.zed_files.specs.Rewrites.{RewritesCome, RewritesStand, RewritesWant, files_left, next_file as next_of};

    type Refusal = A::Refusal;

    ghost Wants = { λ c. RewritesWant (A.refuses c.action) c.file.now };

    ghost Comes = { λ c. RewritesCome (A.refuses c.action) (A.MayTake c.action) (A.Does c.action) A.refusal_for c.file.now };

    ghost Stands = { λ c files s. (s.file ≡ c.file) × (s.action ≡ c.action)
        × RewritesStand (A.refuses c.action) files s.document };

    ghost next = { λ c. next_of (A.refuses c.action) c.file.now c.document };

    ghost most = { λ c. files_left c.document };

    fn at_most(&self) -> usize {
        match &self.document {
            Some(_) => 0,
            None => 1,
        }
    }

    fn next_file(&self) -> Option<&str> {
        if self.action.refused().is_some() || self.document.is_some() {
            None
        } else {
            Some(self.file)
        }
    }

    fn give(&mut self, alloc: Global, file: Input) -> Result<(), Stop<A::Refusal>> {
        match opened_file(alloc, file) {
            Ok(document) => {
                self.document = Some(document);
                Ok(())
            }
            Err(stop) => Err(stopped::<A>(stop)),
        }
    }

    fn finish(&mut self, alloc: Global) -> Result<Effect, Stop<A::Refusal>> {
        if let Some(refusal) = self.action.refused() {
            return Err(Stop::Refused(refusal));
        }
        match self.document.take() {
            Some(document) => acted(alloc, self.file, &self.action, document),
            // it is finished once its file was read
            None => Err(Stop::Memory),
        }
    }
}
