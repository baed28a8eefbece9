//! The command `new`: the edit file of a new world.
ghost use Rattle.std.specs.Prelude.{◌≡◌, ◌∷◌, ◌⊎◌, [], ℕ, Err, IfErr, IfOk, List, MatchOption, MatchResult, None, Ok};
ghost use Rattle.zed_types.specs.declared.limits.TheConstants.{READ_BODY_LIMIT as most};
ghost use Rattle.zed_world.specs.Canonical.{IsCanonical};
ghost use Rattle.zed_world.specs.Reading.{Gives, world_at};
ghost use Rattle.zed_world.specs.Writing.{written};
ghost use Rattle.zed_driver.specs.declared.command.Stop.TheVariants.{Memory};
ghost use Rattle.zed_driver.specs.Effects.{writes};
ghost use Rattle.zed_files.specs.Lines.{edits_line};
ghost use Rattle.zed_files.specs.Texts.{text_in};
ghost use Rattle.zed_export.specs.Fresh.{fresh_world};
ghost use Rattle.zed_refusal.specs.Stops.{world_stop};
ghost use Rattle.cmd_edit.specs.Fresh.{MayLack, MayWantMemory, first_file, made_by, name_or_none, rewritten, taken_from};

use std::alloc::{AllocError, Global};
use zed_driver::{Command, Effect, Input, Stop};
use zed_edit::{Edit, Op};
use zed_editfile::{EditFileError, write_edit, write_head};
use zed_export::new_world;
use zed_files::edits_told;
use zed_refusal::{Reason, world_stop};
use zed_types::{Bytes, READ_BODY_LIMIT, Stamp};
use zed_world::{WorldError, read_world, write_world};

// A world file, read and written again.
fn written_again(alloc: Global, bytes: &[u8]) -> Result<Vec<u8>, WorldError>
    ensures result { Gives (λ text. text.items) result (rewritten (world_at bytes.now)) }
    ensures memory_only_when { IfErr result (λ e. e ≡ WorldError.Memory
        → MayWantMemory bytes.now) }
    ensures canonical { IfOk result (λ text. IsCanonical text.items) }
{
    let world = read_world(alloc, bytes)?;
    write_world(alloc, &world, READ_BODY_LIMIT)
}

// The file of a new world by its name.
fn made(alloc: Global, name: Option<&str>) -> Result<Vec<u8>, WorldError>
    ensures result { Gives (λ bytes. bytes.items) result
        (written most (fresh_world (name_or_none (text_in name.entry)))) }
    ensures canonical { IfOk result (λ bytes. IsCanonical bytes.items) }
{
    let world = new_world(alloc, name.unwrap_or(""))?;
    write_world(alloc, &world, READ_BODY_LIMIT)
}

// An edit file that makes a world of these bytes.
fn file_of(alloc: Global, world: u64, bytes: Vec<u8>) -> Result<Vec<u8>, EditFileError>
    requires { IsCanonical bytes.items }
    ensures ok { IfOk result (λ file. file.items ≡ first_file world bytes.items) }
    ensures err { IfErr result (λ e. e ≡ EditFileError.Memory) }
{
    let edit = Edit {
        stamp: Stamp::GENESIS,
        op: Op::Genesis(Bytes::new(bytes)),
    };
    let mut file = Vec::new(alloc);
    write_head(world, &mut file)?;
    write_edit(&edit, &mut file)?;
    Ok(file)
}

// The edit file of a world of these bytes, or why there is none.
fn first(
    alloc: Global,
    world: u64,
    bytes: Result<Vec<u8>, WorldError>,
) -> Result<Vec<u8>, Stop<Reason>>
    requires { IfOk bytes (λ bytes. IsCanonical bytes.items) }
    ensures { MatchResult bytes
        (λ bytes. MatchResult result
        (λ file. file.items ≡ first_file world bytes.items)
        (λ e. e ≡ Memory))
        (λ e. result ≡ Err (world_stop e)) }
{
    match bytes {
        Ok(bytes) => match file_of(alloc, world, bytes) {
            Ok(file) => Ok(file),
            // the only refusal is Memory
            Err(_) => Err(Stop::Memory),
        },
        Err(error) => Err(world_stop(error)),
    }
}

// The edit file of the world of a file, as it was read.
fn file_from(alloc: Global, world: u64, file: Input) -> Result<Vec<u8>, Stop<Reason>>
    ensures { MatchResult result
        (λ made. (bytes : List ℕ) × (taken_from file ≡ Ok bytes)
        × (made.items ≡ first_file world bytes))
        (λ e. ((e ≡ Memory) × MayLack (file ∷ [])) ⊎ (taken_from file ≡ Err e)) }
{
    match file {
        Input::Bytes(bytes) => first(alloc, world, written_again(alloc, bytes.as_slice())),
        Input::Missing => Err(Stop::File),
        Input::Failed => Err(Stop::File),
    }
}

// The edit file that was made of a world file, if one was; or that of a new world.
fn file_or_new(
    alloc: Global,
    made_before: Option<Vec<u8>>,
    world: u64,
    name: Option<&str>,
) -> Result<Vec<u8>, Stop<Reason>>
    ensures { MatchOption made_before
        (MatchResult result
        (λ file. (bytes : List ℕ) × (made_by (text_in name.entry) ≡ Ok bytes)
        × (file.items ≡ first_file world bytes))
        (λ e. (e ≡ Memory) ⊎ (made_by (text_in name.entry) ≡ Err e)))
        (λ file. result ≡ Ok file) }
{
    match made_before {
        Some(file) => Ok(file),
        None => first(alloc, world, made(alloc, name)),
    }
}

// An edit file of one edit is written, and a line that counts it is printed.
fn written_to(alloc: Global, out: &str, file: Vec<u8>) -> Result<Effect, AllocError>
    ensures { IfOk result (λ x. x ≡ writes out.now file.items (edits_line 1)) }
{
    let line = edits_told(alloc, 1)?;
    Effect::writes(alloc, out, file, line.as_str())
}

/// `new` writes the edit file of a new world: that of a world file, or one with a title board.
#[derive(Drop)]
pub struct New<'a> {
    out: &'a str,
    world: u64,
    from: Option<&'a str>,
    name: Option<&'a str>,
    /// The edit file of the world file, once that was read.
    file: Option<Vec<u8>>,
}

impl<'a> New<'a> {
    pub fn new(out: &'a str, world: u64, from: Option<&'a str>, name: Option<&'a str>) -> New<'a>
        ensures out { result.out ≡ out.entry }
        ensures world { result.world ≡ world }
        ensures from { result.from ≡ from.entry }
        ensures name { result.name ≡ name.entry }
        ensures file { result.file ≡ None }
    {
        New {
            out,
            world,
            from,
            name,
            file: None,
        }
    }
}

impl Command for New<'_> {
    ghost use Rattle.std.specs.Prelude.{option_map};
    ghost use Rattle.zed_files.specs.Texts.{text_in};
    ghost use Rattle.cmd_edit.specs.Fresh.{NewComes, NewStands, NewWants, left_of, next_of};

    type Refusal = Reason;

    ghost Wants = { λ c. NewWants (text_in c.from) };

    ghost Comes = { λ c. NewComes c.out.now c.world (text_in c.from) (text_in c.name) };

    ghost Stands = { λ c files s. (s.out ≡ c.out) × (s.world ≡ c.world) × (s.from ≡ c.from)
        × (s.name ≡ c.name)
        × NewStands c.world (text_in c.from) files (option_map (λ f. f.items) s.file) };

    ghost next = { λ c. next_of (text_in c.from) (option_map (λ f. f.items) c.file) };

    ghost most = { λ c. left_of (option_map (λ f. f.items) c.file) };

    fn at_most(&self) -> usize {
        match &self.file {
            Some(_) => 0,
            None => 1,
        }
    }

    fn next_file(&self) -> Option<&str> {
        match &self.file {
            Some(_) => None,
            None => self.from,
        }
    }

    fn give(&mut self, alloc: Global, file: Input) -> Result<(), Stop<Reason>> {
        let made = file_from(alloc, self.world, file)?;
        self.file = Some(made);
        Ok(())
    }

    fn finish(&mut self, alloc: Global) -> Result<Effect, Stop<Reason>> {
        let file = file_or_new(alloc, self.file.take(), self.world, self.name)?;
        Ok(written_to(alloc, self.out, file)?)
    }
}
