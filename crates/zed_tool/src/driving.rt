//! The commands that call no device of a playtest, carried out by the driver.
ghost use Rattle.std.specs.Prelude.{◌≡◌, ℕ, Err, List};
ghost use Rattle.zed_driver.specs.declared.command.Stop.TheVariants.{File};
ghost use Rattle.zed_driver.specs.Hosts.{hosts};
ghost use Rattle.cmd_undo.specs.Undoing.{meaning_of};
ghost use Rattle.zed_op.specs.declared.op.Edit.{Edit as TheEdit};
ghost use Rattle.zed_files.specs.Texts.{text_in, texts_of};
ghost use Rattle.zed_tool.specs.Answers.{answer_of};
ghost use Rattle.zed_tool.specs.Driving.{Carried, to_compare, to_open, to_set, to_set_program, to_take, to_tell, to_undo};

use crate::answers::{drawn, set_told, told};
use crate::error::ToolError;
use cmd_compare::{Compare, Strictness};
use cmd_program::SetProgram;
use cmd_set::Set;
use cmd_take::{Forcing, Open, Take};
use cmd_undo::{Manner, Source, Undo};
use std::alloc::Global;
use zed_driver::drive;
use zed_files::{OfFiles, Rewrites, Telling};
use zed_host::Host;
use zed_types::Stamp;

/// Tells something of the set of edits of edit files.
pub(crate) fn tell<'a, H: Host, T: Telling>(
    alloc: Global,
    host: &mut H,
    files: &[&str],
    telling: T,
) -> Result<u8, ToolError<'a>>
    requires { (es : List TheEdit) → T.tells telling es ≡ Err File → ⊥ }
    ensures { Carried (hosts H.contents H.called H.failed H.faults)
        (to_tell (T.tells telling) (texts_of files.now)) (answer_of result)
        host.old host.new }
{
    let mut command = OfFiles::new(alloc, files, telling);
    told(drive(alloc, host, &mut command))
}

/// Writes the world file that edits of FILE show, and its base.
pub(crate) fn open_world<'a, H: Host>(
    alloc: Global,
    host: &mut H,
    until: Option<Stamp>,
    forcing: Forcing,
    file: &'a str,
    world: &str,
) -> Result<u8, ToolError<'a>>
    ensures { Carried (hosts H.contents H.called H.failed H.faults)
        (to_open until forcing file.entry.now world.now) (answer_of result) host.old host.new }
{
    let mut command = Open::new(until, forcing, file, world);
    drawn(file, drive(alloc, host, &mut command))
}

/// Takes what was drawn in a world file.
pub(crate) fn take_world<'a, H: Host>(
    alloc: Global,
    host: &mut H,
    base: Option<&str>,
    forcing: Forcing,
    file: &'a str,
    replica: u16,
    world: &str,
) -> Result<u8, ToolError<'a>>
    ensures { Carried (hosts H.contents H.called H.failed H.faults)
        (to_take (text_in base.entry) forcing file.entry.now replica world.now) (answer_of result)
        host.old host.new }
{
    let mut command = Take::new(base, forcing, file, replica, world);
    drawn(file, drive(alloc, host, &mut command))
}

/// Sets what the words say.
pub(crate) fn set_words<'a, H: Host>(
    alloc: Global,
    host: &mut H,
    file: &str,
    replica: u16,
    words: &[&'a str],
) -> Result<u8, ToolError<'a>>
    ensures { Carried (hosts H.contents H.called H.failed H.faults)
        (to_set file.now replica (texts_of words.now)) (answer_of result) host.old host.new }
{
    let mut command = Rewrites::new(file, Set::new(replica, &*words));
    set_told(words, drive(alloc, host, &mut command))
}

/// Sets the program of a stat to the text of a file.
pub(crate) fn set_program<'a, H: Host>(
    alloc: Global,
    host: &mut H,
    file: &str,
    replica: u16,
    board: u16,
    stat: u16,
    text: &'a str,
) -> Result<u8, ToolError<'a>>
    ensures { Carried (hosts H.contents H.called H.failed H.faults)
        (to_set_program file.now replica board stat text.entry.now) (answer_of result)
        host.old host.new }
{
    let mut command = SetProgram::new(file, replica, board, stat, text);
    drawn(text, drive(alloc, host, &mut command))
}

/// Tells what a merge of two edit files overrides.
pub(crate) fn compare_files<'a, H: Host>(
    alloc: Global,
    host: &mut H,
    strictness: Strictness,
    mine: &str,
    theirs: &str,
) -> Result<u8, ToolError<'a>>
    ensures { Carried (hosts H.contents H.called H.failed H.faults)
        (to_compare strictness mine.now theirs.now) (answer_of result) host.old host.new }
{
    let mut command = Compare::new(strictness, mine, theirs);
    told(drive(alloc, host, &mut command))
}

/// Undoes edits of a file.
pub(crate) fn undo<'a, H: Host>(
    alloc: Global,
    host: &mut H,
    file: &'a str,
    replica: u16,
    manner: Manner,
    source: Source<'_>,
) -> Result<u8, ToolError<'a>>
    ensures { Carried (hosts H.contents H.called H.failed H.faults)
        (to_undo file.entry.now replica manner (meaning_of source.entry)) (answer_of result)
        host.old host.new }
{
    let mut command = Undo::new(file, replica, manner, source);
    drawn(file, drive(alloc, host, &mut command))
}
