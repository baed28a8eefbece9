//! The commands that call no device, carried out by the driver.
ghost use Rattle.std.specs.Prelude.{◌≡◌, ◌∷◌, [], Err, List, Ok, true};
ghost use Rattle.zed_driver.specs.declared.input.Input.{Input as Given};
ghost use Rattle.zed_driver.specs.declared.command.Stop.TheVariants.{File};
ghost use Rattle.zed_driver.specs.Driven.{some_lacks};
ghost use Rattle.zed_driver.specs.Effects.{Effect as Effected};
ghost use Rattle.zed_driver.specs.Hosts.{hosts};
ghost use Rattle.zed_driver.specs.Reading.{Answer, files_of};
ghost use Rattle.zed_files.specs.Texts.{text_in, texts_of};
ghost use Rattle.zed_words.specs.Commands.{Check as AsksToCheck, Edit as AsksToEdit, New as AsksForNew, Save as AsksToSave};
ghost use Rattle.zed_program.specs.Ends.{Carried, IsPlain};
ghost use Rattle.zed_program.specs.Under.{ComesOf, WantsOf};

use crate::limit::limit_of;
use cmd_edit::{Edit, New};
use cmd_save::{Check, Save};
use std::alloc::Global;
use zed_driver::{Command, drive};
use zed_files::{OfFiles, Refusal, Rewrites};
use zed_host::Host;
use zed_refusal::Reason;
use zed_words::Profile;

// Carries out a command. The status after its effect is 0.
fn carried<H: Host, C: Command<Refusal = Reason>>(
    alloc: Global,
    host: &mut H,
    command: &mut C,
) -> Result<(), Refusal>
    requires stands { C.Stands command.old [] command.old }
    requires plain { (files : List Given) (x : Effected)
        → C.Comes command.old files (Ok x) → IsPlain x }
    requires lacks { (rs : List Answer) → C.Comes command.old (files_of rs) (Err File)
        → some_lacks rs ≡ true }
    ensures { Carried (hosts H.contents H.called H.failed H.faults)
        (C.Wants command.old) (C.Comes command.old) result host.old host.new }
{
    match drive(alloc, host, command) {
        Ok(_) => Ok(()),
        Err(stop) => Err(Refusal::from(stop)),
    }
}

/// Writes the world file of edit files.
pub(crate) fn save_files<H: Host>(
    alloc: Global,
    host: &mut H,
    profile: Profile,
    out: &str,
    files: &[&str],
) -> Result<(), Refusal>
    ensures { Carried (hosts H.contents H.called H.failed H.faults)
        (WantsOf (AsksToSave profile out.now (texts_of files.now)))
        (ComesOf (AsksToSave profile out.now (texts_of files.now))) result host.old host.new }
{
    let save = Save::new(limit_of(profile), out);
    let mut command = OfFiles::new(alloc, files, save);
    carried(alloc, host, &mut command)
}

/// Prints the report on the world of edit files.
pub(crate) fn check_files<H: Host>(
    alloc: Global,
    host: &mut H,
    profile: Profile,
    files: &[&str],
) -> Result<(), Refusal>
    ensures { Carried (hosts H.contents H.called H.failed H.faults)
        (WantsOf (AsksToCheck profile (texts_of files.now)))
        (ComesOf (AsksToCheck profile (texts_of files.now))) result host.old host.new }
{
    let check = Check::new(limit_of(profile));
    let mut command = OfFiles::new(alloc, files, check);
    carried(alloc, host, &mut command)
}

/// Writes the edit file of a new world.
pub(crate) fn make_new<H: Host>(
    alloc: Global,
    host: &mut H,
    out: &str,
    world: u64,
    from: Option<&str>,
    name: Option<&str>,
) -> Result<(), Refusal>
    ensures { Carried (hosts H.contents H.called H.failed H.faults)
        (WantsOf (AsksForNew out.now world (text_in from.entry) (text_in name.entry)))
        (ComesOf (AsksForNew out.now world (text_in from.entry) (text_in name.entry)))
        result host.old host.new }
{
    let mut command = New::new(out, world, from, name);
    carried(alloc, host, &mut command)
}

/// Does an action as a replica, and rewrites the file.
pub(crate) fn edit_file<H: Host>(
    alloc: Global,
    host: &mut H,
    file: &str,
    replica: u16,
    words: &[&str],
) -> Result<(), Refusal>
    ensures { Carried (hosts H.contents H.called H.failed H.faults)
        (WantsOf (AsksToEdit file.now replica (texts_of words.now)))
        (ComesOf (AsksToEdit file.now replica (texts_of words.now))) result host.old host.new }
{
    let edit = Edit::new(replica, words);
    let mut command = Rewrites::new(file, edit);
    carried(alloc, host, &mut command)
}
