//! The program, over any host.
ghost use Rattle.std.specs.Prelude.{◌≡◌, ◌≤◌, ◌⊎◌, IfErr, IsSome, List, Ok, Err, None, Some, ◌∷◌, ℕ, codes, length, map, true, string_bytes};
ghost use Rattle.std.specs.List.{list_all};
ghost use Rattle.zed_op.specs.declared.op.Edit.{Edit as TheEdit};
ghost use Rattle.zed_session.specs.Links.{seen};
ghost use Rattle.zed_files.specs.Files.{joined};
ghost use Rattle.zed_program.specs.Joining.{AsksToMerge, MergesSet};
ghost use Rattle.zed_files.specs.Asked.{refusal_in};
ghost use Rattle.zed_program.specs.Asked.{AsksCommand, Complains, ComplainsOf, RunAsks, RunSteps, StepsCommand};
ghost use Rattle.zed_program.specs.Called.{CallsDevices, IdleUnlessPlayed, LacksLinks, PullsLinks};
ghost use Rattle.zed_program.specs.Devices.{devices};
ghost use Rattle.zed_program.specs.Faults.{TellsFault};
ghost use Rattle.zed_program.specs.Outcome.{EndsCalmly, EndsCommand, EndsRun, IsComplained, IsTold, SaysWhy, status_of};
ghost use Rattle.zed_program.specs.Saving.{AsksToSave, SavedReadsBack, SavesSet};
ghost use Rattle.zed_driver.specs.Hosts.{hosts};
ghost use Rattle.zed_host.specs.Counting.{Counts, NothingFailed, Rose};
ghost use Rattle.zed_files.specs.Faults.{NoneForgotten, TellsFailures};
ghost use Rattle.zed_files.specs.Refusals.{is_key_fault, is_of_keys, is_of_screen, is_screen_fault};
ghost use Rattle.zed_host.specs.HostContents.{HostContents};
ghost use Rattle.cmd_show.specs.Shown.{IsOfPlay};
ghost use Rattle.zed_words.specs.declared.profile.Profile.{Profile as TheProfile};
ghost use Rattle.zed_words.specs.Laws.{with_option};
ghost use Rattle.zed_words.specs.Commands.{Command as Asked, Save, command_of, is_plain, meaning_of};

use crate::driving::{check_files, edit_file, make_new, save_files};
use crate::limit::limit_of;
use crate::merging::merge;
use cmd_show::{play, show};
use std::alloc::Global;
use zed_document::deliveries_come_to_sets;
use zed_editfile::one_reading;
use zed_export::saved_is_read;
use zed_files::{Refusal, line_of};
use zed_host::Host;
use zed_link::{Link, deliveries_go_on, files_are_pulled};
use zed_session::{Keys, Screen};
use zed_words::{Command, ParseError, parse, plain_words_save};

const MEMORY_LINE: &[u8] = b"zzted: Memory\n";

// Writes the line of a refusal to the standard error.
fn complain_of<H: Host>(alloc: Global, host: &mut H, refusal: &Refusal)
    ensures told { (t : HostContents) → H.contents host.old ≡ Some t
        → let failed = Rose (H.faults host.old) (H.faults host.new) in
        IsTold failed refusal.now t (H.contents host.new) }
    ensures asked { Complains H.called refusal.now host.old host.new }
    ensures failures { NoneForgotten H.faults H.failed host.old host.new }
{
    let line = line_of(alloc, refusal);
    let _ = host.complain(line.as_slice());
}

// Tells why words ask for nothing, and answers the status.
fn tell_words<H: Host>(host: &mut H, error: &ParseError) -> u8
    ensures told { (t : HostContents) → H.contents host.old ≡ Some t
        → let failed = Rose (H.faults host.old) (H.faults host.new) in
        (text : List ℕ) × SaysWhy error.now result text
        × IsComplained failed text t (H.contents host.new) }
    ensures asked { (text : List ℕ) × SaysWhy error.now result text
        × ComplainsOf H.called text host.old host.new }
    ensures failures { NoneForgotten H.faults H.failed host.old host.new }
{
    match error {
        ParseError::Memory => {
            let _ = host.complain(MEMORY_LINE);
            1
        }
        ParseError::Refused(text) => {
            let _ = host.complain(text.as_bytes());
            2
        }
    }
}

fn act<H: Host>(
    alloc: Global,
    host: &mut H,
    command: &Command<'_>,
    links: &mut Vec<Box<dyn Link>>,
    screen: &mut dyn Screen,
    keys: &mut dyn Keys,
) -> Result<(), Refusal>
    ensures ends { (t : HostContents) → H.contents host.old ≡ Some t
        → let failed = Rose (H.faults host.old) (H.faults host.new) in
        let before = devices (map (λ link. seen (ends link) (reads link)) links.old.items)
        (shown screen.old) (screen_foretells screen.old) (left keys.old) (keys_foretell keys.old) in
        let after = devices (map (λ link. seen (ends link) (reads link)) links.new.items)
        (shown screen.new) (screen_foretells screen.new) (left keys.new) (keys_foretell keys.new) in
        EndsCommand failed before after (meaning_of command.now) t result (H.contents host.new) }
    ensures asked { AsksCommand H.called (meaning_of command.now) (refusal_in result)
        host.old host.new }
    ensures steps { StepsCommand (hosts H.contents H.called H.failed H.faults)
        (meaning_of command.now) (refusal_in result) host.old host.new }
    ensures devices { CallsDevices (Some (meaning_of command.now)) (status_of result)
        (map (λ link. seen (ends link) (reads link)) links.old.items)
        (map (λ link. seen (ends link) (reads link)) links.new.items)
        (screen_foretells screen.old) (screen_foretells screen.new)
        (links.new ≡ links.old) (screen.new ≡ screen.old) (keys.new ≡ keys.old) }
    ensures writes { map (λ link. writes link) links.new.items
        ≡ map (λ link. writes link) links.old.items }
    ensures pulls { PullsLinks (Some (meaning_of command.now))
        (map (λ link. seen (ends link) (reads link)) links.old.items)
        (map (λ link. seen (ends link) (reads link)) links.new.items) }
    ensures no_link { LacksLinks (meaning_of command.now) (length links.old.items)
        → (result ≡ Err Refusal.NoLink) × (links.new ≡ links.old) }
    ensures idle { IfErr result (λ e. IsOfPlay H.called e host.new
        ⊎ ((screen.new ≡ screen.old) × (keys.new ≡ keys.old))) }
    ensures screen_faults { Counts (is_screen_fault result)
        (screen_failures screen.old) (screen_failures screen.new) }
    ensures key_faults { Counts (is_key_fault result)
        (key_failures keys.old) (key_failures keys.new) }
    ensures failures { TellsFailures H.faults H.failed result host.old host.new }
{
    match command {
        Command::Save {
            profile,
            out,
            files,
        } => save_files(alloc, host, *profile, out, files.as_slice()),
        Command::Check { profile, files } => check_files(alloc, host, *profile, files.as_slice()),
        Command::New {
            out,
            world,
            from,
            name,
        } => make_new(alloc, host, out, *world, *from, *name),
        Command::Edit {
            file,
            replica,
            words,
        } => edit_file(alloc, host, file, *replica, words.as_slice()),
        Command::Merge { out, world, files } => merge(
            alloc,
            host,
            out,
            *world,
            files.as_slice(),
            links,
        ),
        Command::Show {
            profile,
            board,
            files,
        } => show(
            alloc,
            host,
            limit_of(*profile),
            *board,
            files.as_slice(),
            screen,
        ),
        Command::Play {
            profile,
            board,
            chance,
            files,
        } => play(
            alloc,
            host,
            limit_of(*profile),
            *board,
            chance,
            files.as_slice(),
            screen,
            keys,
        ),
    }
}

// What `run` does.
fn run_words<H: Host>(
    alloc: Global,
    words: &[String],
    host: &mut H,
    links: &mut Vec<Box<dyn Link>>,
    screen: &mut dyn Screen,
    keys: &mut dyn Keys,
) -> u8
    ensures ends { (t : HostContents) → H.contents host.old ≡ Some t
        → EndsRun (devices (map (λ link. seen (ends link) (reads link)) links.old.items)
        (shown screen.old) (screen_foretells screen.old) (left keys.old) (keys_foretell keys.old))
        (devices (map (λ link. seen (ends link) (reads link)) links.new.items)
        (shown screen.new) (screen_foretells screen.new) (left keys.new) (keys_foretell keys.new))
        (command_of (map string_bytes words.now)) t
        (H.faults host.old) (H.faults host.new) (Rose (H.failed host.old) (H.failed host.new))
        result (H.contents host.new) }
    ensures asked { RunAsks H.called (command_of (map string_bytes words.now))
        result host.old host.new }
    ensures steps { RunSteps (hosts H.contents H.called H.failed H.faults)
        (command_of (map string_bytes words.now)) result host.old host.new }
    ensures devices { CallsDevices (command_of (map string_bytes words.now)) result
        (map (λ link. seen (ends link) (reads link)) links.old.items)
        (map (λ link. seen (ends link) (reads link)) links.new.items)
        (screen_foretells screen.old) (screen_foretells screen.new)
        (links.new ≡ links.old) (screen.new ≡ screen.old) (keys.new ≡ keys.old) }
    ensures writes { map (λ link. writes link) links.new.items
        ≡ map (λ link. writes link) links.old.items }
    ensures idle { IdleUnlessPlayed H.called result host.new
        ((screen.new ≡ screen.old) × (keys.new ≡ keys.old)) }
    ensures screen_faults { TellsFault H.called is_of_screen result host.new
        (screen_failures screen.old) (screen_failures screen.new) }
    ensures key_faults { TellsFault H.called is_of_keys result host.new
        (key_failures keys.old) (key_failures keys.new) }
    ensures accepted { IsSome (command_of (map string_bytes words.now))
        → (result ≡ 0) ⊎ (result ≡ 1) }
    ensures refused { command_of (map string_bytes words.now) ≡ None
        → (result ≡ 2) ⊎ (result ≡ 1) }
{
    match parse(alloc, words) {
        Ok(command) => match act(alloc, host, &command, links, screen, keys) {
            Ok(()) => 0,
            Err(refusal) => {
                complain_of(alloc, host, &refusal);
                1
            }
        },
        Err(error) => tell_words(host, &error),
    }
}

fn count_of(words: &[String]) -> usize
    ensures { result ≡ length words.now }
{
    words.len()
}

/// Runs the command that the words after the program's name ask for. The exit status is 0; 1 after
/// a refusal, whose line is on standard error; or 2 if the words are no command, unless memory runs
/// out for its text.
///
/// Unless the host fails at a write or at printing (`File`), a refusal writes no file. If a write
/// failed, the file is as that left it; if only printing failed, the file is whole.
///
/// `merge` pulls over the links, one for each of its files, and keeps them all. `show` and `play`
/// use the screen, and `play` takes the keys.
pub fn run<H: Host>(
    alloc: Global,
    words: &[String],
    host: &mut H,
    links: &mut Vec<Box<dyn Link>>,
    screen: &mut dyn Screen,
    keys: &mut dyn Keys,
) -> u8
    // What is left in a host that tells what it holds, whatever of it fails.
    ensures ends { (t : HostContents) → H.contents host.old ≡ Some t
        → EndsRun (devices (map (λ link. seen (ends link) (reads link)) links.old.items)
        (shown screen.old) (screen_foretells screen.old) (left keys.old) (keys_foretell keys.old))
        (devices (map (λ link. seen (ends link) (reads link)) links.new.items)
        (shown screen.new) (screen_foretells screen.new) (left keys.new) (keys_foretell keys.new))
        (command_of (map string_bytes words.now)) t
        (H.faults host.old) (H.faults host.new) (Rose (H.failed host.old) (H.failed host.new))
        result (H.contents host.new) }

    // What was asked of the host, call by call.
    ensures asked { RunAsks H.called (command_of (map string_bytes words.now))
        result host.old host.new }

    // The same for a command under the driver, step by step: no file is read behind one that is refused.
    ensures steps { RunSteps (hosts H.contents H.called H.failed H.faults)
        (command_of (map string_bytes words.now)) result host.old host.new }

    // What was asked of the devices.
    ensures devices { CallsDevices (command_of (map string_bytes words.now)) result
        (map (λ link. seen (ends link) (reads link)) links.old.items)
        (map (λ link. seen (ends link) (reads link)) links.new.items)
        (screen_foretells screen.old) (screen_foretells screen.new)
        (links.new ≡ links.old) (screen.new ≡ screen.old) (keys.new ≡ keys.old) }

    // No link is written to, not even no bytes.
    ensures writes { map (λ link. writes link) links.new.items
        ≡ map (λ link. writes link) links.old.items }

    // Where `play` is refused before a playtest is begun, but for want of memory, nothing was asked of the screen and of the source of
    // keys, whatever these tell.
    ensures idle { IdleUnlessPlayed H.called result host.new
        ((screen.new ≡ screen.old) × (keys.new ≡ keys.old)) }

    // A fault of the screen, or of the source of keys, is told exactly where a call of it failed.
    ensures screen_faults { TellsFault H.called is_of_screen result host.new
        (screen_failures screen.old) (screen_failures screen.new) }
    ensures key_faults { TellsFault H.called is_of_keys result host.new
        (key_failures keys.old) (key_failures keys.new) }

    // Where its `failures()` stay as they were, nothing failed.
    ensures calm { H.faults host.old ≤ H.failed host.old
        → NothingFailed (H.failed host.old) (H.failed host.new)
        → NothingFailed (H.faults host.old) (H.faults host.new) }

    // Where nothing fails.
    ensures ends_calmly { (t : HostContents) (command : Asked)
        → command_of (map string_bytes words.now) ≡ Some command
        → H.contents host.old ≡ Some t → NothingFailed (H.faults host.old) (H.faults host.new)
        → EndsCalmly (devices (map (λ link. seen (ends link) (reads link)) links.old.items)
        (shown screen.old) (screen_foretells screen.old) (left keys.old) (keys_foretell keys.old))
        (devices (map (λ link. seen (ends link) (reads link)) links.new.items)
        (shown screen.new) (screen_foretells screen.new) (left keys.new) (keys_foretell keys.new))
        command t result (H.contents host.new) }

    // The same for `save OUT FILES...`, where no word begins with a hyphen, and for `save --big OUT FILES...`.
    ensures saves { (t : HostContents) (profile : TheProfile) (out file : List ℕ)
        (files : List (List ℕ))
        → map string_bytes words.now ≡ codes "save" ∷ with_option profile (out ∷ file ∷ files)
        → list_all is_plain (out ∷ file ∷ files) ≡ true
        → H.contents host.old ≡ Some t → NothingFailed (H.faults host.old) (H.faults host.new)
        → EndsCalmly (devices (map (λ link. seen (ends link) (reads link)) links.old.items)
        (shown screen.old) (screen_foretells screen.old) (left keys.old) (keys_foretell keys.old))
        (devices (map (λ link. seen (ends link) (reads link)) links.new.items)
        (shown screen.new) (screen_foretells screen.new) (left keys.new) (keys_foretell keys.new))
        (Save profile out (file ∷ files)) t result (H.contents host.new) }

    // However the words ask to save: where the files spell lists of edits of one world that agree, the
    // set of all of them counts, and neither their order nor repeats; the limit is that of the profile.
    ensures saves_sets { (t : HostContents) (profile : TheProfile) (out : List ℕ) (world : ℕ)
        (lists : List (List TheEdit))
        → AsksToSave (map string_bytes words.now) t profile out world lists
        → H.contents host.old ≡ Some t → NothingFailed (H.faults host.old) (H.faults host.new)
        → SavesSet profile out t (joined lists) result (H.contents host.new) }

    // And what is saved is read as the exported world of that set.
    ensures reads_back { (t : HostContents) (profile : TheProfile) (out : List ℕ) (world : ℕ)
        (lists : List (List TheEdit))
        → AsksToSave (map string_bytes words.now) t profile out world lists
        → H.contents host.old ≡ Some t → NothingFailed (H.faults host.old) (H.faults host.new)
        → SavedReadsBack out t (joined lists) result (H.contents host.new) }

    // However the words ask to merge: where the links hold the files of lists of edits of one world that
    // agree, the edit file of the set of all of them is written, and neither their order nor repeats count.
    ensures merges_sets { (t : HostContents) (out : List ℕ) (world : ℕ) (lists : List (List TheEdit))
        → let all = map (λ link. seen (ends link) (reads link)) links.old.items in
        AsksToMerge (map string_bytes words.now) all out world lists
        → H.contents host.old ≡ Some t → NothingFailed (H.faults host.old) (H.faults host.new)
        → MergesSet out t world all lists result (H.contents host.new) }

    // The status, whatever the host does.
    ensures accepted { IsSome (command_of (map string_bytes words.now))
        → (result ≡ 0) ⊎ (result ≡ 1) }
    ensures refused { command_of (map string_bytes words.now) ≡ None
        → (result ≡ 2) ⊎ (result ≡ 1) }
{
    // For the proof, which learns here that the words can be counted.
    let _count = count_of(words);
    plain_words_save();
    one_reading();
    saved_is_read();
    files_are_pulled();
    deliveries_go_on();
    deliveries_come_to_sets();
    run_words(alloc, words, host, links, screen, keys)
}
