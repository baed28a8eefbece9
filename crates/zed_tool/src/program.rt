//! The program, over any host.
ghost use Rattle.std.specs.Prelude.{◌≡◌, ◌≤◌, ◌⊎◌, ℕ, IsSome, List, Some, false, map, string_bytes, true};
ghost use Rattle.zed_op.specs.declared.op.Edit.{Edit as TheEdit};
ghost use Rattle.zed_op.specs.Set.{set_of};
ghost use Rattle.zed_world.specs.Contents.{Contents};
ghost use Rattle.zed_driver.specs.Hosts.{hosts};
ghost use Rattle.zed_host.specs.Counting.{NothingFailed};
ghost use Rattle.zed_host.specs.HostContents.{HostContents};
ghost use Rattle.zed_terminal.specs.Devices.{AtMostOnce, once_more};
ghost use Rattle.cmd_play.specs.Led.{devices, led};
ghost use Rattle.zed_tool_words.specs.declared.asked.Forcing.{Forcing as ForcingWord};
ghost use Rattle.zed_tool_words.specs.Commands.{AsksHelp, AsksVersion, Command as Asked, command_of, meaning_of};
ghost use Rattle.zed_tool_words.specs.Version.{version_text};
ghost use Rattle.zed_tool.specs.Answers.{answer_of, failure_of, memory};
ghost use Rattle.zed_tool.specs.Calm.{EndsCalmly};
ghost use Rattle.zed_tool.specs.Commands.{course_of, is_playtest, plays};
ghost use Rattle.zed_tool.specs.Lines.{line_of as line_for};
ghost use Rattle.zed_tool.specs.Taking.{AsksToTake, TakesSet};
ghost use Rattle.zed_tool.specs.Outcome.{Acted, Complained, Prints, Runs, TellsAloud, TellsOf};

use crate::answers::played;
use crate::asked::{
    compare_strictness_of, filter_of, forcing_of, form_of, going_of, length_of, listing_of,
    others_of, size_of, strictness_of, trial_of,
};
use crate::driving::{compare_files, open_world, set_program, set_words, take_world, tell, undo};
use crate::error::ToolError;
use crate::lines::{line_of, plain_line};
use cmd_log::{Lint, Log};
use cmd_page::Page;
use cmd_play::play;
use cmd_program::{Program, Programs};
use cmd_show::Show;
use cmd_undo::{Manner, Source};
use std::alloc::Global;
use zed_editfile::one_reading;
use zed_files::Refusal;
use zed_host::Host;
use zed_terminal::{Chance, Console, Inputs, Terminal};
use zed_tool_words::{Command, ParseError, parse, version};
use zed_undo::Choice;

const MEMORY_LINE: &[u8] = b"zztool: Memory\n";

// Writes a text to the standard error.
fn complain<H: Host>(host: &mut H, text: &[u8])
    ensures { Complained (hosts H.contents H.called H.failed H.faults) text.now
        host.old host.new }
{
    let _ = host.complain(text);
}

// Writes the line of a failure to the standard error.
fn complain_of<H: Host>(alloc: Global, host: &mut H, error: ToolError<'_>)
    ensures { TellsOf (hosts H.contents H.called H.failed H.faults) (failure_of error.entry)
        host.old host.new }
{
    match plain_line(error) {
        Some(text) => complain(host, text.as_bytes()),
        None => match line_of(alloc, error) {
            Ok(text) => complain(host, text.as_bytes()),
            Err(_) => complain(host, MEMORY_LINE),
        },
    }
}

// Carries a command out, and answers its status.
fn act<'a, H: Host, T: Terminal, I: Inputs, C: Chance>(
    alloc: Global,
    host: &mut H,
    console: &mut Console<T, I, C>,
    command: &Command<'a>,
) -> Result<u8, ToolError<'a>>
    ensures acted { Acted (hosts H.contents H.called H.failed H.faults)
        (led (devices T.drawn T.draws_foretell I.left C.to_come C.chance_failures)
        console.old console.new)
        (course_of (meaning_of command.now)) (answer_of result) host.old host.new }
    ensures idle { is_playtest (meaning_of command.now) ≡ false → console.new ≡ console.old }
    ensures left { T.is_entered console.old.terminal ≡ false
        → T.is_entered console.new.terminal ≡ false }
    ensures once { is_playtest (meaning_of command.now) ≡ true
        → T.times_left console.new.terminal ≡ once_more (T.times_left console.old.terminal) }
{
    match command {
        Command::Open {
            until,
            forcing,
            file,
            world,
        } => open_world(alloc, host, *until, forcing_of(*forcing), *file, world),
        Command::Take {
            base,
            forcing,
            file,
            replica,
            world,
        } => {
            let forcing = forcing_of(*forcing);
            take_world(alloc, host, *base, forcing, *file, *replica, world)
        }
        Command::Log {
            length,
            filter,
            files,
        } => {
            let log = Log {
                length: length_of(*length),
                filter: filter_of(*filter),
            };
            tell(alloc, host, files.as_slice(), log)
        }
        Command::List { listing, files } => {
            let listing = listing_of(*listing);
            tell(alloc, host, files.as_slice(), cmd_log::List { listing })
        }
        Command::Show { form, board, files } => {
            let form = form_of(*form);
            let board = *board;
            tell(alloc, host, files.as_slice(), Show { form, board })
        }
        Command::Page { files } => tell(alloc, host, files.as_slice(), Page {}),
        Command::Play {
            going,
            rows,
            words,
            keys,
            board,
            files,
        } => played(play(
            alloc,
            host,
            *words,
            *keys,
            going_of(*going),
            size_of(*rows),
            *board,
            files.as_slice(),
            console,
        )),
        Command::Lint { strictness, files } => {
            let strictness = strictness_of(*strictness);
            tell(alloc, host, files.as_slice(), Lint { strictness })
        }
        Command::Compare {
            strictness,
            mine,
            theirs,
        } => {
            let strictness = compare_strictness_of(*strictness);
            compare_files(alloc, host, strictness, mine, theirs)
        }
        Command::Undo {
            trial,
            others,
            file,
            replica,
            stamps,
            filter,
            last,
        } => {
            let filter = filter_of(*filter);
            let stamps = stamps.as_slice();
            let last = *last;
            let source = Source::Chosen(Choice {
                filter,
                stamps,
                last,
            });
            let manner = Manner {
                trial: trial_of(*trial),
                others: others_of(*others),
            };
            undo(alloc, host, *file, *replica, manner, source)
        }
        Command::UndoPull {
            trial,
            others,
            file,
            replica,
            new,
            old,
        } => {
            let manner = Manner {
                trial: trial_of(*trial),
                others: others_of(*others),
            };
            let source = Source::Pulled {
                new: *new,
                old: *old,
            };
            undo(alloc, host, *file, *replica, manner, source)
        }
        Command::Set {
            file,
            replica,
            words,
        } => set_words(alloc, host, file, *replica, words.as_slice()),
        Command::Program { board, stat, files } => {
            let board = *board;
            let stat = *stat;
            tell(alloc, host, files.as_slice(), Program { board, stat })
        }
        Command::Programs { files } => tell(alloc, host, files.as_slice(), Programs {}),
        Command::SetProgram {
            file,
            replica,
            board,
            stat,
            text,
        } => set_program(alloc, host, file, *replica, *board, *stat, *text),
    }
}

// Prints a text that words ask for.
fn print_text<H: Host>(alloc: Global, host: &mut H, text: &[u8]) -> u8
    ensures { Prints (hosts H.contents H.called H.failed H.faults) text.now result
        host.old host.new }
{
    match host.print(text) {
        Ok(()) => 0,
        Err(_) => {
            complain_of(alloc, host, ToolError::Refused(Refusal::File));
            1
        }
    }
}

// What `run` does.
fn run_words<H: Host, T: Terminal, I: Inputs, C: Chance>(
    alloc: Global,
    words: &[String],
    host: &mut H,
    console: &mut Console<T, I, C>,
) -> u8
    ensures runs { Runs (hosts H.contents H.called H.failed H.faults)
        (led (devices T.drawn T.draws_foretell I.left C.to_come C.chance_failures)
        console.old console.new)
        (map string_bytes words.now) result host.old host.new }
    ensures idle { plays (command_of (map string_bytes words.now)) ≡ false
        → console.new ≡ console.old }
    ensures left { T.is_entered console.old.terminal ≡ false
        → T.is_entered console.new.terminal ≡ false }
    ensures once { AtMostOnce (T.times_left console.old.terminal)
        (T.times_left console.new.terminal) }
{
    match parse(alloc, words) {
        Ok(command) => match act(alloc, host, console, &command) {
            Ok(status) => status,
            Err(error) => {
                complain_of(alloc, host, error);
                1
            }
        },
        Err(ParseError::Help(text)) => print_text(alloc, host, text.as_bytes()),
        Err(ParseError::Version) => print_text(alloc, host, version().as_bytes()),
        Err(ParseError::Refused(text)) => {
            complain(host, text.as_bytes());
            2
        }
        Err(ParseError::Memory) => {
            complain(host, MEMORY_LINE);
            1
        }
    }
}

/// Runs the command that the words after the program's name ask for. The exit status is 0; 1 if
/// `lint --strict` or `compare --strict` finds something; 1 after a refusal, whose line is on standard error; or 2, with a
/// text there, if the words are no command. Help and the version are printed with status 0.
///
/// Unless the host fails at a write or at printing (`File`), a refusal writes no file. If a write
/// failed, the files before it are whole, and that file is as the failure left it.
pub fn run<H: Host, T: Terminal, I: Inputs, C: Chance>(
    alloc: Global,
    words: &[String],
    host: &mut H,
    console: &mut Console<T, I, C>,
) -> u8
    // What is left in a host that tells what it holds, what was asked of it, call by call, and that no failure was forgotten; and where the
    // devices of a playtest were led.
    ensures runs { Runs (hosts H.contents H.called H.failed H.faults)
        (led (devices T.drawn T.draws_foretell I.left C.to_come C.chance_failures)
        console.old console.new)
        (map string_bytes words.now) result host.old host.new }

    // The devices are called only where words ask to play, and the terminal is left then, at most once: not at all where memory runs out
    // before.
    ensures idle { plays (command_of (map string_bytes words.now)) ≡ false
        → console.new ≡ console.old }
    ensures left { T.is_entered console.old.terminal ≡ false
        → T.is_entered console.new.terminal ≡ false }
    ensures once { AtMostOnce (T.times_left console.old.terminal)
        (T.times_left console.new.terminal) }

    // Where its `failures()` stay as they were, nothing failed.
    ensures calm { H.faults host.old ≤ H.failed host.old
        → NothingFailed (H.failed host.old) (H.failed host.new)
        → NothingFailed (H.faults host.old) (H.faults host.new) }

    // Where nothing fails.
    ensures ends_calmly { (t : HostContents) (command : Asked)
        → command_of (map string_bytes words.now) ≡ Some command
        → H.contents host.old ≡ Some t → NothingFailed (H.faults host.old) (H.faults host.new)
        → EndsCalmly t (led (devices T.drawn T.draws_foretell I.left C.to_come C.chance_failures)
        console.old console.new)
        command result (H.contents host.new) }

    // However the words ask to take: where FILE and its base spell lists of edits of one world that agree, what counts is the set of the one
    // and of the other; edits are added to both that lead from what the base shows to WORLD.
    ensures takes_sets { (t : HostContents) (name file : List ℕ) (forcing : ForcingWord)
        (replica number : ℕ) (own based : List TheEdit) (shown : Contents)
        → AsksToTake (map string_bytes words.now) t name file forcing replica number own based
        shown
        → H.contents host.old ≡ Some t → NothingFailed (H.faults host.old) (H.faults host.new)
        → TakesSet name file t forcing replica number (set_of own) (set_of based) shown result
        (H.contents host.new) }

    // The status, whatever the host does.
    ensures accepted { IsSome (command_of (map string_bytes words.now))
        → (result ≡ 0) ⊎ (result ≡ 1) }
    ensures helped { AsksHelp (map string_bytes words.now) → (result ≡ 0) ⊎ (result ≡ 1) }
    ensures refused { result ≡ 2
        → TellsAloud (hosts H.contents H.called H.failed H.faults) host.old host.new }

    // The version is printed, or memory ran out.
    ensures versioned { let all = hosts H.contents H.called H.failed H.faults in
        AsksVersion (map string_bytes words.now)
        → Prints all version_text result host.old host.new
        ⊎ ((result ≡ 1) × Complained all (line_for memory) host.old host.new) }
{
    one_reading();
    run_words(alloc, words, host, console)
}
