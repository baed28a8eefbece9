//! The command `show`.
ghost use Rattle.std.specs.Prelude.{[], ◌≡◌, ◌≤◌, ◌⊎◌, Bool, Err, IfErr, List, MatchResult, Ok, Option, Some, false};
ghost use Rattle.zed_types.specs.declared.limits.TheConstants.{READ_BODY_LIMIT};
ghost use Rattle.zed_host.specs.Counting.{Counts, Rose};
ghost use Rattle.zed_files.specs.Faults.{TellsFailures};
ghost use Rattle.zed_host.specs.HostContents.{HostContents};
ghost use Rattle.zed_files.specs.Asked.{Asks, reading, refusal_in};
ghost use Rattle.zed_files.specs.Collected.{FirstIsThere};
ghost use Rattle.zed_files.specs.Effects.{Ends};
ghost use Rattle.zed_files.specs.Refusals.{TellsRefusal, is_key_fault, is_screen_fault};
ghost use Rattle.zed_files.specs.Texts.{texts_of};
ghost use Rattle.zed_play.specs.declared.key.Key.{Key};
ghost use Rattle.cmd_show.specs.Shown.{CallsOnce, ComesToShow, ShowsOn, board_in};
ghost use Rattle.cmd_show.specs.Stage.{stage};

use std::alloc::Global;
use zed_document::Document;
use zed_files::{Refusal, load};
use zed_host::Host;
use zed_session::{Screen, show_board};

// Shows a board of a document's world at a limit. Where there is none, that is told whatever is lacking.
fn show_on(
    alloc: Global,
    document: &Document,
    board: usize,
    limit: usize,
    screen: &mut dyn Screen,
) -> Result<(), Refusal>
    requires sound { document.now.is_stale ≡ false }
    requires limit { limit ≤ READ_BODY_LIMIT }
    ensures shows { (keys : Option (List Key)) (source : Option (List Bool))
        → let before = stage (shown screen.old) (screen_foretells screen.old) keys source in
        let after = stage (shown screen.new) (screen_foretells screen.new) keys source in
        MatchResult result
        (λ _. ShowsOn before after limit (Ok document.now.edits) board (Ok tt))
        (λ e. (e ≡ Refusal.Memory)
        ⊎ ShowsOn before after limit (Ok document.now.edits) board (Err e)) }
    ensures no_board { TellsRefusal (board_in limit document.now.edits board) result }
    ensures once { CallsOnce result
        (screen_foretells screen.old) (screen_foretells screen.new) (screen.new ≡ screen.old) }
    ensures err { is_key_fault result ≡ false }
    ensures screen_faults { Counts (is_screen_fault result)
        (screen_failures screen.old) (screen_failures screen.new) }
{
    show_board(alloc, screen, document, board, limit)?;
    Ok(())
}

/// Shows a board of the world of edit files, of at most so many bytes a body. The screen is called
/// once, or not at all if the command is refused before. Memory may be lacking only if the first file
/// is there.
pub fn show<H: Host>(
    alloc: Global,
    host: &mut H,
    limit: usize,
    board: u16,
    files: &[&str],
    screen: &mut dyn Screen,
) -> Result<(), Refusal>
    requires { limit ≤ READ_BODY_LIMIT }
    ensures ends { (t : HostContents) (keys : Option (List Key)) (source : Option (List Bool))
        → H.contents host.old ≡ Some t
        → let failed = Rose (H.faults host.old) (H.faults host.new) in
        let before = stage (shown screen.old) (screen_foretells screen.old) keys source in
        let after = stage (shown screen.new) (screen_foretells screen.new) keys source in
        Ends failed (ComesToShow failed before after t limit board (texts_of files.now)) t
        result (H.contents host.new) }
    ensures memory_only_when { (t : HostContents) → H.contents host.old ≡ Some t
        → IfErr result (λ e. e ≡ Refusal.Memory → FirstIsThere t (texts_of files.now)) }
    ensures once { CallsOnce result
        (screen_foretells screen.old) (screen_foretells screen.new) (screen.new ≡ screen.old) }
    ensures err { is_key_fault result ≡ false }
    ensures screen_faults { Counts (is_screen_fault result)
        (screen_failures screen.old) (screen_failures screen.new) }
    ensures asked { Asks H.called (reading (texts_of files.now)) [] (refusal_in result) host.old host.new }
    ensures failures { TellsFailures H.faults H.failed result host.old host.new }
{
    let document = load(alloc, host, files)?;
    show_on(alloc, &document, usize::from(board), limit, screen)
}
