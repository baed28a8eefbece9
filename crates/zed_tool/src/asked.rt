//! What words ask for, as the commands take it.
ghost use Rattle.std.specs.Prelude.{◌≡◌};
ghost use Rattle.zed_tool.specs.Commands.{choice_of as choice_for, compare_strictness_of as compare_strictness_for, filter_of as filter_for, forcing_of as forcing_for, form_of as form_for, going_of as going_for, length_of as length_for, listing_of as listing_for, others_of as others_for, size_of as size_for, strictness_of as strictness_for, trial_of as trial_for};

use cmd_log::{Length, Listing, Strictness};
use cmd_play::Going;
use cmd_take::Forcing;
use cmd_undo::{Others, Trial};
use zed_filter::{BoardChoice, Filter};
use zed_look::Form;
use zed_set_words::BoardPlace;
use zed_terminal::Size;

/// What is done where work would be lost.
pub(crate) fn forcing_of(forcing: zed_tool_words::Forcing) -> Forcing
    ensures { result ≡ forcing_for forcing }
{
    match forcing {
        zed_tool_words::Forcing::Careful => Forcing::Careful,
        zed_tool_words::Forcing::Forced => Forcing::Forced,
    }
}

/// What of a world is listed.
pub(crate) fn listing_of(listing: zed_tool_words::Listing) -> Listing
    ensures { result ≡ listing_for listing }
{
    match listing {
        zed_tool_words::Listing::Boards => Listing::Boards,
        zed_tool_words::Listing::Stats(board) => Listing::Stats(board),
        zed_tool_words::Listing::Program(board, stat) => Listing::Program(board, stat),
    }
}

/// How much of the line of a world is printed.
pub(crate) fn length_of(length: zed_tool_words::Length) -> Length
    ensures { result ≡ length_for length }
{
    match length {
        zed_tool_words::Length::Short => Length::Short,
        zed_tool_words::Length::Full => Length::Full,
    }
}

// The board that is meant, if one is.
fn choice_of(board: Option<BoardPlace>) -> Option<BoardChoice>
    ensures { result ≡ choice_for board }
{
    match board {
        Some(BoardPlace::Numbered(number)) => Some(BoardChoice::Number(number)),
        Some(BoardPlace::Named(board)) => Some(BoardChoice::Name(board)),
        None => None,
    }
}

/// Which edits are meant.
pub(crate) fn filter_of(filter: zed_tool_words::Filter) -> Filter
    ensures { result ≡ filter_for filter }
{
    Filter {
        board: choice_of(filter.board),
        cell: filter.cell,
        replica: filter.replica,
        since: filter.since,
        until: filter.until,
    }
}

/// How large a terminal is, as far as it is told before it tells itself.
pub(crate) fn size_of(rows: Option<u16>) -> Size
    ensures { result ≡ size_for rows }
{
    Size {
        rows: rows.unwrap_or(27),
        columns: 0,
    }
}

/// Whether a playtest goes on over boards.
pub(crate) fn going_of(going: zed_tool_words::Going) -> Going
    ensures { result ≡ going_for going }
{
    match going {
        zed_tool_words::Going::Stays => Going::Stays,
        zed_tool_words::Going::On => Going::On,
    }
}

/// How a picture is written.
pub(crate) fn form_of(form: zed_tool_words::Form) -> Form
    ensures { result ≡ form_for form }
{
    match form {
        zed_tool_words::Form::Coloured => Form::Coloured,
        zed_tool_words::Form::Plain => Form::Plain,
        zed_tool_words::Form::Ruled => Form::Ruled,
        zed_tool_words::Form::Svg => Form::Svg,
    }
}

/// Whether findings are told by the status too.
pub(crate) fn strictness_of(strictness: zed_tool_words::Strictness) -> Strictness
    ensures { result ≡ strictness_for strictness }
{
    match strictness {
        zed_tool_words::Strictness::Lenient => Strictness::Lenient,
        zed_tool_words::Strictness::Strict => Strictness::Strict,
    }
}

/// The same of `compare`.
pub(crate) fn compare_strictness_of(
    strictness: zed_tool_words::Strictness,
) -> cmd_compare::Strictness
    ensures { result ≡ compare_strictness_for strictness }
{
    match strictness {
        zed_tool_words::Strictness::Lenient => cmd_compare::Strictness::Lenient,
        zed_tool_words::Strictness::Strict => cmd_compare::Strictness::Strict,
    }
}

/// Whether what is undone is written.
pub(crate) fn trial_of(trial: zed_tool_words::Trial) -> Trial
    ensures { result ≡ trial_for trial }
{
    match trial {
        zed_tool_words::Trial::Real => Trial::Real,
        zed_tool_words::Trial::Dry => Trial::Dry,
    }
}

/// What is done with what others built on the edits that are undone.
pub(crate) fn others_of(others: zed_tool_words::Others) -> Others
    ensures { result ≡ others_for others }
{
    match others {
        zed_tool_words::Others::Spared => Others::Spared,
        zed_tool_words::Others::Included => Others::Included,
    }
}
