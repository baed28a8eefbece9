//! Labels that commands of programs name, and no program has.
ghost use Rattle.std.specs.Prelude.{◌≡◌, ◌<◌, ◌++◌, OnErr, OnOk, length, position};
ghost use Rattle.zed_lint.specs.Labels.{begins_commands, behind_word, first_word, has_label, is_colon, is_in_commands, is_known, is_label, is_lost, is_naming, is_no_space, is_of_word, is_past_word, starts_line, label_findings, label_of, labels_findings, named_label, names_label, some_has, unspaced};
ghost use Rattle.zed_oop_syntax.specs.Label.{one_word as one_word_of};

use crate::finding::{Finding, Spot, What};
use crate::noting::note;
use crate::stats::own_bytes;
use std::alloc::AllocError;
use zed_oop_syntax::{byte_is, label_at};
use zed_types::Bytes;
use zed_world::StatData;

/// The byte that ends a line of a program.
const END: u8 = 13;

// Whether a byte may be in a word.
fn is_of_word(byte: u8) -> bool
    ensures { result ≡ is_of_word byte }
{
    byte.is_ascii_alphanumeric() || byte == b':' || byte == b'_'
}

// Where the spaces at the front end.
fn spaces_end(bytes: &[u8]) -> Option<usize>
    ensures { result ≡ position is_no_space bytes.now }
{
    bytes.iter().position(|byte| *byte != b' ')
}

// What stands behind the spaces at the front.
#[tactic(auto, unfolding(crate::specs::Labels::unspaced))]
fn unspaced(bytes: &[u8]) -> &[u8]
    ensures { result.now ≡ unspaced bytes.now }
{
    match spaces_end(bytes) {
        Some(end) => &bytes[end..],
        None => &[],
    }
}

// Where the word at the front ends.
fn word_end(bytes: &[u8]) -> Option<usize>
    ensures { result ≡ position is_past_word bytes.now }
{
    bytes.iter().position(|byte| !is_of_word(*byte))
}

// The word behind the spaces at the front.
#[tactic(auto, unfolding(crate::specs::Labels::first_word))]
fn first_word(bytes: &[u8]) -> &[u8]
    ensures { result.now ≡ first_word bytes.now }
{
    let rest = unspaced(bytes);
    match word_end(rest) {
        Some(end) => &rest[..end],
        None => rest,
    }
}

// What stands behind that word.
#[tactic(auto, unfolding(crate::specs::Labels::behind_word))]
fn behind_word(bytes: &[u8]) -> &[u8]
    ensures { result.now ≡ behind_word bytes.now }
{
    let rest = unspaced(bytes);
    match word_end(rest) {
        Some(end) => &rest[end..],
        None => &[],
    }
}

// Whether two words are one but for the case of their letters.
#[tactic(auto, unfolding(zed_oop_syntax::specs::Label::one_word))]
fn is_word(word: &[u8], name: &str) -> bool
    ensures { result ≡ one_word_of word.now name.now }
{
    word.eq_ignore_ascii_case(name.as_bytes())
}

// Whether a command sends a message to a label, or hides or shows one.
fn names_label(word: &[u8]) -> bool
    ensures { result ≡ names_label word.now }
{
    is_word(word, "SEND") || is_word(word, "ZAP") || is_word(word, "RESTORE")
}

/// Whether a line begins at a place.
pub(crate) fn starts_line(program: &[u8], at: usize) -> bool
    ensures { result ≡ starts_line program.now at }
{
    at == 0 || byte_is(program, at - 1, END)
}

/// Whether what begins at a place begins with a command or a step.
pub(crate) fn begins_commands(program: &[u8], at: usize) -> bool
    ensures { result ≡ begins_commands program.now at }
{
    byte_is(program, at, b'#') || byte_is(program, at, b'/') || byte_is(program, at, b'?')
}

// Whether the line of a place begins so.
#[tactic(auto, using(crate::proofs::Begins::step_back, crate::proofs::Begins::begins))]
fn is_in_commands(program: &[u8], at: usize) -> bool
    ensures { result ≡ is_in_commands program.now at }
{
    let mut start = at;
    while start > 0 && !byte_is(program, start - 1, END) {
        start -= 1;
    }
    begins_commands(program, start)
}

fn colon(message: &[u8]) -> Option<usize>
    ensures { result ≡ position is_colon message.now }
{
    message.iter().position(|byte| *byte == b':')
}

/// Of a message the label, which stands behind a colon where there is one.
#[tactic(auto, unfolding(crate::specs::Labels::label_of))]
pub(crate) fn label_of(message: &[u8]) -> &[u8]
    ensures { result.now ≡ label_of message.now }
{
    match colon(message) {
        Some(i) => &message[i + 1..],
        None => message,
    }
}

// Whether at a place of such a line stands a command that names a label.
fn is_naming(program: &[u8], at: usize) -> bool
    requires { at < length program.now }
    ensures { result ≡ is_naming program.now at }
{
    if !byte_is(program, at, b'#') {
        return false;
    }
    names_label(first_word(&program[at + 1..])) && is_in_commands(program, at)
}

// The label that such a command names.
#[tactic(auto, unfolding(crate::specs::Labels::named_label))]
fn named_label(program: &[u8], at: usize) -> &[u8]
    requires { at < length program.now }
    ensures { result.now ≡ named_label program.now at }
{
    label_of(first_word(behind_word(&program[at + 1..])))
}

// Whether a label stands at a place, seen or hidden.
fn is_label(program: &[u8], label: &[u8], at: usize) -> bool
    ensures { result ≡ is_label program.now label.now at }
{
    label_at(b':', program, at, label) || label_at(b'\'', program, at, label)
}

#[tactic(auto, using(crate::proofs::Below::found_below), unfolding(crate::specs::Labels::has_label))]
fn has_label(program: &[u8], label: &[u8]) -> bool
    ensures { result ≡ has_label program.now label.now }
{
    for at in 0..program.len() {
        if is_label(program, label, at) {
            return true;
        }
    }
    false
}

// Whether the program of one of these stats has a label.
fn some_has(stats: &[StatData], label: &[u8]) -> bool
    ensures { result ≡ some_has stats.now label.now }
{
    stats
        .iter()
        .any(|stat| has_label(own_bytes(&stat.code), label))
}

/// Whether a message to a label can lead anywhere.
pub(crate) fn is_known(stats: &[StatData], label: &[u8]) -> bool
    ensures { result ≡ is_known stats.now label.now }
{
    is_word(label, "RESTART") || some_has(stats, label)
}

// Whether a command at a place names a label, and no program has it.
#[tactic(auto, unfolding(crate::specs::Labels::is_lost))]
fn is_lost(stats: &[StatData], program: &[u8], at: usize) -> bool
    requires { at < length program.now }
    ensures { result ≡ is_lost stats.now program.now at }
{
    if !is_naming(program, at) {
        return false;
    }
    let label = named_label(program, at);
    !label.is_empty() && !is_known(stats, label)
}

#[tactic(auto, using(crate::proofs::Some::lost))]
fn note_label(
    found: &mut Vec<Finding>,
    spot: Spot,
    stats: &[StatData],
    program: &[u8],
    at: usize,
    byte: u8,
) -> Result<(), AllocError>
    requires { at < length program.now }
    ensures ok { OnOk result
        (found.new.items ≡ found.old.items ++ label_findings spot stats.now program.now at byte) }
    ensures memory_only_when { OnErr result
        (0 < length (label_findings spot stats.now program.now at byte)) }
{
    if !is_lost(stats, program, at) {
        return Ok(());
    }
    let label = Bytes::from_slice(*found.allocator(), named_label(program, at))?;
    note(found, spot, Some(What::NoLabel(at, label)))
}

/// Notes the labels that a program names, and that no program of these stats has.
pub(crate) fn note_labels(
    found: &mut Vec<Finding>,
    spot: Spot,
    stats: &[StatData],
    program: &[u8],
) -> Result<(), AllocError>
    ensures ok { OnOk result
        (found.new.items ≡ found.old.items ++ labels_findings spot stats.now program.now) }
    ensures memory_only_when { OnErr result
        (0 < length (labels_findings spot stats.now program.now)) }
{
    for (at, byte) in program.iter().enumerate() {
        note_label(found, spot, stats, program, at, *byte)?;
    }
    Ok(())
}
