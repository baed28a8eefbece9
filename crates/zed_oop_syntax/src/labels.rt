//! Labels and names in programs.
ghost use Rattle.std.specs.Prelude.{◌≡◌, ◌↔◌, IsTrue, IfOk, IfSome, ◌<◌, length, slice_get};
ghost use Rattle.zed_oop_syntax.specs.Label.{byte_is, ends_word, first_label, follows, label_at, is_restart, label_place, one_word};

use crate::text::is_word;
use std::alloc::{AllocError, Global};
use zed_types::Bytes;

#[tactic(auto, unfolding(crate::specs::Label::one_word))]
/// Whether two words are the same, except for the case of their letters.
fn one_word(a: &[u8], b: &[u8]) -> bool
    ensures { result ≡ one_word a.now b.now }
{
    a.eq_ignore_ascii_case(b)
}

/// Whether this byte is at a place.
pub fn byte_is(program: &[u8], at: usize, byte: u8) -> bool
    ensures { result ≡ byte_is program.now at byte }
{
    match program.get(at) {
        Some(there) => *there == byte,
        None => false,
    }
}

/// Whether a label's word ends where this byte follows it.
fn ends_word(next: Option<u8>) -> bool
    ensures { result ≡ ends_word next }
{
    match next {
        Some(byte) => !(byte.is_ascii_alphabetic() || byte == b'_'),
        None => true,
    }
}

/// Whether a label's word is at a place, and ends there.
#[tactic(auto, unfolding(crate::specs::Label::follows))]
fn follows(program: &[u8], at: usize, label: &[u8]) -> bool
    ensures { result ≡ follows program.now at label.now }
{
    if at > program.len() {
        return false;
    }
    if program.len() - at < label.len() {
        return false;
    }
    let end = at + label.len();
    one_word(&program[at..end], label) && ends_word(program.get(end).copied())
}

/// Whether this mark and a label's word begin a line at a place that isn't the first.
#[tactic(auto, unfolding(crate::specs::Label::label_at))]
pub fn label_at(mark: u8, program: &[u8], at: usize, label: &[u8]) -> bool
    ensures { result ≡ label_at mark program.now label.now at }
{
    if at == 0 || !byte_is(program, at - 1, 13) || !byte_is(program, at, mark) {
        return false;
    }
    if at == usize::MAX {
        return false;
    }
    follows(program, at + 1, label)
}

#[tactic(auto, unfolding(crate::specs::Label::first_label))]
/// The place of the first label of this word.
pub fn first_label(program: &[u8], label: &[u8]) -> Option<usize>
    ensures result { result ≡ first_label program.now label.now }
    ensures within { IfSome result (λ at. at < length program.now) }
{
    for at in 0..program.len() {
        if label_at(b':', program, at, label) {
            return Some(at);
        }
    }
    None
}

/// Whether a label is the word for the beginning.
pub fn is_restart(label: &[u8]) -> bool
    ensures { result ≡ is_restart label.now }
{
    is_word(label, "RESTART")
}

/// Where a message to a label leads.
pub fn label_place(program: &[u8], label: &[u8]) -> Option<usize>
    ensures { result ≡ label_place program.now label.now }
{
    if is_restart(label) {
        Some(0)
    } else {
        first_label(program, label)
    }
}
