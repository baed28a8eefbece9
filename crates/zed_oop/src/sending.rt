//! Messages to labels, and labels that are hidden and shown again.
ghost use Rattle.std.specs.Prelude.{◌≡◌, IfSome, None, position, slice_get};
ghost use Rattle.zed_oop.specs.Sending.{arrived, is_colon, is_meant, is_named, is_number, is_own, is_reached, is_target, label_of, restore_at, restored_in, is_heard, is_heard_by, or_heard_by, send_one, sent, sent_alone, set_to, so_far, zapped_in};

use zed_oop_syntax::{
    byte_is, first_label, is_restart, is_word, is_word_at, label_at, label_place,
};
use zed_scene::{Scene, Stat};
use zed_types::Bytes;

/// Where the target of a word ends.
pub(crate) fn colon(word: &[u8]) -> Option<usize>
    ensures { result ≡ position is_colon word.now }
{
    word.iter().position(|b| *b == b':')
}

/// The label of a word, behind its target.
#[tactic(auto, unfolding(crate::specs::Sending::label_of))]
pub(crate) fn label_of(word: &[u8]) -> &[u8]
    ensures { result.now ≡ label_of word.now }
{
    match colon(word) {
        Some(k) => &word[k + 1..],
        None => word,
    }
}

/// Whether a program has this name.
#[tactic(auto, unfolding(crate::specs::Sending::is_named))]
pub(crate) fn is_named(program: &[u8], name: &[u8]) -> bool
    ensures { result ≡ is_named program.now name.now }
{
    byte_is(program, 0, b'@') && is_word_at(program, 1, name)
}

/// Whether stat i, whose program this is, is meant by a name.
fn is_meant(program: &[u8], name: &[u8], i: usize, own: bool) -> bool
    ensures { result ≡ is_meant program.now name.now i own }
{
    if is_word(name, "ALL") {
        return 1 <= i;
    }
    if is_word(name, "OTHERS") {
        return 1 <= i && !own;
    }
    if is_word(name, "SELF") {
        return own;
    }
    1 <= i && is_named(program, name)
}

/// Whether a word is sent to stat i, whose program this is.
#[tactic(auto, unfolding(crate::specs::Sending::is_target, crate::specs::Sending::target_of))]
pub(crate) fn is_target(program: &[u8], word: &[u8], i: usize, own: bool) -> bool
    ensures { result ≡ is_target program.now word.now i own }
{
    match colon(word) {
        Some(k) => is_meant(program, &word[..k], i, own),
        None => own,
    }
}

/// Hides the first label of this word.
pub(crate) fn zap(program: &mut Bytes, label: &[u8])
    ensures { program.new ≡ zapped_in label.now program.old }
{
    if !is_restart(label) {
        if let Some(at) = first_label(program.as_slice(), label) {
            program.set(at, b'\'');
        }
    }
}

fn restore_at(program: &mut Bytes, label: &[u8], at: usize)
    ensures { program.new ≡ restore_at label.now at program.old }
{
    if at < program.as_slice().len() && label_at(b'\'', program.as_slice(), at, label) {
        program.set(at, b':');
    }
}

/// Shows the hidden labels of this word.
pub(crate) fn restore(program: &mut Bytes, label: &[u8])
    ensures { program.new ≡ restored_in label.now program.old }
{
    if !is_restart(label) {
        let n = program.as_slice().len();
        for at in 0..n {
            restore_at(program, label, at);
        }
    }
}

/// Whether stat i is this one.
fn is_number(i: usize, number: Option<usize>) -> bool
    ensures { result ≡ is_number i number }
{
    match number {
        Some(n) => n == i,
        None => false,
    }
}

pub(crate) fn is_own(scene: &Scene, i: usize) -> bool
    ensures { result ≡ is_own scene.now i }
{
    is_number(i, scene.running())
}

/// Lets stat i go on at a place, if there is one.
fn set_to(scene: &mut Scene, i: usize, place: Option<usize>)
    ensures { IfSome (slice_get scene.old.stats i) (λ a. scene.new ≡ set_to i a place scene.old) }
{
    if let Some(at) = place {
        scene.set_position(i, Some(at));
    }
}

/// Whether a word that is sent reaches stat i, whose program this is.
fn is_reached(program: &[u8], word: &[u8], i: usize, own: bool, stat: &Stat) -> bool
    ensures { result ≡ is_reached program.now word.now i own stat.now }
{
    is_target(program, word, i, own) && (stat.p2 == 0 || own)
}

/// Lets stat i go on at a place, and answers whether the own position was set by now.
fn arrive(scene: &mut Scene, i: usize, place: Option<usize>, before: bool) -> bool
    ensures { IfSome (slice_get scene.old.stats i)
        (λ a. so_far scene.new result ≡ arrived i a place (so_far scene.old before)) }
{
    match place {
        Some(_) => {
            let own = is_own(scene, i);
            set_to(scene, i, place);
            before || own
        }
        None => before,
    }
}

/// Sends a word to stat i, if it is a target, and tells whether the own position was set by now.
#[tactic(auto, unfolding(crate::specs::Sending::send_one))]
fn send_one(scene: &mut Scene, word: &[u8], i: usize, before: bool) -> bool
    ensures { so_far scene.new result ≡ send_one word.now i (so_far scene.old before) }
{
    match scene.stat_ref(i) {
        Some(stat) => {
            let own = is_own(scene, i);
            let program = scene.program(stat.program);
            if is_reached(program, word, i, own, stat) {
                let place = label_place(program, label_of(word));
                arrive(scene, i, place, before)
            } else {
                before
            }
        }
        None => before,
    }
}

/// Sends a word with a target to each stat.
#[tactic(auto, unfolding(crate::specs::Sending::sent))]
fn send_to_all(scene: &mut Scene, word: &[u8]) -> bool
    ensures { sent word.now scene.old ≡ so_far scene.new result }
{
    let n = scene.stats().len();
    let mut own = false;
    for i in 0..n {
        own = send_one(scene, word, i, own);
    }
    own
}

/// Sends a word without a target, which no other stat hears.
fn send_to_own(scene: &mut Scene, word: &[u8]) -> bool
    requires { position is_colon word.now ≡ None }
    ensures { sent word.now scene.old ≡ so_far scene.new result }
{
    match scene.running() {
        Some(i) => send_one(scene, word, i, false),
        None => false,
    }
}

/// Sends a word: the position of each target that has the label is set to it. Tells whether the own one was.
pub(crate) fn send(scene: &mut Scene, word: &[u8]) -> bool
    ensures { sent word.now scene.old ≡ so_far scene.new result }
{
    match colon(word) {
        Some(_) => send_to_all(scene, word),
        None => send_to_own(scene, word),
    }
}

/// Whether a word that is sent comes to stat i, which has the label.
fn is_heard_by(scene: &Scene, word: &[u8], i: usize) -> bool
    ensures { result ≡ is_heard_by word.now i (slice_get scene.now.stats i) scene.now }
{
    match scene.stat_ref(i) {
        Some(stat) => {
            let program = scene.program(stat.program);
            is_reached(program, word, i, is_own(scene, i), stat)
                && label_place(program, label_of(word)).is_some()
        }
        None => false,
    }
}

fn or_heard_by(scene: &Scene, word: &[u8], i: usize, before: bool) -> bool
    ensures { result ≡ or_heard_by word.now scene.now i before }
{
    before || is_heard_by(scene, word, i)
}

/// Whether any stat hears a word that is sent.
#[tactic(auto, unfolding(crate::specs::Sending::is_heard))]
pub(crate) fn is_heard(scene: &Scene, word: &[u8]) -> bool
    ensures { result ≡ is_heard word.now scene.now }
{
    let n = scene.stats().len();
    let mut heard = false;
    for i in 0..n {
        heard = or_heard_by(scene, word, i, heard);
    }
    heard
}

/// Sends a label to stat i alone, if it isn't locked.
pub fn send_alone(scene: &mut Scene, i: usize, label: &[u8])
    ensures result { scene.new ≡ sent_alone label.now i scene.old }
{
    if let Some(stat) = scene.stat_ref(i) {
        if stat.p2 == 0 {
            let place = label_place(scene.program(stat.program), label);
            set_to(scene, i, place);
        }
    }
}
