//! Labels of programs that are hidden and shown again, for all that share them.
ghost use Rattle.std.specs.Prelude.{◌≡◌, None, position};
ghost use Rattle.zed_oop.specs.Sending.{changed_program, is_colon, relabel_one, relabelled, relabelled_in};

use crate::sending::{colon, is_own, is_target, label_of, restore, zap};
use std::alloc::Global;
use zed_scene::Scene;
use zed_types::Bytes;

/// What becomes of the labels of a word.
#[derive(Clone, Copy)]
pub(crate) enum Relabelling {
    /// The first is hidden.
    Hide,
    /// Each hidden one is shown.
    Show,
}

fn relabel(relabelling: Relabelling, program: &mut Bytes, label: &[u8])
    ensures { program.new ≡ relabelled_in relabelling label.now program.old }
{
    match relabelling {
        Relabelling::Hide => zap(program, label),
        Relabelling::Show => restore(program, label),
    }
}

#[tactic(auto, using(crate::proofs::ProgramLemmas::put_twice))]
fn relabel_program(
    scene: &mut Scene,
    alloc: Global,
    relabelling: Relabelling,
    program: Option<usize>,
    label: &[u8],
)
    ensures { scene.new
        ≡ changed_program (relabelled_in relabelling label.now) program scene.old }
{
    if let Some(k) = program {
        if k < scene.programs().len() {
            let mut bytes = scene.put_program(k, Bytes::new(Vec::new(alloc)));
            relabel(relabelling, &mut bytes, label);
            let _empty = scene.put_program(k, bytes);
        }
    }
}

/// Hides or shows the labels of a word in the program of stat i, if it is a target.
#[tactic(auto, unfolding(crate::specs::Sending::relabel_one))]
fn relabel_one(scene: &mut Scene, alloc: Global, relabelling: Relabelling, word: &[u8], i: usize)
    ensures { scene.new ≡ relabel_one relabelling word.now i scene.old }
{
    if let Some(stat) = scene.stat(i) {
        let own = is_own(scene, i);
        if is_target(scene.program(stat.program), word, i, own) {
            relabel_program(scene, alloc, relabelling, stat.program, label_of(word));
        }
    }
}

/// Hides or shows the labels of each target of a word.
#[tactic(auto, unfolding(crate::specs::Sending::relabelled))]
fn relabel_each(scene: &mut Scene, alloc: Global, relabelling: Relabelling, word: &[u8])
    ensures { scene.new ≡ relabelled relabelling word.now scene.old }
{
    let n = scene.stats().len();
    for i in 0..n {
        relabel_one(scene, alloc, relabelling, word, i);
    }
}

/// Hides or shows the labels of a word without a target in the program whose turn it is.
fn relabel_own(scene: &mut Scene, alloc: Global, relabelling: Relabelling, word: &[u8])
    requires { position is_colon word.now ≡ None }
    ensures { scene.new ≡ relabelled relabelling word.now scene.old }
{
    match scene.running() {
        Some(i) => relabel_one(scene, alloc, relabelling, word, i),
        None => {}
    }
}

/// Hides or shows the labels of a word in each target of it.
pub(crate) fn relabel_all(scene: &mut Scene, alloc: Global, relabelling: Relabelling, word: &[u8])
    ensures { scene.new ≡ relabelled relabelling word.now scene.old }
{
    match colon(word) {
        Some(_) => relabel_each(scene, alloc, relabelling, word),
        None => relabel_own(scene, alloc, relabelling, word),
    }
}
