//! Laws of wrong words.
ghost use Rattle.zed_set_words.specs.Laws.{WrongWordIsTold};

/// The refusal names the first wrong word: any other words after it, or none, give the same
/// refusal.
#[tactic(auto, using(crate::proofs::Told::wrong_word_is_told))]
pub fn wrong_word_is_the_first()
    ensures { WrongWordIsTold }
{}
