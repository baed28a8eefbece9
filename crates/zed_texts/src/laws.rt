//! What live texts show, in whatever order the edits came.
ghost use Rattle.zed_texts.specs.Shows.{NoneIsEmpty, TextsTake, TextsAreReady, ReplayedTextsAreShown};

/// Texts have the bytes of the edits that were put in, at their places, in whatever order the edits
/// came.
pub fn texts_show_their_edits()
    ensures none { NoneIsEmpty }
    ensures takes { TextsTake }
{}

/// An edit that can be done, and isn't in yet, may be put in.
pub fn texts_are_ready()
    ensures { TextsAreReady }
{}

/// Texts that show the edits taken are those of their replay.
pub fn texts_show_the_replay()
    ensures { ReplayedTextsAreShown }
{}
