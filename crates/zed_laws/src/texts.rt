//! The names of what texts hold.
ghost use Rattle.zed_laws.specs.TextNames.{ElementsHaveOwnNames, ElementsAreOfEdits, TextsAreOfEdits};

/// The bytes of a text have names of their own. They were made by edits, and so were the texts.
pub fn texts_keep_names()
    ensures own { ElementsHaveOwnNames }
    ensures elements { ElementsAreOfEdits }
    ensures texts { TextsAreOfEdits }
{}
