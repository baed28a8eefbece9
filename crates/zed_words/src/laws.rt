//! What plain words ask for. A number is written in decimal digits, with or without a plus in
//! front, so its word begins with no hyphen.
ghost use Rattle.zed_words.specs.Laws.{PlainWordsCheck, PlainWordsEdit, PlainWordsMerge, PlainWordsNew, PlainWordsPlay, PlainWordsSave, PlainWordsShow};

/// `save OUT FILES...`, where no word begins with a hyphen, asks to save, and so does `save --big OUT FILES...`, in the large profile.
pub fn plain_words_save()
    ensures { PlainWordsSave }
{}

/// `check FILES...`, where no word begins with a hyphen, asks to check, and so does `check --big FILES...`, in the large profile.
pub fn plain_words_check()
    ensures { PlainWordsCheck }
{}

/// `new OUT WORLD`, where `WORLD` is a number below 2^64 and `OUT` begins with no hyphen, asks for
/// a new world. `--from FILE`, and then `--name TEXT`, may follow, where `FILE` and `TEXT` begin
/// with no hyphen.
pub fn plain_words_new()
    ensures { PlainWordsNew }
{}

/// `edit FILE REPLICA WORDS...`, where `REPLICA` is a number below 2^16 and no other word begins with a hyphen, asks for an action.
pub fn plain_words_edit()
    ensures { PlainWordsEdit }
{}

/// `merge OUT WORLD FILES...`, where `WORLD` is a number below 2^64 and no other word begins with a hyphen, asks to merge.
pub fn plain_words_merge()
    ensures { PlainWordsMerge }
{}

/// `show BOARD FILES...`, where `BOARD` is a number below 2^16 and no other word begins with a hyphen, asks to show the board, and so
/// does `show --big BOARD FILES...`, in the large profile.
pub fn plain_words_show()
    ensures { PlainWordsShow }
{}

/// `play BOARD WORDS FILES...`, where `BOARD` is a number below 2^16 and no other word begins with a hyphen, asks to play the board, and
/// so does `play --big BOARD WORDS FILES...`, in the large profile.
pub fn plain_words_play()
    ensures { PlainWordsPlay }
{}
