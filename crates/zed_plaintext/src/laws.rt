//! Laws of the texts of programs.
ghost use Rattle.zed_plaintext.specs.Laws.{PrintedIsRead};

/// The text of a program reads back as that program.
pub fn what_is_printed_is_read()
    ensures { PrintedIsRead }
{}
