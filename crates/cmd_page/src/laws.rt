//! The law on escaping.
ghost use Rattle.cmd_page.specs.Laws.{IsContained};

/// What is written for a byte of a name or a program has no `<`, `>` or quote, and no `&` but that of
/// its own entity.
pub fn names_and_programs_are_contained()
    ensures { IsContained }
{}
