//! Laws of findings, and of their lines.
ghost use Rattle.zed_lint.specs.Laws.{HasALineAFinding, UntoldIsPlain};
ghost use Rattle.zed_lint.specs.Lines.{finding_words};
ghost use Rattle.zed_lint.specs.declared.finding.Finding.{Finding as TheFinding};
ghost use Rattle.zed_log.specs.Laws.{HasNoControl};

/// Each finding has one line. Its only control byte is the line feed at its end.
#[tactic(auto, using(crate::proofs::Printed::finding_is, crate::proofs::Printed::lines_counted))]
pub fn each_is_on_its_line()
    ensures words { (f : TheFinding) → HasNoControl (finding_words f) }
    ensures lines { HasALineAFinding }
{}

/// A board without findings has a body of at most 20,000 bytes, a name of at most 34, one player,
/// and no element over 53. So one line for all tiles of an element leaves none out.
#[tactic(auto, using(crate::proofs::Plain::untold))]
pub fn nothing_stays_untold()
    ensures { UntoldIsPlain }
{}
