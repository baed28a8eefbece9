//! Laws of lines.
ghost use Rattle.std.specs.Prelude.{ℕ};
ghost use Rattle.zed_log.specs.Laws.{HasNoControl};
ghost use Rattle.zed_log.specs.Boards.{board_words};
ghost use Rattle.zed_log.specs.ListLaws.{HasALineABoard, HasALineALine, HasALineAStat, LinesAreTheProgram};
ghost use Rattle.zed_log.specs.Program.{line_words};
ghost use Rattle.zed_log.specs.Stats.{stat_words};
ghost use Rattle.zed_world.specs.declared.board.BoardData.{BoardData as TheBoard};
ghost use Rattle.zed_world.specs.declared.stat.StatData.{StatData as TheStat};

/// Each board, each stat and each line of a program has one line. Its only control byte is the line
/// feed at its end.
#[tactic(auto, using(crate::proofs::ListPrinted::board_is, crate::proofs::ListPrinted::stat_is, crate::proofs::ListPrinted::line_is, crate::proofs::Counted::boards_counted, crate::proofs::Counted::stats_counted, crate::proofs::Counted::lines_counted))]
pub fn each_is_on_its_line()
    ensures board { (n rank : ℕ) (b : TheBoard) → HasNoControl (board_words n rank b) }
    ensures stat { (b : TheBoard) (n : ℕ) (s : TheStat) → HasNoControl (stat_words b n s) }
    ensures program { (at : ℕ) (line : _) → HasNoControl (line_words at line) }
    ensures boards { HasALineABoard }
    ensures stats { HasALineAStat }
    ensures lines { HasALineALine }
{}

/// The lines of a program, one after another, are the program.
#[tactic(auto, using(crate::proofs::Counted::are_program))]
pub fn lines_are_the_program()
    ensures { LinesAreTheProgram }
{}
