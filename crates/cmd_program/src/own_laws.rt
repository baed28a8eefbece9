//! Laws of worlds with other programs.
ghost use Rattle.cmd_program.specs.OwnLaws.{OwnProgramStays};

/// If a stat gets the program that it has, the world stays as it is, if a file can spell it.
pub fn own_programs_stay()
    ensures { OwnProgramStays }
{}
