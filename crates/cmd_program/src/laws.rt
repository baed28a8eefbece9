//! Laws of programs as texts.
ghost use Rattle.cmd_program.specs.Laws.{PrintedSetsNothing};

use crate::own_programs_stay;
use zed_plaintext::what_is_printed_is_read;
use zed_world::read_is_normal;

/// Setting the text that was printed changes nothing: FILE isn't written.
pub fn what_is_printed_sets_nothing()
    ensures { PrintedSetsNothing }
{
    what_is_printed_is_read();
    own_programs_stay();
    read_is_normal();
}
