//! Sessions: rows that make their calls, and that ask how they stand.
use crate::desk::Desk;
use crate::parts::Parts;
use crate::receiving::{counts_of, document_of};
use std::alloc::AllocFailed;
use zed_link::Link;
use zed_play::{Ending, Play};
use zed_screen::{ascii, draw_play};
use zed_session::{HoldsDocument, Session, SessionError};
use zed_types::BODY_LIMIT;

/// A call of a session, with the number of a board or the place of a link.
#[derive(Clone, Copy)]
enum Act {
    Show(usize),
    Play(usize),
    Push(usize),
    Pull(usize),
    Detach(usize),
    /// A key is taken, with the desk's words of chance.
    Press,
    /// The next link is attached.
    Attach,
    Repair,
    /// There is no further row.
    End,
}

/// The call of this letter, if it is one.
fn act_of(letter: u8, desk: &mut Desk) -> Option<Act> {
    match letter {
        b'S' => Some(Act::Show(desk.tape.size())),
        b'P' => Some(Act::Play(desk.tape.size())),
        b'W' => Some(Act::Push(desk.tape.size())),
        b'R' => Some(Act::Pull(desk.tape.size())),
        b'D' => Some(Act::Detach(desk.tape.size())),
        b'K' => {
            desk.take_chances();
            Some(Act::Press)
        }
        b'A' => Some(Act::Attach),
        b'M' => Some(Act::Repair),
        b'.' => Some(Act::End),
        _ => None,
    }
}

/// Calls all that tells of a session.
fn read_all(session: &Session) -> Option<u16> {
    let _ = session.links();
    let _ = session.document();
    read_play(session.playtest()?)
}

/// Calls all that tells of a playtest, of which only the tick is told.
fn read_play(play: &Play) -> Option<u16> {
    let _ = (play.ending(), play.counters(), play.messages().len());
    let _ = play.board();
    let _ = ascii(&draw_play(play));
    Some(play.tick())
}

fn tell_play(play: Option<&Play>, desk: &mut Desk) {
    let Some(play) = play else {
        return desk.told.last("none");
    };
    let gems = play.counters().counters.gems;
    desk.told.number(u64::from(gems.unsigned_abs()));
    desk.told.number(u64::from(play.tick()));
    match play.ending() {
        None => desk.told.last("None"),
        Some(Ending::Left(_)) => desk.told.last("Some(Left)"),
        Some(Ending::Died) => desk.told.last("Some(Died)"),
        Some(Ending::Failed) => desk.told.last("Some(Failed)"),
    }
}

/// Tells how a session stands, by a row that isn't a call.
fn look(letter: u8, session: &Session, desk: &mut Desk) {
    match letter {
        b'e' => {
            desk.told.size(session.links());
            desk.told.size(session.document().edits().len());
            desk.told.end()
        }
        b'p' => tell_play(session.playtest(), desk),
        b't' => {
            desk.refuse();
            let tick = read_all(session);
            desk.take(&tick)
        }
        _ => desk.look(letter),
    }
}

/// The next call, behind the rows that ask before it. A row behind a question mark is done only where the document is stale.
fn next_act(session: &Session, desk: &mut Desk) -> Act {
    for _ in 0..usize::MAX {
        let mut letter = desk.next();
        if letter == b'?' {
            letter = desk.tape.letter();
            if session.document().view().is_ok() {
                desk.told.last("not stale");
                continue;
            }
        }
        match act_of(letter, desk) {
            Some(act) => return act,
            None => look(letter, session, desk),
        }
    }
    Act::End
}

/// The next link, if there is one.
fn next_of(links: &mut Vec<Box<dyn Link>>) -> Option<Box<dyn Link>> {
    if links.is_empty() {
        None
    } else {
        Some(links.remove(0))
    }
}

/// Tells of a link that is handed back. It comes to its end here, and not before: so many had before it was attached.
fn take_back(ends: u64, back: AllocFailed<Box<dyn Link>>, desk: &mut Desk) {
    let was_kept = desk.traces.ended_links() == ends;
    drop(back);
    if was_kept && ends < desk.traces.ended_links() {
        desk.take_word("handed back")
    } else {
        desk.take_word("lost")
    }
}

// Who makes a boxed link or device can't hand it out, nor can who lends a session to a call of another crate that lets one out. So all of
// that is here, and as little else as can be.
fn have_session(file: Vec<u8>, parts: Parts, desk: &mut Desk) {
    let mut links: Vec<Box<dyn Link>> = Vec::new(desk.alloc);
    for wire in parts.wires {
        let _ = links.push(wire);
    }
    for sink in parts.sinks {
        let _ = links.push(sink);
    }
    let document = document_of(desk.alloc, file);
    let mut session = Session::new(desk.alloc, document, parts.screen, parts.keys);
    for _ in 0..usize::MAX {
        let act = next_act(&session, desk);
        desk.refuse();
        match act {
            Act::Show(board) => desk.take(&session.show(board, BODY_LIMIT)),
            Act::Play(board) => desk.take(&session.play(board, BODY_LIMIT)),
            Act::Push(link) => desk.take(&session.push(link)),
            Act::Pull(link) => desk.take(&counts_of(session.pull(link))),
            Act::Detach(place) => match session.detach(place) {
                Ok(link) => {
                    drop(link);
                    desk.take(&Ok::<(), SessionError>(()))
                }
                Err(error) => desk.take(&Err::<(), SessionError>(error)),
            },
            Act::Press => {
                let used = session.play_key(desk.chances.as_slice());
                desk.take(&used)
            }
            Act::Attach => match next_of(&mut links) {
                Some(link) => {
                    let ends = desk.traces.ended_links();
                    match session.attach(link) {
                        Ok(place) => desk.take(&Ok::<usize, SessionError>(place)),
                        Err(back) => take_back(ends, back, desk),
                    }
                }
                None => desk.take_word("no link"),
            },
            Act::Repair => desk.take(&session.document_mut().repair()),
            Act::End => return,
        }
    }
}

/// Goes through the rows of a session whose document has the edits of the file that is told next.
pub fn play_session(parts: Parts, desk: &mut Desk) {
    let file = desk.tape.bytes(desk.alloc);
    have_session(file, parts, desk)
}
