//! What only the union has wrong, and which world can't be saved.
ghost use Rattle.std.specs.Prelude.{◌≡◌, OnOk};
ghost use Rattle.zed_compare.specs.Findings.{of_registers};

use std::alloc::{AllocError, Global};
use std::collections::BTreeSet;
use zed_compare::{Finding, Whose};
use zed_document::{Document, View};
use zed_export::{ExportError, export};
use zed_join::Sides;
use zed_lint::{Spot, findings};
use zed_types::{BoardId, READ_BODY_LIMIT};
use zed_world::World;

/// The lines of the findings in a world, each with the board that it is of.
#[derive(Drop)]
struct Found {
    text: Vec<u8>,
    lines: Vec<Line>,
}

/// A line: its board, and where its words begin behind the number of the board, and where it ends.
#[derive(Clone, Copy)]
struct Line {
    board: Option<BoardId>,
    start: usize,
    words: usize,
    end: usize,
}

// The names of the boards by number.
fn names_of(alloc: Global, view: &View) -> Result<Vec<BoardId>, AllocError> {
    let mut names = Vec::new(alloc);
    for at in view.first_boards(alloc, None).as_slice() {
        let (id, _) = view.board(*at);
        names.push(id)?;
    }
    Ok(names)
}

fn board_of(spot: Spot) -> Option<usize> {
    match spot {
        Spot::World => None,
        Spot::Board(number) | Spot::Tile(number, _, _) | Spot::Stat(number, _, _, _) => {
            Some(number)
        }
    }
}

// How many words stand before what counts: `board N`, and `stat S` of a stat.
fn words_before(spot: Spot) -> usize {
    match spot {
        Spot::World => 0,
        Spot::Board(_) | Spot::Tile(_, _, _) => 2,
        Spot::Stat(_, _, _, _) => 4,
    }
}

// Where a text goes on behind so many words, from one place on.
fn behind_words(text: &[u8], start: usize, end: usize, words: usize) -> usize {
    let mut left = words;
    for i in start..end {
        if left == 0 {
            return i;
        }
        if text.get(i) == Some(&b' ') {
            left = left.saturating_sub(1);
        }
    }
    start
}

fn line_end(text: &[u8], start: usize) -> usize {
    for i in start..text.len() {
        if text.get(i) == Some(&b'\n') {
            return i;
        }
    }
    text.len()
}

impl Found {
    fn of(alloc: Global, view: &View, world: &World) -> Result<Found, AllocError> {
        let names = names_of(alloc, view)?;
        let mut text = Vec::new(alloc);
        zed_lint::lint(world, &mut text)?;
        let mut lines = Vec::new(alloc);
        let mut start = 0;
        for finding in &findings(alloc, world)? {
            let end = line_end(text.as_slice(), start);
            let board = match board_of(finding.spot) {
                Some(number) => names.get(number).copied(),
                None => None,
            };
            let words = behind_words(text.as_slice(), start, end, words_before(finding.spot));
            lines.push(Line {
                board,
                start,
                words,
                end,
            })?;
            start = end.saturating_add(1);
        }
        Ok(Found { text, lines })
    }

    fn part(&self, from: usize, to: usize) -> &[u8] {
        if from <= to && to <= self.text.len() {
            &self.text.as_slice()[from..to]
        } else {
            &[]
        }
    }

    // What a line says of which board, as one key.
    fn key(&self, alloc: Global, line: &Line) -> Result<Vec<u8>, AllocError> {
        let mut key = Vec::new(alloc);
        if let Some(board) = line.board {
            let name = board.name;
            key.extend_from_slice(&name.stamp.time.to_be_bytes())?;
            key.extend_from_slice(&name.stamp.replica.to_be_bytes())?;
            key.extend_from_slice(&name.index.to_be_bytes())?;
        }
        key.extend_from_slice(self.part(line.words, line.end))?;
        Ok(key)
    }

    // Adds the keys of all lines.
    fn add_keys(&self, alloc: Global, keys: &mut BTreeSet<Vec<u8>>) -> Result<(), AllocError> {
        for line in &self.lines {
            keys.insert(self.key(alloc, line)?)?;
        }
        Ok(())
    }
}

// What is found in the world of a document, or why it can't be exported.
fn found_in(alloc: Global, document: &Document) -> Result<Result<Found, ExportError>, AllocError> {
    match export(alloc, document, READ_BODY_LIMIT) {
        Ok(world) => {
            let Ok(view) = document.view() else {
                return Err(AllocError);
            };
            Ok(Ok(Found::of(alloc, &view, &world)?))
        }
        Err(ExportError::Memory) => Err(AllocError),
        Err(error) => Ok(Err(error)),
    }
}

// Notes that a world can't be saved, if it can't be.
#[tactic(auto, using(crate::proofs::Others::other_adds_none))]
fn note_unsaved(
    found: &mut Vec<Finding>,
    whose: Whose,
    world: &Result<Found, ExportError>,
) -> Result<(), AllocError>
    ensures { OnOk result (of_registers found.new.items ≡ of_registers found.old.items) }
{
    if let Err(error) = world {
        found.push(Finding::Unsaved(whose, *error))?;
    }
    Ok(())
}

// Whether a world can't be saved for this reason.
fn fails_by(world: &Result<Found, ExportError>, error: ExportError) -> bool {
    match world {
        Ok(_) => false,
        Err(other) => *other == error,
    }
}

// Notes that the union can't be saved, where no side has the same reason.
fn note_merged(
    found: &mut Vec<Finding>,
    mine: &Result<Found, ExportError>,
    theirs: &Result<Found, ExportError>,
    union: &Result<Found, ExportError>,
) -> Result<(), AllocError>
    ensures { OnOk result (of_registers found.new.items ≡ of_registers found.old.items) }
{
    match union {
        Err(error) if !fails_by(mine, *error) && !fails_by(theirs, *error) => {
            note_unsaved(found, Whose::Merged, union)
        }
        _ => Ok(()),
    }
}

// The lines of one world that two others don't have.
fn new_lines(
    alloc: Global,
    mine: &Found,
    theirs: &Found,
    union: &Found,
) -> Result<Vec<Vec<u8>>, AllocError> {
    let mut keys = BTreeSet::new(alloc);
    mine.add_keys(alloc, &mut keys)?;
    theirs.add_keys(alloc, &mut keys)?;
    let mut lines = Vec::new(alloc);
    for line in &union.lines {
        if !keys.contains(&union.key(alloc, line)?) {
            lines.push(Vec::from_slice(alloc, union.part(line.start, line.end))?)?;
        }
    }
    Ok(lines)
}

/// Appends which worlds can't be saved: those of the sides, and that of the union where no side has
/// the same reason. Answers the lines of what `lint` finds in the union, and in neither side.
pub(crate) fn find_troubles(
    alloc: Global,
    found: &mut Vec<Finding>,
    sides: &Sides<'_>,
) -> Result<Vec<Vec<u8>>, AllocError>
    ensures { OnOk result (of_registers found.new.items ≡ of_registers found.old.items) }
{
    let mine = found_in(alloc, sides.mine)?;
    let theirs = found_in(alloc, sides.theirs)?;
    let union = found_in(alloc, &sides.union)?;
    note_unsaved(found, Whose::Mine, &mine)?;
    note_unsaved(found, Whose::Theirs, &theirs)?;
    note_merged(found, &mine, &theirs, &union)?;
    match (&mine, &theirs, &union) {
        (Ok(mine), Ok(theirs), Ok(union)) => new_lines(alloc, mine, theirs, union),
        _ => Ok(Vec::new(alloc)),
    }
}
