//! Which edits wrote what shows.
use std::alloc::{AllocError, Global};
use std::collections::BTreeMap;
use zed_compare::{BoardRegister, StatRegister, WorldRegister};
use zed_document::Document;
use zed_edit::{Edit, Op};
use zed_live::{LiveHeader, LiveProperties};
use zed_stats::{LiveStat, StatField};
use zed_types::{
    BoardByte, BoardId, BoardText, COLUMNS, Rectangle, Stamp, StatByte, StatNumber, TILES, Written,
};

// The stamp of a register's write, if it was written.
fn stamp_of<V>(register: &Option<Written<V>>) -> Option<Stamp> {
    match register {
        Some(write) => Some(write.stamp),
        None => None,
    }
}

// The stamp of the write of a register of several.
fn stamp_at<V>(registers: &[Option<Written<V>>], i: u8) -> Option<Stamp> {
    match registers.get(usize::from(i)) {
        Some(register) => stamp_of(register),
        None => None,
    }
}

// The later one of two stamps, if there are any.
fn later(one: Option<Stamp>, other: Option<Stamp>) -> Option<Stamp> {
    match (one, other) {
        (Some(a), Some(b)) => Some(if a.is_before(b) { b } else { a }),
        (Some(a), None) => Some(a),
        (None, b) => b,
    }
}

/// The edit that wrote a register of the world.
pub(crate) fn writer_in_world(header: &LiveHeader, register: WorldRegister) -> Option<Stamp> {
    match register {
        WorldRegister::Number(field) => stamp_at(&header.numbers, field.index()),
        WorldRegister::Key(colour) => stamp_at(&header.keys, colour.index()),
        WorldRegister::Saved => stamp_of(&header.saved),
        WorldRegister::StartBoard => stamp_of(&header.current_board),
        WorldRegister::Name => stamp_of(&header.world_name),
        WorldRegister::Flag(slot) => stamp_at(&header.flags, slot.index()),
    }
}

/// The edit that wrote a register of a board, or the later one of two.
pub(crate) fn writer_on_board(
    properties: &LiveProperties,
    register: BoardRegister,
) -> Option<Stamp> {
    match register {
        BoardRegister::Name => stamp_at(&properties.texts, BoardText::Name.index()),
        BoardRegister::Message => stamp_at(&properties.texts, BoardText::Message.index()),
        BoardRegister::Rank => stamp_of(&properties.rank),
        BoardRegister::MaxShots => stamp_at(&properties.bytes, BoardByte::MaxShots.index()),
        BoardRegister::Flag(field) => stamp_at(&properties.flags, field.index()),
        BoardRegister::TimeLimit => stamp_of(&properties.time_limit),
        BoardRegister::Start => later(
            stamp_at(&properties.bytes, BoardByte::StartX.index()),
            stamp_at(&properties.bytes, BoardByte::StartY.index()),
        ),
        BoardRegister::Exit(edge) => stamp_at(&properties.exits, edge.index()),
    }
}

// The edit that wrote a field of a stat.
fn writer_of(stat: &LiveStat, field: StatField) -> Option<Stamp> {
    stat.stamps.get(usize::from(field.number())).copied()
}

// The later one of the edits that wrote two bytes of a stat.
fn later_byte(stat: &LiveStat, one: StatByte, other: StatByte) -> Option<Stamp> {
    later(
        writer_of(stat, StatField::Byte(one)),
        writer_of(stat, StatField::Byte(other)),
    )
}

/// The edit that wrote a register of a stat, or the later one of two.
pub(crate) fn writer_of_stat(stat: &LiveStat, register: StatRegister) -> Option<Stamp> {
    match register {
        StatRegister::Place => later_byte(stat, StatByte::X, StatByte::Y),
        StatRegister::Step => later(
            writer_of(stat, StatField::Number(StatNumber::StepX)),
            writer_of(stat, StatField::Number(StatNumber::StepY)),
        ),
        StatRegister::Under => later_byte(stat, StatByte::UnderElement, StatByte::UnderColour),
        StatRegister::Cycle => writer_of(stat, StatField::Number(StatNumber::Cycle)),
        StatRegister::Position => writer_of(stat, StatField::Number(StatNumber::Position)),
        StatRegister::P1 => writer_of(stat, StatField::Byte(StatByte::P1)),
        StatRegister::P2 => writer_of(stat, StatField::Byte(StatByte::P2)),
        StatRegister::Follower => writer_of(stat, StatField::Follower),
        StatRegister::Leader => writer_of(stat, StatField::Leader),
        StatRegister::P3 => writer_of(stat, StatField::P3),
    }
}

/// The edit that gave a stat its text.
pub(crate) fn writer_of_text(stat: &LiveStat) -> Option<Stamp> {
    writer_of(stat, StatField::Text)
}

/// Where in a document the edits of the cells of each board are, in their order.
#[derive(Drop)]
pub(crate) struct Drawings {
    boards: BTreeMap<BoardId, Vec<usize>>,
}

impl Drawings {
    fn note(&mut self, alloc: Global, board: BoardId, i: usize) -> Result<(), AllocError> {
        if let Some(places) = self.boards.get_mut(&board) {
            places.push(i)?;
            return Ok(());
        }
        let mut places = Vec::new(alloc);
        places.push(i)?;
        self.boards.insert(board, places)?;
        Ok(())
    }

    /// Those of a document. Edits that are held draw nothing.
    pub(crate) fn of(alloc: Global, document: &Document) -> Result<Drawings, AllocError> {
        let mut drawings = Drawings {
            boards: BTreeMap::new(alloc),
        };
        for (i, edit) in document.edits().iter().enumerate() {
            if let Op::SetCells(board, _, _) = &edit.op {
                if !document.is_held(edit.stamp) {
                    drawings.note(alloc, *board, i)?;
                }
            }
        }
        Ok(drawings)
    }

    /// The stamp of the edit that wrote each cell of a board, row after row; none where the board's
    /// maker did.
    pub(crate) fn writers(
        &self,
        alloc: Global,
        edits: &[Edit],
        board: BoardId,
    ) -> Result<Vec<Option<Stamp>>, AllocError> {
        let mut writers = Vec::new(alloc);
        for _ in 0..TILES {
            writers.push(None)?;
        }
        if let Some(places) = self.boards.get(&board) {
            for i in places {
                if let Some(edit) = edits.get(*i) {
                    draw(&mut writers, edit);
                }
            }
        }
        Ok(writers)
    }
}

// The cells that an edit sets are of its stamp.
fn draw(writers: &mut Vec<Option<Stamp>>, edit: &Edit) {
    if let Op::SetCells(_, cells, _) = &edit.op {
        draw_cells(writers, *cells, edit.stamp);
    }
}

fn draw_cells(writers: &mut Vec<Option<Stamp>>, cells: Rectangle, stamp: Stamp) {
    for y in cells.top..cells.bottom.saturating_add(1) {
        for x in cells.left..cells.right.saturating_add(1) {
            let row = usize::from(y).saturating_sub(1).saturating_mul(COLUMNS);
            let at = row.saturating_add(usize::from(x).saturating_sub(1));
            if let Some(writer) = writers.get_mut(at) {
                *writer = Some(stamp);
            }
        }
    }
}
