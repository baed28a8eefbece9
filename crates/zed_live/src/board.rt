//! A board, each of whose registers keeps its latest write.

ghost use Rattle.std.specs.Prelude.{◌≡◌, true, false, IfOk, OnOk, OnErr};
ghost use Rattle.zed_types.specs.Register.{value_or};
ghost use Rattle.zed_op.specs.Fit.{Fits};
ghost use Rattle.zed_op.specs.Growth.{may_grow};
ghost use Rattle.zed_live.specs.Board.{as_made, board_after, stat_changed};

use crate::properties::LiveProperties;
use crate::stats::{add_new, stats_made};
use std::alloc::{AllocError, Global};
use zed_cells::{Cells, keep_in};
use zed_edit::{Board, Edit, Op, Properties};
use zed_stats::Stats;
use zed_types::{Stamp, StatId, Written};

/// A board: its properties, whether it is removed, its cells and its stats, each with its latest write.
#[derive(Drop)]
pub struct LiveBoard {
    pub properties: LiveProperties,
    pub removed: Option<Written<bool>>,
    pub cells: Cells,
    pub stats: Stats,
}

fn copy_properties(properties: &Properties) -> Result<Properties, AllocError>
    ensures ok { IfOk result (λ p. p ≡ properties.now) }
{
    let name = properties.texts[0].copy()?;
    let message = properties.texts[1].copy()?;
    Ok(Properties {
        bytes: properties.bytes,
        flags: properties.flags,
        time_limit: properties.time_limit,
        rank: properties.rank,
        exits: properties.exits,
        texts: [name, message],
    })
}

impl LiveBoard {
    /// A board as the edit with this stamp makes it.
    pub fn new(alloc: Global, stamp: Stamp, made: &Board) -> Result<LiveBoard, AllocError>
        ensures ok { IfOk result (λ b. b ≡ as_made stamp made.now) }
    {
        let mut from = copy_properties(&made.properties)?;
        let mut properties = LiveProperties::new();
        properties.write_all(alloc, stamp, &mut from);
        let cells = Cells::new(alloc, made.tiles, stamp)?;
        let stats = stats_made(alloc, made.stats.as_slice())?;
        Ok(LiveBoard {
            properties,
            removed: Some(Written {
                stamp,
                value: made.removed,
            }),
            cells,
            stats,
        })
    }

    /// Puts an edit of the board in, whenever it comes. Memory leaves the board as it was.
    pub fn take(&mut self, edit: &Edit) -> Result<(), AllocError>
        requires { Fits edit.now }
        ensures ok { OnOk result (self.new ≡ board_after edit.now.stamp edit.now.op self.old) }
        ensures kept { OnErr result (self.new ≡ self.old) }
        ensures memory_only_when { OnErr result (may_grow edit.now.op ≡ true) }
    {
        match &edit.op {
            Op::BoardRemove(_) => {
                keep_in(
                    &mut self.removed,
                    Written {
                        stamp: edit.stamp,
                        value: true,
                    },
                );
                Ok(())
            }
            Op::SetBoard(_, setting) => self.properties.write(edit.stamp, setting),
            Op::SetCells(_, cells, tile) => {
                self.cells.set(*cells, edit.stamp, *tile);
                Ok(())
            }
            Op::StatAdd(_, fields) => add_new(&mut self.stats, edit.stamp, *fields),
            Op::StatRemove(_) => {
                self.change_stat(edit);
                Ok(())
            }
            Op::SetStat(_, _) => {
                self.change_stat(edit);
                Ok(())
            }
            _ => Ok(()),
        }
    }

    /// Puts an edit of one stat in, whenever it comes, if that stat is on the board.
    pub fn change_stat(&mut self, edit: &Edit)
        ensures { self.new ≡ stat_changed edit.now.stamp edit.now.op self.old }
    {
        match &edit.op {
            Op::StatRemove(id) => self.stats.remove(*id),
            Op::SetStat(id, setting) => self.stats.set_field(*id, edit.stamp, *setting),
            _ => {}
        }
    }

    /// Seeks a stat, so that it is found at once when it is asked for or changed. Nothing changes.
    pub(crate) fn hint_stat(&mut self, stat: StatId)
        ensures { self.new ≡ self.old }
    {
        self.stats.hint(stat);
    }

    /// Whether the board is removed.
    pub fn is_removed(&self) -> bool
        ensures { result ≡ value_or false self.now.removed }
    {
        match &self.removed {
            Some(write) => write.value,
            None => false,
        }
    }
}
