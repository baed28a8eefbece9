//! What is known of all four views when findings are spelled.
use crate::names::Names;
use crate::writers::Drawings;
use std::alloc::{AllocError, Global};
use zed_document::{Document, View};
use zed_join::{Removers, Sides, Views};
use zed_live::LiveBoard;
use zed_sides::Side;
use zed_stats::LiveStat;
use zed_types::{BoardId, StatId};

/// Who shows something: a side, or the union.
#[derive(Clone, Copy)]
pub(crate) enum Shower {
    Of(Side),
    Union,
}

/// The views with the names of their things, who removed what, and who drew where.
#[derive(Drop)]
pub(crate) struct Known<'v, 'a> {
    pub(crate) merged: &'v Document,
    pub(crate) views: &'v Views<'a>,
    mine: Names,
    theirs: Names,
    union: Names,
    pub(crate) removers: Removers,
    pub(crate) drawings: Drawings,
}

impl<'v, 'a> Known<'v, 'a> {
    pub(crate) fn of(
        alloc: Global,
        sides: &'v Sides<'_>,
        views: &'v Views<'a>,
    ) -> Result<Known<'v, 'a>, AllocError> {
        Ok(Known {
            merged: &sides.union,
            views,
            mine: Names::of(alloc, &views.mine)?,
            theirs: Names::of(alloc, &views.theirs)?,
            union: Names::of(alloc, &views.union)?,
            removers: Removers::of(alloc, &sides.union)?,
            drawings: Drawings::of(alloc, &sides.union)?,
        })
    }

    pub(crate) fn view(&self, shower: Shower) -> &View<'a> {
        match shower {
            Shower::Of(side) => self.views.of(side),
            Shower::Union => &self.views.union,
        }
    }

    pub(crate) fn names(&self, shower: Shower) -> &Names {
        match shower {
            Shower::Of(Side::Mine) => &self.mine,
            Shower::Of(Side::Theirs) => &self.theirs,
            Shower::Union => &self.union,
        }
    }

    /// A board, if it was made there.
    pub(crate) fn board(&self, shower: Shower, board: BoardId) -> Option<&'a LiveBoard> {
        self.names(shower).board(self.view(shower), board)
    }

    /// A stat, if it was made there.
    pub(crate) fn stat(&self, shower: Shower, stat: StatId) -> Option<&'a LiveStat> {
        self.names(shower).stat(self.view(shower), stat)
    }

    /// Appends what a board is called.
    pub(crate) fn put_board(
        &self,
        out: &mut Vec<u8>,
        shower: Shower,
        board: BoardId,
    ) -> Result<(), AllocError> {
        self.names(shower).put_board(out, self.view(shower), board)
    }

    /// Appends what a stat is called.
    pub(crate) fn put_stat(
        &self,
        out: &mut Vec<u8>,
        shower: Shower,
        stat: StatId,
    ) -> Result<(), AllocError> {
        self.names(shower).put_stat(out, self.view(shower), stat)
    }
}
