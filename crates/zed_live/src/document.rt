//! A document that changes edit by edit, in whatever order they come.

ghost use Rattle.std.specs.Prelude.{◌≡◌, true, OnOk, OnErr};
ghost use Rattle.zed_op.specs.Fit.{Fits};
ghost use Rattle.zed_op.specs.Growth.{may_grow};
ghost use Rattle.zed_op.specs.Verdict.{is_genesis};
ghost use Rattle.zed_edit.specs.Replay.{made_by};
ghost use Rattle.zed_live.specs.Document.{empty_live, document_after};

use crate::boards::LiveBoards;
use crate::header::LiveHeader;
use std::alloc::{AllocError, Global};
use zed_edit::{Edit, Op, Plain, made_by};

/// A header and boards, each register with its latest write. `zed_texts` has the texts.
#[derive(Drop)]
pub struct LiveDocument {
    pub header: LiveHeader,
    pub boards: LiveBoards,
}

impl LiveDocument {
    /// A document that took no edit. It takes no memory.
    pub fn new(alloc: Global) -> LiveDocument
        ensures { result ≡ empty_live }
    {
        LiveDocument {
            header: LiveHeader::new(),
            boards: LiveBoards::new(alloc),
        }
    }

    /// Puts an edit in, whenever it comes. Memory leaves the document as it was.
    pub fn take(&mut self, alloc: Global, edit: &Edit) -> Result<(), AllocError>
        requires { Fits edit.now }
        ensures ok { OnOk result (self.new ≡ document_after edit.now self.old) }
        ensures kept { OnErr result (self.new ≡ self.old) }
        ensures memory_only_when { OnErr result (may_grow edit.now.op ≡ true) }
    {
        match &edit.op {
            Op::Genesis(_) => {
                let world = made_by(alloc, edit)?;
                self.open(alloc, edit, world)
            }
            Op::SetHeader(setting) => self.header.write(edit.stamp, setting),
            _ => self.boards.take(alloc, edit),
        }
    }

    /// Puts in the world that an edit makes, as `take` does, for a caller who has made that world
    /// already: gives the header its values, and adds its boards. Memory leaves the document as it
    /// was.
    pub fn open(&mut self, alloc: Global, edit: &Edit, mut world: Plain) -> Result<(), AllocError>
        requires fits { Fits edit.now }
        requires genesis { is_genesis edit.now.op ≡ true }
        requires made { world ≡ made_by edit.now }
        ensures ok { OnOk result (self.new ≡ document_after edit.now self.old) }
        ensures kept { OnErr result (self.new ≡ self.old) }
    {
        let boards = world.boards.as_slice();
        self.boards.add_made(alloc, edit.stamp, boards)?;
        self.header.write_all(alloc, edit.stamp, &mut world.header);
        Ok(())
    }
}
