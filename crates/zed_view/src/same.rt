//! Whether two views show the same, removed and dead things included.
ghost use Rattle.std.specs.Prelude.{◌↔◌, IsTrue};
ghost use Rattle.zed_edit.specs.Document.{HaveSameContent};

mod header;
mod listed;
mod slots;
mod things;
mod tiles;

use crate::same::header::headers_same;
use crate::same::listed::lists_same;
use crate::view::View;

impl<'a> View<'a> {
    /// Whether two views show equal headers, boards and texts, removed and dead things included.
    /// The edits that wait aren't looked at.
    pub fn same_content(&self, other: &View) -> bool
        ensures { IsTrue result ↔ HaveSameContent self.now other.now }
    {
        headers_same(&self.live.header, &other.live.header)
            && lists_same(&self.live.boards, &other.live.boards)
            && lists_same(self.texts, other.texts)
    }
}
