//! Whether two documents show and hold the same.
ghost use Rattle.zed_document.specs.Reading.{AnswersSame};

use crate::document::Document;
use crate::error::DocumentError;

impl Document {
    /// Whether two documents have equal world numbers, equal contents, removed and dead things
    /// included, and equal held edits. Stale if either is.
    pub fn same(&self, other: &Document) -> Result<bool, DocumentError>
        ensures { AnswersSame self.now other.now result }
    {
        let shown = self.view()?;
        let others = other.view()?;
        Ok(
            self.world() == other.world()
                && shown.same_content(&others)
                && self.body().inbox.same(&other.body().inbox),
        )
    }
}
