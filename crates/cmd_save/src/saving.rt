//! The commands `save` and `check`, which tell of the set of edits of their files.
ghost use Rattle.std.specs.Prelude.{◌≡◌, ◌≤◌};
ghost use Rattle.zed_types.specs.declared.limits.TheConstants.{READ_BODY_LIMIT};

use crate::report::{report, world_file};
use std::alloc::Global;
use zed_document::Document;
use zed_driver::{Effect, Stop};
use zed_files::{Telling, bytes_told};
use zed_refusal::Reason;

/// `save` writes the world file, of at most so many bytes a body, and a line that tells its length.
#[derive(Drop)]
pub struct Save<'a> {
    limit: usize,
    out: &'a str,
    ghost within: { limit ≤ READ_BODY_LIMIT },
}

impl<'a> Save<'a> {
    pub fn new(limit: usize, out: &'a str) -> Save<'a>
        requires { limit ≤ READ_BODY_LIMIT }
        ensures limit { result.limit ≡ limit }
        ensures out { result.out ≡ out.entry }
    {
        Save { limit, out }
    }
}

impl Telling for Save<'_> {
    ghost use Rattle.cmd_save.specs.Made.{saves};

    ghost tells = { λ s. saves s.limit s.out.now };

    fn tell(&self, alloc: Global, document: &Document) -> Result<Effect, Stop<Reason>> {
        let bytes = world_file(alloc, document, self.limit)?;
        let line = bytes_told(alloc, bytes.len())?;
        Ok(Effect::writes(alloc, self.out, bytes, line.as_str())?)
    }
}

/// `check` prints the report on the world, of at most so many bytes a body.
#[derive(Drop)]
pub struct Check {
    limit: usize,
    ghost within: { limit ≤ READ_BODY_LIMIT },
}

impl Check {
    pub fn new(limit: usize) -> Check
        requires { limit ≤ READ_BODY_LIMIT }
        ensures { result.limit ≡ limit }
    {
        Check { limit }
    }
}

impl Telling for Check {
    ghost use Rattle.cmd_save.specs.Made.{checks};

    ghost tells = { λ s. checks s.limit };

    fn tell(&self, alloc: Global, document: &Document) -> Result<Effect, Stop<Reason>> {
        let text = report(alloc, document, self.limit)?;
        Ok(Effect::prints(alloc, text, 0))
    }
}
