//! A list of edits that grows, each with the time after the one before.
use crate::plan_error::PlanError;
use std::alloc::Global;
use zed_op::{Edit, Op};
use zed_types::Stamp;

/// The edits that are planned so far, and the stamp of the next one.
#[derive(Drop)]
pub(crate) struct Plan {
    next: Stamp,
    edits: Vec<Edit>,
}

impl Plan {
    /// No edits. The first one will have this stamp.
    pub(crate) fn new(alloc: Global, first: Stamp) -> Plan {
        Plan {
            next: first,
            edits: Vec::new(alloc),
        }
    }

    /// Plans an edit, and tells its stamp.
    pub(crate) fn add(&mut self, op: Op) -> Result<Stamp, PlanError> {
        let stamp = self.next;
        if stamp.time > Stamp::LAST_TIME {
            return Err(PlanError::NotPlanned);
        }
        self.edits.push(Edit { stamp, op })?;
        self.next = Stamp {
            time: stamp.time + 1,
            replica: stamp.replica,
        };
        Ok(stamp)
    }

    /// The edits that were planned.
    pub(crate) fn close(self) -> Vec<Edit> {
        let Plan { next: _, edits } = self;
        edits
    }
}
