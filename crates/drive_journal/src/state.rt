//! How far a drive has come in an offload.

use crate::record::{Gate, Rec};
use bay_core::FileInfo;
use copy_plan::Plan;

/// How far a drive has come: no journal; a journal whose next record stands behind its gate; or a journal with a record
/// for every file of its plan, and the list of the plan beside it.
#[derive(Debug, Drop)]
pub enum State {
    Fresh,
    Begun {
        plan: Plan,
        entries: Vec<Rec>,
        gate: Gate,
    },
    Sealed {
        plan: Plan,
        entries: Vec<Rec>,
    },
}

/// What a look at a drive found: how far it has come, and its listing.
#[derive(Debug, Drop)]
pub struct Look {
    pub state: State,
    pub listing: Vec<FileInfo>,
}
