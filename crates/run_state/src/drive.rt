use drive_journal::{Gate, Rec};

/// Where a drive of a run stands.
#[derive(Debug, Drop)]
pub enum DriveRun {
    /// It is not of the run, or was dropped.
    Gone,
    /// It has no journal: it is begun with room for its records.
    Fresh {
        room: Vec<Rec>,
    },
    /// It has these records, and a closed gate behind them; `kept` says that it keeps the part of its next file.
    Begun {
        entries: Vec<Rec>,
        gate: Gate,
        kept: bool,
    },
    /// It was found sealed, with these records, and its line is still to be said.
    Found {
        entries: Vec<Rec>,
    },
    /// It is sealed, and its line was said, or tried where the run ended by it.
    Sealed,
}
