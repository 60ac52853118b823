// A run between two turns, and what is known of it.
ghost use Rattle.std.specs.Prelude.{◌≡◌, ◌<◌, ◌≤◌, ℕ, length, map, Some, IfOk};
ghost use Rattle.std.specs.List.{slice_get, AllByRecursion};
ghost use Rattle.copy_plan.specs.Inventory.{IsPlannable};
ghost use Rattle.drive_journal.specs.declared.order.Order.{Order as AnOrder};
ghost use Rattle.run_state.specs.Rules.{IsStart, bound, held};
ghost use Rattle.run_state.specs.State.{at_of, files_of};
ghost use Rattle.offload_run.specs.Offload.{ordered_of, drives_of, stands_at, turns_left_of, begins_at, run_at, HasAtMost, HasRoom, IsStocked, IsRunOf};

use copy_plan::{Plan, PlannedFile, encode};
use drive_journal::{DriveStart, Listed, Order};
use fan_core::Drives;
use path_text::Scratch;
use run_state::{DriveRun, Outcome, Phase, starts_within_the_bound};
use std::alloc::{AllocError, Global};

/// A run of an offload, from its order to its end.
#[derive(Drop)]
pub struct Offload {
    pub(crate) source: u32,
    pub(crate) copies: u32,
    pub(crate) slots: u32,
    pub(crate) plan: Plan,
    pub(crate) listed: Option<Vec<Listed>>,
    // What is published on a fresh drive: the code of the plan and a closed gate.
    pub(crate) journal: Vec<u8>,
    pub(crate) drives: Vec<DriveRun>,
    pub(crate) phase: Phase,
    pub(crate) outcome: Outcome,
    // The drives whose line `sealed`, and whose line `dropped`, was said.
    pub(crate) sealed: Drives,
    pub(crate) dropped: Drives,
    // For lines, and for the parts of lists.
    pub(crate) line: Scratch,
}

impl Offload {
    /// The run of an order, before its first turn. It takes all memory of the run but the pool's: the journal of the plan, the
    /// room for a record of each file on each drive, and a scratch.
    pub fn new(alloc: Global, order: Order) -> Result<Offload, AllocError>
        ensures of { IfOk result (λ run. IsRunOf order run) }
        ensures starts { IfOk result (λ run. IsStart (ordered_of run) (stands_at run)) }
        ensures few { IfOk result (λ run. turns_left_of run ≤ bound (length (drives_of run).each) run.plan) }
        ensures stocked { IfOk result (λ run. IsStocked run) }
    {
        starts_within_the_bound();
        let count = order.plan.files().len();
        let mut journal = encode(alloc, &order.plan)?;
        journal.push(0)?;
        let drives = drive_runs(alloc, order.drives, count)?;
        Ok(Offload {
            source: order.source,
            copies: order.copies,
            slots: order.slots,
            plan: order.plan,
            listed: order.listed,
            journal,
            drives,
            phase: Phase::Begins { d: 0 },
            outcome: Outcome::Going,
            sealed: Drives::none(),
            dropped: Drives::none(),
            line: Scratch::new(alloc)?,
        })
    }

    /// How the run ended, or that it goes on.
    pub fn outcome(&self) -> Outcome
        ensures { result ≡ (stands_at self.now).outcome }
    {
        self.outcome
    }

    /// The drives whose line `sealed` the turns of this run said.
    pub fn sealed(&self) -> Drives
        ensures { result ≡ (drives_of self.now).sealed }
    {
        self.sealed
    }

    /// The drives whose line `dropped` the turns of this run said.
    pub fn dropped(&self) -> Drives
        ensures { result ≡ (drives_of self.now).dropped }
    {
        self.dropped
    }

    /// How many slots of the pool the run has.
    pub fn held(&self) -> u32
        ensures { result ≡ held (stands_at self.now).phase }
    {
        match &self.phase {
            Phase::Copies { copy, .. } => copy.held(),
            _ => 0,
        }
    }

    /// The plan of the run.
    pub fn plan(&self) -> &Plan
        ensures { result.now ≡ (ordered_of self.now).plan }
    {
        &self.plan
    }
}

// The drives of a run, each with room for a record of each of so many files.
fn drive_runs(
    alloc: Global,
    starts: Vec<DriveStart>,
    count: usize,
) -> Result<Vec<DriveRun>, AllocError>
    requires { AllByRecursion (HasAtMost count) starts.items }
    ensures at { IfOk result (λ drives. map at_of drives.items ≡ map begins_at starts.items) }
    ensures room { IfOk result (λ drives. (d : ℕ) → HasRoom count (run_at drives.items d)) }
{
    let mut drives = Vec::new(alloc);
    for start in starts {
        drives.push(drive_run(alloc, start, count)?)?;
    }
    Ok(drives)
}

// A drive with room for a record of each of so many files.
fn drive_run(alloc: Global, start: DriveStart, count: usize) -> Result<DriveRun, AllocError>
    requires { HasAtMost count start }
    ensures at { IfOk result (λ drive. at_of drive ≡ begins_at start) }
    ensures room { IfOk result (λ drive. HasRoom count drive) }
{
    Ok(match start {
        DriveStart::Gone => DriveRun::Gone,
        DriveStart::Fresh => {
            let mut room = Vec::new(alloc);
            room.reserve(count)?;
            DriveRun::Fresh { room }
        }
        DriveStart::Begun {
            entries,
            gate,
            kept,
        } => {
            let mut entries = entries;
            let more = count - entries.len();
            entries.reserve(more)?;
            DriveRun::Begun {
                entries,
                gate,
                kept,
            }
        }
        DriveStart::Sealed { entries } => DriveRun::Found { entries },
    })
}

// A file of a plan, counted from 0.
pub(crate) fn file_at(plan: &Plan, index: u32) -> &PlannedFile
    requires { index < files_of plan.now }
    ensures is { slice_get plan.now.files index ≡ Some result.now }
    ensures plannable { IsPlannable result.now }
{
    &plan.files()[index as usize]
}
