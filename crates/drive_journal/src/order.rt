//! What a run is to do, and where each of its drives stands.

ghost use Rattle.drive_journal.specs.Order.{IsOrder};

use crate::record::{Gate, Rec};
use copy_plan::Plan;

/// The digests that a source list records of a file.
#[derive(Clone, Copy, Debug)]
pub struct Listed {
    pub md5: Option<[u8; 16]>,
    pub sha1: Option<[u8; 20]>,
    pub xxh: Option<[u8; 8]>,
}

/// Where a drive stands as a run begins.
#[derive(Debug, Drop)]
pub enum DriveStart {
    /// It is not of the run, or was dropped before.
    Gone,
    /// It has no journal.
    Fresh,
    /// It has these records; `kept` says that it keeps the part of its next file.
    Begun {
        entries: Vec<Rec>,
        gate: Gate,
        kept: bool,
    },
    /// It has a record of every file, and its list.
    Sealed {
        entries: Vec<Rec>,
    },
}

/// What a run is to do: from which card, to which drives, by which plan, and with how many blocks at once. The card is
/// called clear where at least `copies` drives are sealed; no line says so where it is 0. `listed` has what a source
/// list records of each file of the plan, in its order.
///
/// It has one to eight drives and 1 to 16 slots. The records of a drive are those of the first files of the plan, its
/// gate stands behind them, and a sealed drive has one of every file.
#[derive(Drop)]
pub struct Order {
    pub source: u32,
    pub copies: u32,
    pub slots: u32,
    pub plan: Plan,
    pub listed: Option<Vec<Listed>>,
    pub drives: Vec<DriveStart>,
    pub ghost rules: { ∥ IsOrder slots plan listed drives.items ∥₁ },
}

#[cfg(test)]
mod tests {
    use super::*;
    use copy_plan::{Inventory, PlannedFile};
    use path_text::{Kinds, Label, Moment, PathText};
    use std::alloc::{AllocError, Global};
    use std::test::Fail;

    fn plan(alloc: Global) -> Result<Plan, Fail> {
        let label = Label::read("A001")?;
        let moment = Moment::new(0).ok_or("a moment")?;
        let mut files = Vec::new(alloc);
        files.push(PlannedFile {
            path: PathText::read(alloc, "e.mov")?,
            size: 0,
            modified: moment,
        })?;
        let inventory = Inventory::build(files)?;
        let kinds = Kinds {
            md5: true,
            sha1: false,
            xxh: false,
        };
        let plan = Plan::make(alloc, label, label, label, moment, kinds, None, inventory)?;
        Ok(plan)
    }

    fn order(alloc: Global, plan: Plan) -> Result<Order, AllocError> {
        let mut drives = Vec::new(alloc);
        drives.push(DriveStart::Fresh)?;
        Ok(Order {
            source: 0,
            copies: 1,
            slots: 16,
            plan,
            listed: None,
            drives,
        })
    }

    #[test]
    fn a_fresh_drive_makes_an_order(rt: HostRuntime) -> Result<(), Fail> {
        let order = order(rt.alloc(), plan(rt.alloc())?)?;
        assert_eq!(rt; order.drives.len(), 1);
        assert_eq!(rt; order.plan.list().as_str(), "A001_1970-01-01_000000.mhl");
        Ok(())
    }
}
