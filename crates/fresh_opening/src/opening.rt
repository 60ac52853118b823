// The openings of an offload.
ghost use Rattle.std.specs.Prelude.{◌≡◌, ◌+◌, ◌<◌, ◌≤◌, true, length, Some, None, IfOk, IfSome};
ghost use Rattle.std.specs.List.{AllByRecursion};
ghost use Rattle.bay_core.specs.Looks.{IsUntouched};
ghost use Rattle.bay_core.specs.Map.{Map, AllDated};
ghost use Rattle.bay_core.specs.Went.{Went};
ghost use Rattle.bay_core.specs.World.{Steady};
ghost use Rattle.path_text.specs.Kinds.{has_kind};
ghost use Rattle.drive_journal.specs.Order.{Fits};
ghost use Rattle.fresh_opening.specs.Looks.{OfLooks};
ghost use Rattle.fresh_opening.specs.Openings.{PlanOpens, OfFresh, FreshOpens, GivesOfCard, AreGoneBySaying};
ghost use Rattle.fresh_opening.specs.Orders.{HasFiles, AreSettled, IsTrueOrder};

use crate::FreshError;
use crate::looking::look_at_each;
use crate::planning::plan_now;
use crate::starting::drive_starts;
use bay_core::Bay;
use card_inventory::inventory;
use copy_plan::Plan;
use drive_journal::{DriveStart, Listed, Order};
use path_text::{Kinds, Label};
use std::alloc::Global;

/// The blocks that a run may hold at once.
const SLOTS: u32 = 16;

// The order of a run to drives that begin so.
fn new_order(
    source: u32,
    copies: u32,
    plan: Plan,
    listed: Option<Vec<Listed>>,
    drives: Vec<DriveStart>,
) -> Order
    requires some { 1 ≤ length drives.items }
    requires few { length drives.items ≤ 8 }
    requires starts { AllByRecursion (Fits plan) drives.items }
    requires each_listed { IfSome listed (λ items. length items.items ≡ length plan.files) }
    ensures source { result.source ≡ source }
    ensures copies { result.copies ≡ copies }
    ensures slots { result.slots ≡ 16 }
    ensures plan { result.plan ≡ plan }
    ensures listed { result.listed ≡ listed }
    ensures drives { result.drives.items ≡ drives.items }
{
    Order {
        source,
        copies,
        slots: SLOTS,
        plan,
        listed,
        drives,
    }
}

/// Opens an offload by a plan on so many drives, the first of which has the number `first`: each drive is looked at in turn,
/// and then each is asked in turn whether something on it stands in the way of the plan (docs/FORMATS.md, "The opening of an
/// offload"). A drive on which a call fails is dropped, and its line is said. In the order the drives before the first are
/// gone, and 16 blocks may be held at once.
///
/// The plan is of files that card `source` has with their sizes; `listed` has what a source list records of each of them. The
/// errors are those of [`FreshError`] but `Inventory` and `Clash`. No answer changes a drive.
pub fn open_plan<B: Bay>(
    alloc: Global,
    bay: &mut B,
    source: u32,
    first: u32,
    count: u32,
    copies: u32,
    plan: Plan,
    listed: Option<Vec<Listed>>,
) -> Result<Order, FreshError>
    requires some { 1 ≤ count }
    requires few { first + count ≤ 8 }
    requires attached { first + count ≤ (B.world bay.old).attached.drives }
    requires each_listed { IfSome listed (λ items. length items.items ≡ length plan.files) }
    // What is called, what that saw, and that the answer is the first refusal by it, or an order where none applies.
    ensures opens { PlanOpens source first count copies plan listed result (B.world bay.old) (B.world bay.new) }
    // The order is true of the drives and of the card, where the drives were settled and the card has the files.
    ensures true_order { IfOk result (λ order. AreSettled first count (B.world bay.old) → HasFiles source plan.files (B.world bay.old) → IsTrueOrder order (B.world bay.new)) }
    // No call changes a drive or settles one, whatever the answer.
    ensures untouched { Went (OfLooks first count) IsUntouched (B.world bay.old) (B.world bay.new) }
    ensures gone { IfOk result (λ order. AreGoneBySaying first count order.drives.items (B.world bay.old) (B.world bay.new)) }
{
    let seen = look_at_each(alloc, bay, first, count)?;
    let starts = drive_starts(alloc, first, &plan, seen)?;
    Ok(new_order(source, copies, plan, listed, starts))
}

/// Opens an offload of a card to so many drives, numbered from 0: the inventory of the card is taken; each drive is looked at
/// in turn; if one is left, the moment is asked, and the plan is made; and each drive is asked in turn whether something on it
/// stands in the way of the plan (docs/FORMATS.md, "The opening of an offload"). A drive on which a call fails is dropped, and
/// its line is said. `kinds` are those of the digests that the list of the plan shows. No answer changes a drive.
pub fn open_fresh<B: Bay>(
    alloc: Global,
    bay: &mut B,
    source: u32,
    drives: u32,
    copies: u32,
    name: Label,
    user: Label,
    host: Label,
    kinds: Kinds,
) -> Result<Order, FreshError>
    requires some { 1 ≤ drives }
    requires few { drives ≤ 8 }
    requires card { source < (B.world bay.old).attached.sources }
    requires attached { drives ≤ (B.world bay.old).attached.drives }
    requires kinds { has_kind kinds ≡ true }
    // What is called, what that saw, and that the answer is the first refusal by it, or an order where none applies.
    ensures opens { FreshOpens source drives copies (record { name = name; user = user; host = host; kinds = kinds }) result (B.world bay.old) (B.world bay.new) }
    // The order is true of the drives and of the card, where the drives were settled.
    ensures true_order { IfOk result (λ order. AreSettled 0 drives (B.world bay.old) → IsTrueOrder order (B.world bay.new)) }
    // Of a steady card of which each file's date is known the plan has just the files.
    ensures of_card { (m : Map) → Steady (B.world bay.old) source m → AllDated m ((B.world bay.old).attached.card_dates source) → GivesOfCard m ((B.world bay.old).attached.card_dates source) result }
    // No call changes a drive or settles one, whatever the answer.
    ensures untouched { Went (OfFresh source drives) IsUntouched (B.world bay.old) (B.world bay.new) }
    ensures gone { IfOk result (λ order. AreGoneBySaying 0 drives order.drives.items (B.world bay.old) (B.world bay.new)) }
{
    let inventory = inventory(alloc, bay, source)?;
    let seen = look_at_each(alloc, bay, 0, drives)?;
    let plan = plan_now(alloc, bay, name, user, host, kinds, inventory)?;
    let starts = drive_starts(alloc, 0, &plan, seen)?;
    Ok(new_order(source, copies, plan, None, starts))
}
