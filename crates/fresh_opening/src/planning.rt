// The plan of an offload that begins now.
ghost use Rattle.std.specs.Prelude.{◌≡◌, true};
ghost use Rattle.path_text.specs.Kinds.{has_kind};
ghost use Rattle.fresh_opening.specs.Openings.{PlanGives};

use crate::FreshError;
use bay_core::Bay;
use copy_plan::{Inventory, Plan};
use path_text::{Kinds, Label, Moment};
use std::alloc::Global;

// Asks the moment, and makes the plan of an offload that begins then.
pub(crate) fn plan_now<B: Bay>(
    alloc: Global,
    bay: &mut B,
    name: Label,
    user: Label,
    host: Label,
    kinds: Kinds,
    inventory: Inventory,
) -> Result<Plan, FreshError>
    requires { has_kind kinds ≡ true }
    ensures { PlanGives (record { name = name; user = user; host = host; kinds = kinds }) inventory result (B.world bay.old) (B.world bay.new) }
{
    let Some(started) = Moment::new(bay.moment()) else {
        unreachable!();
    };
    Ok(Plan::make(alloc, name, user, host, started, kinds, None, inventory)?)
}
