//! A run of an offload, turned to its end with nothing between its turns.
#![tactic(auto)]

ghost use Rattle.std.specs.Prelude.{◌≡◌};
ghost use Rattle.run_state.specs.declared.phase.Phase.{Phase};
ghost use Rattle.run_state.specs.Rules.{CanTurn, IsRun, KeepsRunPool};
ghost use Rattle.run_state.specs.Runs.{Alone};
ghost use Rattle.offload_run.specs.Offload.{ordered_of, stands_at, IsStocked};

use bay_core::Bay;
use block_pool::Pool;
use offload_run::Offload;
use run_state::{Outcome, RunTurn};

/// Turns a run to its end, and answers how it ended. The pool lent the slots that the run has, and its free slots number at
/// least one more than the slots that the run may have, less those. Takes no memory. A run that has ended stays as it is.
pub fn run_to_end<B: Bay>(run: &mut Offload, bay: &mut B, pool: &mut Pool) -> Outcome
    requires keeps { IsRun (ordered_of run.old) (stands_at run.old) }
    requires ready { CanTurn (ordered_of run.old) (stands_at run.old) pool.old (B.world bay.old) }
    requires stocked { IsStocked run.old }
    ensures same { ordered_of run.new ≡ ordered_of run.old }
    ensures keeps { IsRun (ordered_of run.new) (stands_at run.new) }
    ensures ended { (stands_at run.new).phase ≡ Phase.Ended }
    ensures outcome { result ≡ (stands_at run.new).outcome }
    ensures pool { KeepsRunPool (stands_at run.old).phase (stands_at run.new).phase pool.old pool.new }
    // Turn after turn, and nothing else.
    ensures turned { Alone (ordered_of run.old) (record { at = stands_at run.old; pool = pool.old; world = B.world bay.old }) (record { at = stands_at run.new; pool = pool.new; world = B.world bay.new }) }
{
    loop {
        match run.turn(bay, pool) {
            RunTurn::Going => {}
            RunTurn::Ended => return run.outcome(),
        }
    }
}
