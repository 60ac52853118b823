// The turns of a job.
ghost use Rattle.std.specs.Prelude.{◌≡◌, ◌≤◌, replicate, false, length, IfOk, None};
ghost use Rattle.offload_run.specs.Offload.{ordered_of, stands_at, IsRunOf, IsStocked};
ghost use Rattle.run_state.specs.Rules.{IsStart};
ghost use Rattle.command_words.specs.Jobs.{Job};
ghost use Rattle.job_run.specs.Turning.{CanRun, OrderGoes};

use crate::ending::end_run;
use bay_core::Bay;
use block_pool::Pool;
use drive_journal::Order;
use last_lines::end;
use offload_run::Offload;
use path_text::Scratch;
use report_text::Line;
use run_ends::ends_have_causes;
use run_state::turns_alone;
use std::alloc::{AllocError, Global};
use whole_run::run_to_end;

/// The blocks of the pool: those that the copy of a file may hold at once, and one for reading back.
const BLOCKS: u32 = 17;

// All the memory of a run: its own, and the pool's.
fn stocked(alloc: Global, order: Order) -> Result<(Offload, Pool), AllocError>
    ensures of { IfOk result (λ both. IsRunOf order both.0) }
    ensures starts { IfOk result (λ both. IsStart (ordered_of both.0) (stands_at both.0)) }
    ensures stocked { IfOk result (λ both. IsStocked both.0) }
    ensures free { IfOk result (λ both. both.1.lent ≡ replicate 17 false) }
{
    let run = Offload::new(alloc, order)?;
    let pool = Pool::new(alloc, BLOCKS)?;
    Ok((run, pool))
}

// Takes all memory, and only then runs the order to its end. No drive is changed before that.
pub(crate) fn run_order<B: Bay>(
    alloc: Global,
    bay: &mut B,
    scratch: &mut Scratch,
    order: Order,
    drives: u32,
) -> u8
    requires can { CanRun order (B.world bay.old) }
    ensures { (job : Job) → length job.drives ≡ drives → OrderGoes job order result (B.world bay.old) (B.world bay.new) }
{
    turns_alone();
    ends_have_causes();
    let Ok(both) = stocked(alloc, order) else {
        return end(bay, scratch, &Line::Memory, 9);
    };
    let (mut run, mut pool) = both;
    let outcome = run_to_end(&mut run, bay, &mut pool);
    end_run(bay, scratch, &run, outcome, drives)
}
