// The turns of a run.
ghost use Rattle.std.specs.Prelude.{◌≡◌, ◌≢◌, ◌<◌, ◌≤◌, length};
ghost use Rattle.bay_core.specs.Went.{Went};
ghost use Rattle.run_state.specs.Calls.{IsOfRun, AreTurnCalls};
ghost use Rattle.run_state.specs.Rules.{Answers, CanTurn, IsNearer, IsRun, KeepsRunPool};
ghost use Rattle.run_state.specs.Turn.{Turned};
ghost use Rattle.offload_run.specs.Offload.{ordered_of, drives_of, stands_at, turns_left_of, IsStocked};

use crate::Offload;
use bay_core::Bay;
use block_pool::Pool;
use run_state::{
    Phase, RunTurn, a_turn_calls_its_own, a_turn_is_left_until_the_end, turns_keep_the_rules,
};

impl Offload {
    /// One turn: one act on one drive with its line, one turn of a file's copy, or the start or the end of a file or of the
    /// run (docs/MODEL.md, "Runs by turns"). The pool lent the slots that the run has, and its free slots number at least one
    /// more than the run may have at once, less those. A turn after the end makes no call. Takes no memory.
    pub fn turn<B: Bay>(&mut self, bay: &mut B, pool: &mut Pool) -> RunTurn
        requires keeps { IsRun (ordered_of self.old) (stands_at self.old) }
        requires ready { CanTurn (ordered_of self.old) (stands_at self.old) pool.old (B.world bay.old) }
        requires stocked { IsStocked self.old }
        ensures same { ordered_of self.new ≡ ordered_of self.old }
        ensures keeps { IsRun (ordered_of self.new) (stands_at self.new) }
        ensures ready { CanTurn (ordered_of self.new) (stands_at self.new) pool.new (B.world bay.new) }
        ensures stocked { IsStocked self.new }
        ensures pool { KeepsRunPool (stands_at self.old).phase (stands_at self.new).phase pool.old pool.new }
        // A turn after which the run goes on leaves fewer turns, one at least; after the last one none is left.
        ensures nearer { IsNearer result (turns_left_of self.old) (turns_left_of self.new) }
        ensures left { result ≡ RunTurn.Going → 1 ≤ turns_left_of self.new }
        ensures answers { Answers result (stands_at self.new).phase }
        // After the end nothing is called and nothing is changed.
        ensures idle { (stands_at self.old).phase ≡ Phase.Ended → (stands_at self.new ≡ stands_at self.old) × (pool.new ≡ pool.old) × (B.world bay.new ≡ B.world bay.old) }
        // No other device is called, nothing is attached, no other file of a card is read, and no line is said about a drive that
        // is gone or sealed.
        ensures alone { Went (IsOfRun (ordered_of self.old) (drives_of self.old)) (AreTurnCalls (ordered_of self.old) (drives_of self.old)) (B.world bay.old) (B.world bay.new) }
        // What was done, by what was to be done.
        ensures turned { Turned (ordered_of self.old) (stands_at self.old) (stands_at self.new) pool.old pool.new (B.world bay.old) (B.world bay.new) }
    {
        turns_keep_the_rules();
        a_turn_calls_its_own();
        a_turn_is_left_until_the_end();
        self.act(bay, pool);
        self.answer()
    }

    // Whether there is a turn more.
    fn answer(&self) -> RunTurn
        ensures { Answers result self.now.phase }
    {
        match &self.phase {
            Phase::Ended => RunTurn::Ended,
            _ => RunTurn::Going,
        }
    }

    // What is to be done next is done.
    fn act<B: Bay>(&mut self, bay: &mut B, pool: &mut Pool)
        requires keeps { IsRun (ordered_of self.old) (stands_at self.old) }
        requires ready { CanTurn (ordered_of self.old) (stands_at self.old) pool.old (B.world bay.old) }
        requires stocked { IsStocked self.old }
        ensures same { ordered_of self.new ≡ ordered_of self.old }
        ensures stocked { IsStocked self.new }
        ensures pool { KeepsRunPool self.old.phase self.new.phase pool.old pool.new }
        ensures nearer { self.new.phase ≢ Phase.Ended → turns_left_of self.new < turns_left_of self.old }
        ensures turned { Turned (ordered_of self.old) (stands_at self.old) (stands_at self.new) pool.old pool.new (B.world bay.old) (B.world bay.new) }
    {
        match std::mem::replace(&mut self.phase, Phase::Ended) {
            Phase::Begins { d } => self.begin_drive(bay, d),
            Phase::File { index } => self.choose_drives(index),
            Phase::Copies { index, copy } => self.turn_copy(bay, pool, index, copy),
            Phase::Dates { index, triple } => self.date_file(bay, index, triple),
            Phase::Records { rec, d } => self.record_on(bay, pool, rec, d),
            Phase::Seals { d } => self.seal_drive(bay, pool, d),
            Phase::Clears => self.call_clear(bay),
            Phase::Ended => {}
        }
    }
}
