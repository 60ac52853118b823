// Laws of the turns of a run. Each is the contract of a function that does nothing.
ghost use Rattle.std.specs.Prelude.{◌≡◌, ◌≢◌, ◌≤◌, ◌<◌, ◌^◌, ℕ, true, false, length};
ghost use Rattle.bay_core.specs.Replay.{Drive};
ghost use Rattle.bay_core.specs.Went.{Went};
ghost use Rattle.bay_core.specs.World.{World};
ghost use Rattle.block_pool.specs.Lent.{PoolState};
ghost use Rattle.copy_plan.specs.Plan.{PlanValue};
ghost use Rattle.crash_law.specs.Lines.{AllLines};
ghost use Rattle.fan_copier.specs.Ring.{Owns};
ghost use Rattle.run_state.specs.declared.phase.Phase.{Phase};
ghost use Rattle.run_state.specs.declared.phase.Phase.TheVariants.{Ended};
ghost use Rattle.run_state.specs.Apart.{IsApart};
ghost use Rattle.run_state.specs.Calls.{IsOfRun, AreTurnCalls};
ghost use Rattle.run_state.specs.Rules.{IsOver, IsRun, IsStart, KeepsRunPool, left_at, bound, slots_in};
ghost use Rattle.run_state.specs.Runs.{Point, Alone, Beside, Runs, is_about};
ghost use Rattle.run_state.specs.State.{Ordered, At, IsCalled, drive_at, is_of_run};
ghost use Rattle.run_state.specs.Turn.{Turned};

/// Any number of turns, and whatever others did between them, keep the rules of a run.
pub fn turns_keep_the_rules()
    ensures { (o : Ordered) (a b : Point) → IsRun o a.at → Runs o a b → IsRun o b.at }
{}

/// Turns with nothing between them are turns of a run.
pub fn turns_alone()
    ensures { (o : Ordered) (a b : Point) → Alone o a b → Runs o a b }
{}

/// As a run is made, no more turns are left than the bound of its drives and files.
pub fn starts_within_the_bound()
    ensures { (o : Ordered) (at : At) → IsStart o at → left_at (length at.drives.each) o.plan at.phase ≤ bound (length at.drives.each) o.plan }
{}

/// Until a run has ended, a turn is left.
pub fn a_turn_is_left_until_the_end()
    ensures { (w : ℕ) (p : PlanValue) (phase : Phase) → phase ≢ Ended → 1 ≤ left_at w p phase }
{}

/// A turn of a run calls its card, its drives that are to be begun or were begun and are not sealed, the output, the clock and
/// the picker alone. Of cards it reads planned files of its own, and makes no other call there; and it says no line about a
/// drive that is gone or sealed.
pub fn a_turn_calls_its_own()
    ensures { (o : Ordered) (old new : At) (pool pool_after : PoolState) (before after : World) → IsRun o old → Turned o old new pool pool_after before after
        → Went (IsOfRun o old.drives) (AreTurnCalls o old.drives) before after }
{}

/// The turns of a run call no drive that is gone, that was found sealed, or that is sealed, and say no line about one that is
/// gone or sealed. For a drive that is or was of the run, so it is whatever others do between them.
pub fn turns_pass_over_drives()
    ensures calls { (o : Ordered) (a b : Point) → IsRun o a.at → Alone o a b → (d : ℕ) → (IsCalled (drive_at a.at.drives.each d) → ⊥)
        → Went (λ x. x ≢ Drive d) (λ L. Unit {0}) a.world b.world }
    ensures lines { (o : Ordered) (a b : Point) → IsRun o a.at → Alone o a b → (d : ℕ) → d < 2 ^ 64 → IsOver (drive_at a.at.drives.each d)
        → Went (λ x. x ≢ Drive d) (AllLines (λ line. is_about d line ≡ false)) a.world b.world }
    ensures calls_of_run { (o : Ordered) (a b : Point) → IsRun o a.at → Runs o a b → (d : ℕ) → is_of_run a.at.drives d ≡ true → (IsCalled (drive_at a.at.drives.each d) → ⊥)
        → Went (λ x. x ≢ Drive d) (λ L. Unit {0}) a.world b.world }
    ensures lines_of_run { (o : Ordered) (a b : Point) → IsRun o a.at → Runs o a b → (d : ℕ) → is_of_run a.at.drives d ≡ true → IsOver (drive_at a.at.drives.each d)
        → Went (λ x. x ≢ Drive d) (AllLines (λ line. is_about d line ≡ false)) a.world b.world }
    // A drive that is gone or sealed stands so from then on.
    ensures over { (o : Ordered) (a b : Point) → IsRun o a.at → Runs o a b → (d : ℕ) → IsOver (drive_at a.at.drives.each d) → drive_at b.at.drives.each d ≡ drive_at a.at.drives.each d }
{
    turns_keep_the_rules();
    turns_alone();
    a_turn_calls_its_own();
}

/// A turn of another run, which keeps out of the way of a run, is beside that run; its drives, files and slots stay apart, and
/// the pool has lent the run its slots still. They stay apart too where the run itself takes a turn.
pub fn another_turn_is_beside()
    ensures beside { (o p : Ordered) (at : At) (b c : Point) → IsRun o at → IsRun p b.at → IsApart o at p b.at → Owns (slots_in at.phase) b.pool
        → Turned p b.at c.at b.pool c.pool b.world c.world → KeepsRunPool b.at.phase c.at.phase b.pool c.pool
        → Beside o (record { at = at; pool = b.pool; world = b.world }) (record { at = at; pool = c.pool; world = c.world }) }
    ensures apart { (o p : Ordered) (at : At) (b c : Point) → IsRun o at → IsRun p b.at → IsApart o at p b.at → Owns (slots_in at.phase) b.pool
        → Turned p b.at c.at b.pool c.pool b.world c.world → KeepsRunPool b.at.phase c.at.phase b.pool c.pool
        → IsApart o at p c.at × Owns (slots_in at.phase) c.pool }
    ensures turned { (o p : Ordered) (other : At) (b c : Point) → IsRun o b.at → IsApart o b.at p other → Owns (slots_in other.phase) b.pool
        → Turned o b.at c.at b.pool c.pool b.world c.world → KeepsRunPool b.at.phase c.at.phase b.pool c.pool
        → IsApart o c.at p other }
{
    a_turn_calls_its_own();
}
