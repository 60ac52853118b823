//! How far an offload of a card comes on a drive, and what a stop leaves of it.
#![tactic(auto)]

ghost use Rattle.std.specs.Prelude.{◌≡◌, ◌≢◌, ℕ, List, ◌++◌, ◌^◌, ◌<◌, ◌≤◌, ◌⊎◌, suc, length, take, codes, Contains};
ghost use Rattle.std.specs.FinMap.{keys};
ghost use Rattle.bay_core.specs.declared.event.Event.{Event};
ghost use Rattle.bay_core.specs.Map.{Map, Dates};
ghost use Rattle.bay_core.specs.Left.{Left};
ghost use Rattle.bay_core.specs.Paths.{IsScratch};
ghost use Rattle.bay_core.specs.Replay.{Device, Drive};
ghost use Rattle.bay_core.specs.Went.{AllOn};
ghost use Rattle.crash_law.specs.Protocol.{IsSafe, State, IsIn, Announced};
ghost use Rattle.crash_law.specs.Law.{CrashLaw, Stays};
ghost use Rattle.crash_law.specs.Lines.{AllLines};
ghost use Rattle.drive_journal.specs.declared.record.Rec.{Rec};
ghost use Rattle.copy_plan.specs.Plan.{PlanValue, IsPlan};
ghost use Rattle.report_text.specs.Run.{begun_text, done_text, sealed_text, clear_text};
ghost use Rattle.offload_law.specs.Clear.{IsTold, IsCalledSealed, AreCalledSealed};
ghost use Rattle.offload_law.specs.Lines.{IsShort, Announces, announces};
ghost use Rattle.offload_law.specs.Sealing.{IsListText};
ghost use Rattle.offload_law.specs.Stages.{Offload, Stage, IsAt, IsAfter, IsAfterOn, StandsAfter, HoldsPlan, IsOfCard, IsOurs, KeepsRest, all_steps, progress};
ghost use Rattle.offload_law.specs.Steps.{offload};
ghost use Rattle.offload_law.specs.InPlace.{Seal, IsSeal, IsWholeOrAbsent, seal_in_place};
ghost use Rattle.offload_law.specs.Runs.{LeftByRuns, LeftByRunsOn};

/// The changes of an offload are safe: however far it came, one that prepares leaves the stage, and one that commits leaves
/// its stage or the next, which is one step more.
pub fn steps_are_safe()
    ensures { (d : ℕ) (o : Offload) → IsPlan o.plan → (base : Map) → IsSafe (offload d o base) }
{}

/// Wherever a run that keeps to the steps stops, within a write too, the drive is left with a prefix of the offload's
/// steps that holds every step announced for it, and at most one more.
pub fn crash_prefix()
    ensures by_plan { (o : Offload) → IsPlan o.plan → (start : Map) (s : Stage) → IsAt o start s →
        (d : ℕ) (L more : List Event) (end : State (offload d o start)) → IsIn (offload d o start) d start s (L ++ more) end →
        (I : Map) → Left start L d I →
        (steps : ℕ) × IsAfter o I steps × KeepsRest o.plan I start steps
        × (Announced (offload d o start) (progress o.plan s) L ≤ steps)
        × (steps ≤ suc (Announced (offload d o start) (progress o.plan s) L)) }
    ensures on_card { (o : Offload) → IsPlan o.plan → (dates : Dates) → IsOfCard o.card dates o.plan → (start : Map) (s : Stage) → IsAt o start s →
        (d : ℕ) (L more : List Event) (end : State (offload d o start)) → IsIn (offload d o start) d start s (L ++ more) end →
        (I : Map) → Left start L d I →
        (steps : ℕ) × StandsAfter (λ p. p ≡ o.plan) o.card dates start I steps
        × (Announced (offload d o start) (progress o.plan s) L ≤ steps)
        × (steps ≤ suc (Announced (offload d o start) (progress o.plan s) L)) }
    ensures unchanged { (card : Map) (dates : Dates) (m : Map) (steps : ℕ) → IsAfterOn card dates m steps → StandsAfter (HoldsPlan m) card dates m m steps }
{
    steps_are_safe();
}

/// Once the line `sealed` of a drive was said, each stop leaves all its steps.
pub fn sealed_for_good()
    ensures { (o : Offload) → IsPlan o.plan → (start : Map) (s : Stage) → IsAt o start s →
        (d : ℕ) (L more : List Event) (end : State (offload d o start)) → IsIn (offload d o start) d start s (L ++ more) end →
        suc (suc (length o.plan.files)) ≤ Announced (offload d o start) (progress o.plan s) L →
        (I : Map) → Left start L d I → IsAfter o I (suc (suc (length o.plan.files))) }
{
    steps_are_safe();
}

/// A drive that was called sealed has all its steps at each stop from then on. So has each of the drives that were called
/// sealed before a moment, each with an offload of its own.
pub fn called_sealed()
    ensures each { (o : Offload) → IsPlan o.plan → (start : Map) (s : Stage) → IsAt o start s →
        (d : ℕ) (before since more : List Event) (end : State (offload d o start)) → IsIn (offload d o start) d start s ((before ++ since) ++ more) end →
        IsCalledSealed d before → (I : Map) → Left start (before ++ since) d I → IsAfter o I (suc (suc (length o.plan.files))) }
    ensures on_card { (o : Offload) → IsPlan o.plan → (dates : Dates) → IsOfCard o.card dates o.plan → (start : Map) (s : Stage) → IsAt o start s →
        (drives : List ℕ) (before : List Event) → AreCalledSealed drives before → (d : ℕ) → Contains drives d →
        (since more : List Event) (end : State (offload d o start)) → IsIn (offload d o start) d start s ((before ++ since) ++ more) end →
        (I : Map) → Left start (before ++ since) d I → IsAfterOn o.card dates I (all_steps o.card) }
    ensures one_count { (drives others : List ℕ) (L : List Event) → AreCalledSealed drives L → AreCalledSealed others L → length drives ≡ length others }
{
    steps_are_safe();
}

/// The announced steps of an offload are the greatest number of those that its drive had and those that a line announces.
pub fn greatest_told()
    ensures least { (o : Offload) (start : Map) (d told : ℕ) (L : List Event) → (told ≤ Announced (offload d o start) told L)
        × ((steps : ℕ) → IsTold d (length o.plan.files) L steps → steps ≤ Announced (offload d o start) told L) }
    ensures one { (o : Offload) (start : Map) (d told : ℕ) (L : List Event) →
        (Announced (offload d o start) told L ≡ told) ⊎ IsTold d (length o.plan.files) L (Announced (offload d o start) told L) }
{
    announced_steps();
}

/// Calls on other devices, with lines that announce nothing for the drive, leave the drive as it was, and what is
/// announced for it.
pub fn others_keep()
    ensures { (o : Offload) (start : Map) (s : Stage) (d : ℕ) (before since : List Event) →
        AllOn (λ y. y ≢ Drive d) since → AllLines (λ line. announces d (length o.plan.files) line ≡ 0) since →
        Stays (offload d o start) d start s before (before ++ since) }
{}

/// Any number of runs, each stopped at some moment, leave a prefix of the steps, and none takes one back.
pub fn after_runs()
    ensures { (o : Offload) → IsPlan o.plan → (base m : Map) (s : Stage) → IsAt o base s → LeftByRuns o base m →
        (steps : ℕ) × IsAfter o m steps × KeepsRest o.plan m base steps × (progress o.plan s ≤ steps) }
{
    steps_are_safe();
}

/// Whatever plans of the card its runs have, a drive that was ours stays ours. Once it has a journal the plan stays,
/// and no step is taken back.
pub fn ours_after_runs()
    ensures ours { (card : Map) (dates : Dates) (base m : Map) → IsOurs card dates base → LeftByRunsOn card dates base m → IsOurs card dates m }
    ensures kept { (card : Map) (dates : Dates) (base m : Map) → LeftByRunsOn card dates base m → (p : PlanValue) → IsPlan p → (k : ℕ) → IsAfter (record { plan = p; card = card }) base (suc k) →
        (steps : ℕ) × IsAfter (record { plan = p; card = card }) m steps × (suc k ≤ steps) }
    ensures never_back { (card : Map) (dates : Dates) (base m : Map) → LeftByRunsOn card dates base m → (j k : ℕ) → IsAfterOn card dates base j → IsAfterOn card dates m k → j ≤ k }
{
    steps_are_safe();
}

/// A map is after one number of steps at most, whichever plans and cards they are of.
pub fn one_progress()
    ensures by_plan { (o r : Offload) (m : Map) (j k : ℕ) → IsAfter o m j → IsAfter r m k → j ≡ k }
    ensures on_card { (card other : Map) (dates others : Dates) (m : Map) (j k : ℕ) → IsAfterOn card dates m j → IsAfterOn other others m k → j ≡ k }
{}

/// A plan of a card has as many files as the card.
pub fn one_file_each()
    ensures { (card : Map) (dates : Dates) (p : PlanValue) → IsPlan p → IsOfCard card dates p → length p.files ≡ length (keys card) }
{}

/// A list of a plan and its records that is sealed in place is whole or absent wherever the run stops, and every other
/// file but the scratch files stays.
pub fn sealed_in_place()
    ensures law { (list : List ℕ) → (IsScratch list → ⊥) → (p : PlanValue) (recs : List Rec) (announces : List ℕ → ℕ) (base : Map) →
        CrashLaw (seal_in_place list (IsListText p recs) announces base) }
    ensures whole { (list : List ℕ) → (IsScratch list → ⊥) → (p : PlanValue) (recs : List Rec) (announces : List ℕ → ℕ) (base start : Map) (s : Seal) →
        IsSeal list (IsListText p recs) base s start → (d : ℕ) (L more : List Event) (end : State (seal_in_place list (IsListText p recs) announces base)) →
        IsIn (seal_in_place list (IsListText p recs) announces base) d start s (L ++ more) end →
        (I : Map) → Left start L d I → IsWholeOrAbsent list (IsListText p recs) base I }
{}

/// The lines `begun`, `done` and `sealed` of a drive announce its steps, whatever numbers of at most 64 digits, paths and names
/// stand in them; no other line announces any.
pub fn announced_steps()
    ensures begun { (d n k m : ℕ) → IsShort k → IsShort m → announces d n (begun_text d k m) ≡ suc k }
    ensures done { (d n k m : ℕ) (path : List ℕ) → IsShort k → IsShort m → announces d n (done_text d k m path) ≡ suc k }
    ensures sealed { (d n m : ℕ) (list : List ℕ) → IsShort m → announces d n (sealed_text d m list) ≡ suc (suc n) }
    ensures each { (d n : ℕ) (line : List ℕ) (steps : ℕ) → Announces d n line steps → announces d n line ≡ steps }
    ensures only { (d n : ℕ) (line : List ℕ) → announces d n line ≢ 0 → Announces d n line (announces d n line) }
    ensures short { (p : PlanValue) → IsPlan p → (k : ℕ) → k ≤ length p.files → IsShort k }
    ensures begun_elsewhere { (d e n : ℕ) → d < 2 ^ 64 → e < 2 ^ 64 → d ≢ e → (k m : ℕ) → announces d n (begun_text e k m) ≡ 0 }
    ensures done_elsewhere { (d e n : ℕ) → d < 2 ^ 64 → e < 2 ^ 64 → d ≢ e → (k m : ℕ) (path : List ℕ) → announces d n (done_text e k m path) ≡ 0 }
    ensures sealed_elsewhere { (d e n : ℕ) → d < 2 ^ 64 → e < 2 ^ 64 → d ≢ e → (m : ℕ) (list : List ℕ) → announces d n (sealed_text e m list) ≡ 0 }
    ensures other_word { (d n : ℕ) (line : List ℕ) → take 6 line ≢ codes "begun " → take 5 line ≢ codes "done " → take 7 line ≢ codes "sealed " → announces d n line ≡ 0 }
    ensures clear { (d n drives required : ℕ) → announces d n (clear_text drives required) ≡ 0 }
{}
