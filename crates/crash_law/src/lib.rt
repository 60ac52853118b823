//! The order of changes on a drive under which a stop at any moment is safe, for any work in stages.
//!
//! That a run which keeps to it leaves a prefix of its steps (`CrashLaw`) holds for every protocol that is safe. A clause speaks
//! of no protocol in general, so each crate that has one says the law of its own, by `the_law` in proofs/Safe.antt.
#![tactic(auto)]

ghost use Rattle.std.specs.Prelude.{ℕ, List};
ghost use Rattle.bay_core.specs.declared.event.Event.{Event};
ghost use Rattle.bay_core.specs.Map.{Map};
ghost use Rattle.crash_law.specs.Law.{Restarts};

/// From a moment of rest on, a drive is as one that began then.
pub fn restarts()
    ensures { (m : Map) (L : List Event) (d : ℕ) → Restarts m L d }
{}
