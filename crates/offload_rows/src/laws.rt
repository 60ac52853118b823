// A law on the runs of the station. It is the contract of a function that does nothing.
ghost use Rattle.std.specs.Prelude.{◌≡◌, ◌≤◌, ℕ, List};
ghost use Rattle.bay_core.specs.World.{World};
ghost use Rattle.station_run.specs.Station.{Ran};

use run_calls::calls_are_its_own;

// Where none was attached before a run, eight drives at most are behind it.
pub fn few_drives_are_attached()
    ensures { (words : List (List ℕ)) (result : ℕ) (old new : World) → Ran words result old new → old.attached.drives ≡ 0 → new.attached.drives ≤ 8 }
{
    calls_are_its_own();
}
