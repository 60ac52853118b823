// The card is called clear.
ghost use Rattle.std.specs.Prelude.{◌≡◌, ◌≤◌, length};
ghost use Rattle.run_state.specs.Acts.{ClearTurn, is_clear, end_of};
ghost use Rattle.run_state.specs.State.{count_sealed};
ghost use Rattle.offload_run.specs.Offload.{ordered_of, drives_of, stands_at, IsStocked, IsTurning};

use crate::Offload;
use crate::saying::say;
use bay_core::Bay;
use report_text::Line;
use run_state::{DriveRun, Outcome};

impl Offload {
    // The card is called clear, if a number is required and so many drives are sealed; and the run has ended.
    pub(crate) fn call_clear<B: Bay>(&mut self, bay: &mut B)
        requires turning { IsTurning self.old }
        requires few { length self.old.drives.items ≤ 8 }
        requires stocked { IsStocked self.old }
        ensures same { ordered_of self.new ≡ ordered_of self.old }
        ensures drives { drives_of self.new ≡ drives_of self.old }
        ensures stocked { IsStocked self.new }
        ensures acted { ClearTurn self.old.copies (count_sealed (drives_of self.old).each) (is_clear (count_sealed (drives_of self.old).each) self.old.copies) (stands_at self.new) (B.world bay.old) (B.world bay.new) }
    {
        let sealed = self.count_sealed();
        if 1 <= self.copies && self.copies <= sealed {
            let clear = Line::Clear(u64::from(sealed), u64::from(self.copies));
            if !say(bay, &clear, &mut self.line) {
                self.outcome = Outcome::OutFailed;
                return;
            }
        }
        self.outcome = end_of(sealed);
    }

    // How many drives are sealed.
    fn count_sealed(&self) -> u32
        requires { length self.now.drives.items ≤ 8 }
        ensures { result ≡ count_sealed (drives_of self.now).each }
    {
        let mut sealed = 0;
        for drive in self.drives.iter() {
            if let DriveRun::Sealed = drive {
                sealed += 1;
            }
        }
        sealed
    }
}

// How a run ends of which so many drives are sealed.
fn end_of(sealed: u32) -> Outcome
    ensures { result ≡ end_of sealed }
{
    if sealed == 0 {
        Outcome::NoDrive
    } else {
        Outcome::Finished
    }
}
