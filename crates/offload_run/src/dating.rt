// The moment of a file.
ghost use Rattle.std.specs.Prelude.{◌≡◌, ◌<◌, ◌≤◌, length, IfSome, None, Some, if◌then◌else◌};
ghost use Rattle.bay_core.specs.declared.event.Event.{Event};
ghost use Rattle.bay_core.specs.Replay.{Clock};
ghost use Rattle.bay_core.specs.Went.{Went, Only, IsCall};
ghost use Rattle.path_text.specs.Moment.{last_moment};
ghost use Rattle.run_state.specs.Acts.{DateTurn, is_digest, agrees, other_listed};
ghost use Rattle.run_state.specs.State.{files_of};
ghost use Rattle.offload_run.specs.Offload.{ordered_of, drives_of, stands_at, IsStocked, IsTurning};

use crate::Offload;
use crate::offload::file_at;
use bay_core::Bay;
use digest_set::Triple;
use drive_journal::{Listed, Rec};
use path_text::Moment;
use run_state::{Outcome, Phase};

impl Offload {
    // The moment of a file that was copied is asked, unless the source list records other digests of it.
    pub(crate) fn date_file<B: Bay>(&mut self, bay: &mut B, index: u32, triple: Triple)
        requires turning { IsTurning self.old }
        requires stocked { IsStocked self.old }
        requires there { index < files_of self.old.plan }
        requires each_listed { IfSome (ordered_of self.old).listed (λ all. length all ≡ files_of self.old.plan) }
        ensures same { ordered_of self.new ≡ ordered_of self.old }
        ensures stocked { IsStocked self.new }
        ensures acted { DateTurn (ordered_of self.old) index triple (other_listed (ordered_of self.old).listed index triple) (drives_of self.old) (stands_at self.new) (B.world bay.old) (B.world bay.new) }
    {
        match self.other_listed(index, &triple) {
            Some(listed) => {
                self.outcome = Outcome::Altered {
                    index,
                    listed,
                    read: triple,
                };
            }
            None => self.make_record(bay, index, triple),
        }
    }

    // The moment of a file that was copied is asked, and its record is made.
    fn make_record<B: Bay>(&mut self, bay: &mut B, index: u32, triple: Triple)
        requires turning { IsTurning self.old }
        requires stocked { IsStocked self.old }
        requires there { index < files_of self.old.plan }
        ensures same { ordered_of self.new ≡ ordered_of self.old }
        ensures stocked { IsStocked self.new }
        ensures acted { DateTurn (ordered_of self.old) index triple None (drives_of self.old) (stands_at self.new) (B.world bay.old) (B.world bay.new) }
    {
        let hashed = ask_moment(bay);
        let rec = Rec {
            index,
            size: file_at(&self.plan, index).size,
            triple,
            hashed,
        };
        self.phase = Phase::Records { rec, d: 0 };
    }

    // What the source list records of a file, where that is not these digests.
    fn other_listed(&self, index: u32, triple: &Triple) -> Option<Listed>
        requires there { index < files_of self.now.plan }
        requires each_listed { IfSome (ordered_of self.now).listed (λ all. length all ≡ files_of self.now.plan) }
        ensures { result ≡ other_listed (ordered_of self.now).listed index triple.now }
    {
        match &self.listed {
            Some(all) => unless_agrees(&all[index as usize], triple),
            None => None,
        }
    }
}

// Asks for the moment.
pub(crate) fn ask_moment<B: Bay>(bay: &mut B) -> Moment
    ensures early { result ≤ last_moment }
    ensures asked { Went (Only Clock) (IsCall (Event.Moment result)) (B.world bay.old) (B.world bay.new) }
{
    match Moment::new(bay.moment()) {
        Some(moment) => moment,
        None => unreachable!(),
    }
}

// What is recorded of a file, where that is not these digests.
fn unless_agrees(listed: &Listed, triple: &Triple) -> Option<Listed>
    ensures { result ≡ (if agrees listed.now triple.now then None else Some listed.now) }
{
    if agrees(listed, triple) {
        None
    } else {
        Some(*listed)
    }
}

// Whether each digest that is recorded of a file is that of these three.
fn agrees(listed: &Listed, triple: &Triple) -> bool
    ensures { result ≡ agrees listed.now triple.now }
{
    is_digest(&listed.md5, &triple.md5)
        && is_digest(&listed.sha1, &triple.sha1)
        && is_digest(&listed.xxh, &triple.xxh)
}

// Whether a digest that is recorded, if one is, is this one.
fn is_digest<const N: usize>(listed: &Option<[u8; N]>, digest: &[u8; N]) -> bool
    ensures { result ≡ is_digest listed.now digest.now }
{
    match listed {
        Some(listed) => listed == digest,
        None => true,
    }
}
