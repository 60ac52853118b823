//! A list that seals an offload verifies on its drive.
#![tactic(auto)]

ghost use Rattle.std.specs.Prelude.{◌≡◌, ℕ, List, suc, Some, length};
ghost use Rattle.std.specs.FinMap.{get, keys};
ghost use Rattle.bay_core.specs.Map.{Map, Dates};
ghost use Rattle.mhl_writer.specs.ListText.{Values};
ghost use Rattle.mhl_reader.specs.Reading.{Reading};
ghost use Rattle.copy_plan.specs.Plan.{PlanValue, list_of};
ghost use Rattle.drive_journal.specs.declared.record.Rec.{Rec};
ghost use Rattle.offload_law.specs.Sealing.{plan_list_text, sealed_entries, sealed_values};
ghost use Rattle.offload_law.specs.Stages.{Offload, Sealed, IsAt, IsAfter, IsAfterOn, IsOfCard, all_steps};
ghost use Rattle.verify_run.specs.Report.{report_verdict};
ghost use Rattle.verified_law.specs.Good.{IsGood};

use offload_law::one_file_each;

/// A list that seals an offload reads as the list of its plan and records, and the drive verifies by it: every file of
/// the plan is checked, and none is missing, altered or unchecked.
pub fn a_sealed_list_verifies()
    // Its text reads as the list of the plan, the records and the finish.
    ensures reads { (o : Offload) (m : Map) (recs : List Rec) (finish : ℕ) → IsAt o m (Sealed recs finish) → Reading (plan_list_text o.plan recs finish) (sealed_values o.plan recs finish) }
    // The report by its entries is good.
    ensures good { (o : Offload) (m : Map) (recs : List Rec) (finish : ℕ) → IsAt o m (Sealed recs finish) → IsGood (length o.plan.files) (report_verdict (sealed_entries o.plan.kinds o.plan.files recs) m (list_of o.plan)) }
    // So is the report by whatever the drive's file of the list's name reads as.
    ensures verifies { (o : Offload) (m : Map) (recs : List Rec) (finish : ℕ) (bytes : List ℕ) (list : Values) → IsAt o m (Sealed recs finish) → get m (list_of o.plan) ≡ Some bytes → Reading bytes list → IsGood (length o.plan.files) (report_verdict list.entries m (list_of o.plan)) }
    // A drive after all its steps is so sealed.
    ensures sealed { (o : Offload) (m : Map) → IsAfter o m (suc (suc (length o.plan.files))) → (recs : List Rec) × (finish : ℕ) × IsAt o m (Sealed recs finish) }
    // After all steps on a card it is so by a plan that names just the files of the card, as many as there are.
    ensures on_card { (card : Map) (dates : Dates) (m : Map) → IsAfterOn card dates m (all_steps card) →
        (p : PlanValue) × (recs : List Rec) × (finish : ℕ) × IsOfCard card dates p × (length p.files ≡ length (keys card)) × IsAt (record { plan = p; card = card }) m (Sealed recs finish) }
{
    one_file_each();
}
