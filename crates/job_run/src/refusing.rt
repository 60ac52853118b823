// How a run ends that is not begun.
ghost use Rattle.std.specs.Prelude.{◌∷◌, []};
ghost use Rattle.report_text.specs.Refusals.{refused_clash_text, with_text};
ghost use Rattle.last_lines.specs.Ends.{Ended, with_lines};
ghost use Rattle.job_story.specs.Ends.{last_of, listing_end, opening_end};
ghost use Rattle.job_run.specs.Asked.{HasText, CanBeSaid};

use bay_core::Bay;
use card_inventory::InventoryError;
use fresh_opening::FreshError;
use last_lines::{end, end_two};
use path_text::{PathText, Scratch};
use report_text::Line;

// Ends a run in which two paths stand in each other's way, with a line for each.
fn end_clash<B: Bay>(bay: &mut B, scratch: &mut Scratch, first: &PathText, second: &PathText) -> u8
    ensures { Ended (with_lines (refused_clash_text first.now ∷ with_text second.now ∷ []) 3) result (B.world bay.old) (B.world bay.new) }
{
    let first = Line::RefusedClash(first.as_str());
    let second = Line::With(second.as_str());
    end_two(bay, scratch, &first, &second, 3)
}

// Ends a run whose card has no inventory.
fn end_unlisted<B: Bay>(bay: &mut B, scratch: &mut Scratch, error: InventoryError) -> u8
    requires { HasText error }
    ensures { Ended (last_of (listing_end error)) result (B.world bay.old) (B.world bay.new) }
{
    match error {
        InventoryError::SourceFailed => end(bay, scratch, &Line::FailedCard, 4),
        InventoryError::EmptyCard => end(bay, scratch, &Line::RefusedEmptycard, 3),
        InventoryError::TooManyFiles { count } => {
            end(bay, scratch, &Line::RefusedToomanyfiles(count), 3)
        }
        InventoryError::BadPath { index, cause } => {
            end(bay, scratch, &Line::RefusedBadpath(index, &cause), 3)
        }
        InventoryError::BadDate { path } => {
            end(bay, scratch, &Line::RefusedBaddate(path.as_str()), 3)
        }
        InventoryError::TooManyBytes { sum } => {
            end(bay, scratch, &Line::RefusedToomanybytes(sum), 3)
        }
        InventoryError::Control { path } => {
            end(bay, scratch, &Line::RefusedControl(path.as_str()), 3)
        }
        InventoryError::TooBig { path } => {
            end(bay, scratch, &Line::RefusedToobig(path.as_str()), 3)
        }
        InventoryError::Clash { first, second } => end_clash(bay, scratch, &first, &second),
        InventoryError::Memory => end(bay, scratch, &Line::Memory, 9),
    }
}

// Ends a run whose opening gave no order. Where no drive is left, all its lines were said.
pub(crate) fn end_unopened<B: Bay>(bay: &mut B, scratch: &mut Scratch, error: FreshError) -> u8
    requires { CanBeSaid error }
    ensures { Ended (last_of (opening_end error)) result (B.world bay.old) (B.world bay.new) }
{
    match error {
        FreshError::Inventory(error) => end_unlisted(bay, scratch, error),
        FreshError::NotAJournal { d, at } => {
            end(bay, scratch, &Line::RefusedNotajournal(d, at), 3)
        }
        FreshError::AlreadyBegun { d } => end(bay, scratch, &Line::RefusedBegun(d), 3),
        FreshError::NoDrive => 1,
        FreshError::Clash { list, path } => end_clash(bay, scratch, &list, &path),
        FreshError::Occupied { d, path } => {
            end(bay, scratch, &Line::RefusedOccupied(d, path.as_str()), 3)
        }
        FreshError::OutFailed => 5,
        FreshError::Memory => end(bay, scratch, &Line::Memory, 9),
    }
}
