// The list is written whole before it gets its name.
ghost use Rattle.std.specs.Prelude.{◌≡◌, ◌<◌, ◌^◌, length, is_ok, IfOk};
ghost use Rattle.bay_core.specs.Went.{Tried};
ghost use Rattle.seal_step.specs.Parts.{list_parts, joined, writes_from, naming};

use crate::parts::ListParts;
use bay_core::{Bay, DriveFailed};
use path_text::Scratch;

/// The file that is written whole before it gets its name.
pub const NEW: &str = ".mhlstation/new";

/// Writes the parts of the list to that file, one behind another. The answer is the length of them all, in bytes.
pub fn write_parts<B: Bay>(
    bay: &mut B,
    d: u32,
    list: &ListParts<'_>,
    scratch: &mut Scratch,
) -> Result<u64, DriveFailed>
    requires drive { d < (B.world bay.old).attached.drives }
    requires whole { length list.now.entries.now ≡ length list.now.plan.now.files }
    ensures tried { Tried d (writes_from d 0 (list_parts list.now.plan.now list.now.entries.now list.now.finish)) (is_ok result) (B.world bay.old) (B.world bay.new) }
    ensures total { IfOk result (λ total. total ≡ length (joined (list_parts list.now.plan.now list.now.entries.now list.now.finish))) }
    ensures range { IfOk result (λ total. total < 2 ^ 48) }
{
    let mut at = 0u64;
    for part in 0..list.count() {
        list.part_into(part, scratch);
        let bytes = scratch.bytes();
        bay.write(d, NEW, at, bytes)?;
        at += bytes.len() as u64;
    }
    Ok(at)
}

/// Gives that file the name of the list, and settles it.
pub fn name_list<B: Bay>(bay: &mut B, d: u32, list: &str) -> Result<(), DriveFailed>
    requires { d < (B.world bay.old).attached.drives }
    ensures { Tried d (naming d list.now) (is_ok result) (B.world bay.old) (B.world bay.new) }
{
    bay.rename(d, NEW, list)?;
    bay.sync(d)?;
    Ok(())
}
