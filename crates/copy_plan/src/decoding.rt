//! Reading the code of a plan (docs/FORMATS.md, "Plans").

ghost use Rattle.std.specs.Prelude.{◌≡◌, ℕ, ◌-◌, ◌^◌, ◌≤◌, List, [], ◌++◌, length, IfOk, IfErr, MatchResult};
ghost use Rattle.std.specs.Bool.{Decides};
ghost use Rattle.std.specs.List.{AllByRecursion};
ghost use Rattle.copy_plan.specs.Inventory.{EachPair, Precedes, path_bytes};
ghost use Rattle.copy_plan.specs.Fields.{TakesOr, MayFollow, ChoiceFault, FilesFault, PlanFault, file_code, plan_code};
ghost use Rattle.copy_plan.specs.Plan.{PlanValue, IsPlan};
ghost use Rattle.copy_plan.specs.Decoding.{HeadStands, ChoiceStands, FilesTaken, StandsAlone, Behind, Faults, PlanStands, IsNoPlan, wrong};

use crate::ancestors::first_ancestor;
use crate::fields::{self, FieldError};
use crate::file::PlannedFile;
use crate::inventory::{MOST_PATH_BYTES, SIZE_LIMIT};
use crate::plan::Plan;
use path_text::{Kinds, Label, Moment, PathText, ancestor_of, is_control, list_name};
use std::alloc::Global;
use thiserror::Error;

// The kinds of a plan that does not name them.
const ALL_KINDS: Kinds = Kinds {
    md5: true,
    sha1: true,
    xxh: true,
};

/// A plan, and the length of its code in bytes.
#[derive(Debug, Drop)]
pub struct Decoded {
    pub plan: Plan,
    pub used: usize,
}

/// Why bytes could not be read as a plan.
#[derive(Clone, Copy, Debug, PartialEq, Eq, Error)]
pub enum PlanError {
    /// The bytes begin with the code of no plan. The place is that of the first field that is not whole, or breaks its
    /// rule by itself or together with the fields before it.
    #[error("no plan: wrong from byte {at} on")]
    NotAPlan { at: u64 },
    #[error("out of memory")]
    Memory,
}

// The mark, the start and the labels of a plan.
#[derive(Clone, Copy)]
struct Head {
    plain: bool,
    started: Moment,
    name: Label,
    user: Label,
    host: Label,
}

// The refusal of bytes that go wrong where this rest begins.
fn wrong_at(bytes: &[u8], rest: &[u8]) -> PlanError
    requires { length rest.now ≤ length bytes.now }
    ensures { result ≡ PlanError.NotAPlan (length bytes.now - length rest.now) }
{
    PlanError::NotAPlan {
        at: (bytes.len() - rest.len()) as u64,
    }
}

// The refusal where a field could not be taken from this rest.
fn refusal(error: FieldError, bytes: &[u8], rest: &[u8]) -> PlanError
    requires { length rest.now ≤ length bytes.now }
    ensures { result ≡ wrong error (length bytes.now - length rest.now) }
{
    match error {
        FieldError::Broken => wrong_at(bytes, rest),
        FieldError::Memory => PlanError::Memory,
    }
}

// The mark, the start and the labels.
fn take_head(bytes: &[u8]) -> Result<(Head, &[u8]), PlanError>
    ensures { MatchResult result (λ x. HeadStands bytes.now x.0 x.1.now) (Faults (PlanFault bytes.now)) }
{
    let Some((plain, rest)) = fields::mark(bytes) else {
        return Err(wrong_at(bytes, bytes));
    };
    let (started, rest) = match fields::moment(rest) {
        Some(taken) => taken,
        None => return Err(wrong_at(bytes, rest)),
    };
    let (name, rest) = match fields::label(rest) {
        Some(taken) => taken,
        None => return Err(wrong_at(bytes, rest)),
    };
    let (user, rest) = match fields::label(rest) {
        Some(taken) => taken,
        None => return Err(wrong_at(bytes, rest)),
    };
    let (host, rest) = match fields::label(rest) {
        Some(taken) => taken,
        None => return Err(wrong_at(bytes, rest)),
    };
    let head = Head {
        plain,
        started,
        name,
        user,
        host,
    };
    Ok((head, rest))
}

// The kinds and the source list of a plan with this mark, where `bytes` go on with `rest`.
fn take_choice<'a>(
    alloc: Global,
    plain: bool,
    bytes: &[u8],
    rest: &'a [u8],
) -> Result<((Kinds, Option<PathText>), &'a [u8]), PlanError>
    requires { length rest.now ≤ length bytes.now }
    ensures { MatchResult result (λ x. ChoiceStands plain rest.now x.0.0 x.0.1 x.1.now) (Faults (λ at. (list : List ℕ) → Behind bytes.now rest.now (ChoiceFault plain list) at)) }
{
    if plain {
        return Ok(((ALL_KINDS, None), rest));
    }
    let (kinds, rest) = match fields::kinds(rest) {
        Some(taken) => taken,
        None => return Err(wrong_at(bytes, rest)),
    };
    match fields::source(alloc, kinds, rest) {
        Ok((source_list, rest)) => Ok(((kinds, source_list), rest)),
        Err(error) => Err(refusal(error, bytes, rest)),
    }
}

// Whether a file keeps the rules that do not speak of the files before it, whose paths have `total` bytes.
fn stands_alone(list: &PathText, total: u64, file: &PlannedFile) -> bool
    requires { total ≤ 2 ^ 32 }
    ensures { Decides result (StandsAlone list.now total file.now) }
{
    if is_control(&file.path) || ancestor_of(list, &file.path) || file.path == *list {
        return false;
    }
    file.size < SIZE_LIMIT && total + file.path.as_str().len() as u64 <= MOST_PATH_BYTES
}

// Whether a file comes behind the files before it, none of which lies above it.
fn stands_behind(before: &[PlannedFile], file: &PlannedFile) -> bool
    requires { EachPair Precedes before.now }
    ensures { Decides result (AllByRecursion (λ g. Precedes g file.now) before.now) }
{
    let Some(last) = before.last() else {
        return true;
    };
    last.path < file.path && first_ancestor(before, &file.path).is_none()
}

// The next file of a plan with this list name, behind the files before it, whose paths have `total` bytes.
fn take_file<'a>(
    alloc: Global,
    list: &PathText,
    before: &[PlannedFile],
    total: u64,
    bytes: &'a [u8],
) -> Result<(PlannedFile, &'a [u8]), FieldError>
    requires pairs { EachPair Precedes before.now }
    requires total { total ≡ path_bytes before.now }
    requires short { total ≤ 2 ^ 32 }
    ensures { TakesOr (MayFollow list.now before.now) file_code bytes.now (λ x. (x.0, x.1.now)) result }
{
    let (file, rest) = match fields::file(alloc, bytes) {
        Ok(taken) => taken,
        Err(error) => return Err(error),
    };
    if !stands_alone(list, total, &file) {
        return Err(FieldError::Broken);
    }
    if !stands_behind(before, &file) {
        return Err(FieldError::Broken);
    }
    Ok((file, rest))
}

// So many files, where `bytes` go on with `rest`.
fn take_files<'a>(
    alloc: Global,
    list: &PathText,
    count: u32,
    bytes: &[u8],
    rest: &'a [u8],
) -> Result<(Vec<PlannedFile>, &'a [u8]), PlanError>
    requires { length rest.now ≤ length bytes.now }
    ensures { MatchResult result (λ x. FilesTaken list.now count rest.now x.0.items x.1.now) (Faults (Behind bytes.now rest.now (FilesFault list.now [] count))) }
{
    let mut files = Vec::new(alloc);
    let mut total = 0;
    let mut rest = rest;
    for _ in 0..count {
        let (file, after) = match take_file(alloc, list, &files, total, rest) {
            Ok(taken) => taken,
            Err(error) => return Err(refusal(error, bytes, rest)),
        };
        total += file.path.as_str().len() as u64;
        match files.push(file) {
            Ok(()) => {}
            Err(_) => return Err(PlanError::Memory),
        }
        rest = after;
    }
    Ok((files, rest))
}

// The plan at the front of the bytes, or the place of their first fault.
fn read_plan(alloc: Global, bytes: &[u8]) -> Result<Decoded, PlanError>
    ensures { MatchResult result (λ decoded. PlanStands bytes.now decoded.plan decoded.used) (Faults (PlanFault bytes.now)) }
{
    let (head, rest) = match take_head(bytes) {
        Ok(taken) => taken,
        Err(error) => return Err(error),
    };
    let ((kinds, source_list), rest) = match take_choice(alloc, head.plain, bytes, rest) {
        Ok(taken) => taken,
        Err(error) => return Err(error),
    };
    let Some((count, after)) = fields::count(rest) else {
        return Err(wrong_at(bytes, rest));
    };
    let Ok(list) = list_name(alloc, &head.name, head.started) else {
        return Err(PlanError::Memory);
    };
    let (files, after) = match take_files(alloc, &list, count, bytes, after) {
        Ok(taken) => taken,
        Err(error) => return Err(error),
    };
    let plan = Plan::of_parts(
        head.name,
        head.user,
        head.host,
        head.started,
        kinds,
        source_list,
        list,
        files,
    );
    let used = bytes.len() - after.len();
    Ok(Decoded { plan, used })
}

/// The plan whose code the bytes begin with, whatever follows, and the length of that code. `NotAPlan` comes exactly
/// where they begin with the code of no plan.
pub fn decode(alloc: Global, bytes: &[u8]) -> Result<Decoded, PlanError>
    // What is read stands there.
    ensures found { IfOk result (λ decoded. PlanStands bytes.now decoded.plan decoded.used) }

    // What stands there is read, unless memory runs out.
    ensures only { (p : PlanValue) (rest : List ℕ) → IsPlan p → bytes.now ≡ plan_code p ++ rest → MatchResult result (λ decoded. (decoded.plan ≡ p) × (decoded.used ≡ length (plan_code p))) (λ e. e ≡ PlanError.Memory) }

    // A refusal has the place of the first fault, and no plan stands there.
    ensures fault { IfErr result (Faults (λ at. PlanFault bytes.now at × IsNoPlan bytes.now)) }
{
    read_plan(alloc, bytes)
}
