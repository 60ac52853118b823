//! Reading the bytes of a journal (docs/FORMATS.md, "The journal").

ghost use Rattle.std.specs.Prelude.{◌≡◌, ◌-◌, ◌≤◌, length, option_map, MatchResult};
ghost use Rattle.std.specs.Bool.{Decides};
ghost use Rattle.copy_plan.specs.Fields.{Takes};
ghost use Rattle.drive_journal.specs.Record.{record_code};
ghost use Rattle.drive_journal.specs.Journal.{IsShape, IsRecord, HoldsJournal};
ghost use Rattle.drive_journal.specs.Look.{next_gate};
ghost use Rattle.drive_journal.specs.Reading.{Steps, RecordsTaken, RecordsBehind, FailsAt, IsClosed, unread, IsTriple, triple_code, JournalFails};

use crate::record::{Gate, Rec};
use copy_plan::{Decoded, Plan, PlanError, PlannedFile, decode, eight_bytes, four_bytes, moment};
use digest_set::Triple;
use std::alloc::Global;
use thiserror::Error;

// The bytes of a record and its gate.
const RECORD_BYTES: u64 = 65;

// The byte of an open gate.
const OPEN: u8 = 1;

/// A journal that was read: its plan, its records, and the gate of the next one.
#[derive(Debug, Drop)]
pub struct Journal {
    pub plan: Plan,
    pub entries: Vec<Rec>,
    pub gate: Gate,
}

/// Why bytes could not be read as a journal.
#[derive(Clone, Copy, Debug, Error)]
pub enum JournalError {
    #[error("no journal: wrong at byte {at}")]
    NotAJournal { at: u64 },
    #[error("out of memory")]
    Memory,
}

// A record, whatever file it is of.
fn take_record(bytes: &[u8]) -> Option<(Rec, &[u8])>
    ensures { Takes IsShape record_code bytes.now (option_map (λ x. (x.0, x.1.now)) result) }
{
    let (index, rest) = four_bytes(bytes)?;
    let (size, rest) = eight_bytes(rest)?;
    let (triple, rest) = match take_triple(rest) {
        Some(taken) => taken,
        None => return None,
    };
    let (hashed, rest) = match moment(rest) {
        Some(taken) => taken,
        None => return None,
    };
    let record = Rec {
        index,
        size,
        triple,
        hashed,
    };
    Some((record, rest))
}

// The three digests of a record.
fn take_triple(bytes: &[u8]) -> Option<(Triple, &[u8])>
    ensures { Takes IsTriple triple_code bytes.now (option_map (λ x. (x.0, x.1.now)) result) }
{
    let (md5, rest) = bytes.split_first_chunk::<16>()?;
    let (sha1, rest) = rest.split_first_chunk::<20>()?;
    let (xxh, rest) = rest.split_first_chunk::<8>()?;
    let triple = Triple {
        md5: *md5,
        sha1: *sha1,
        xxh: *xxh,
    };
    Some((triple, rest))
}

// The record of the file with this number.
fn take_record_of<'a>(index: u32, file: &PlannedFile, bytes: &'a [u8]) -> Option<(Rec, &'a [u8])>
    ensures { Takes (IsRecord index file.now) record_code bytes.now (option_map (λ x. (x.0, x.1.now)) result) }
{
    let (record, rest) = match take_record(bytes) {
        Some(taken) => taken,
        None => return None,
    };
    if record.index != index {
        return None;
    }
    if record.size != file.size {
        return None;
    }
    Some((record, rest))
}

// What stands at a gate.
enum Step<'a> {
    // A byte that is not 1: no more records.
    Closed,
    // The byte 1 and the record of the file.
    Record(Rec, &'a [u8]),
    // Neither; it goes wrong where this rest begins.
    Broken(&'a [u8]),
}

// What stands at the gate in front of the record of this file.
fn next_step<'a>(index: u32, file: &PlannedFile, bytes: &'a [u8]) -> Step<'a>
    ensures { Steps index file.now bytes.now result }
{
    match bytes.split_first() {
        None => Step::Broken(bytes),
        Some((gate, rest)) => {
            if *gate != OPEN {
                return Step::Closed;
            }
            match take_record_of(index, file, rest) {
                Some((record, rest)) => Step::Record(record, rest),
                None => Step::Broken(rest),
            }
        }
    }
}

// The refusal of a journal that goes wrong where this rest begins.
fn wrong_at(bytes: &[u8], rest: &[u8]) -> JournalError
    requires { length rest.now ≤ length bytes.now }
    ensures { result ≡ JournalError.NotAJournal (length bytes.now - length rest.now) }
{
    JournalError::NotAJournal {
        at: (bytes.len() - rest.len()) as u64,
    }
}

// The records of these files up to the closed gate, where `bytes` go on with `rest`.
fn take_records(
    alloc: Global,
    files: &[PlannedFile],
    bytes: &[u8],
    rest: &[u8],
) -> Result<Vec<Rec>, JournalError>
    requires few { length files.now ≤ 262144 }
    requires within { length rest.now ≤ length bytes.now }
    ensures { MatchResult result (λ entries. RecordsTaken files.now rest.now entries.items) (FailsAt (RecordsBehind bytes.now files.now rest.now)) }
{
    let mut entries = Vec::new(alloc);
    let mut rest = rest;
    for file in files {
        match next_step(entries.len() as u32, file, rest) {
            Step::Closed => return Ok(entries),
            Step::Broken(place) => return Err(wrong_at(bytes, place)),
            Step::Record(record, behind) => {
                match entries.push(record) {
                    Ok(()) => {}
                    Err(_) => return Err(JournalError::Memory),
                }
                rest = behind;
            }
        }
    }
    if has_closed_gate(rest) {
        Ok(entries)
    } else {
        Err(wrong_at(bytes, rest))
    }
}

// Whether the bytes begin with a closed gate.
fn has_closed_gate(bytes: &[u8]) -> bool
    ensures { Decides result (IsClosed bytes.now) }
{
    match bytes.first() {
        Some(gate) => *gate != OPEN,
        None => false,
    }
}

/// The journal that the bytes hold, whatever lies behind its closed gate. `NotAJournal` comes exactly where they hold
/// none, with the place of their first fault.
pub fn read_journal(alloc: Global, bytes: &[u8]) -> Result<Journal, JournalError>
    ensures { MatchResult result (λ j. HoldsJournal bytes.now j.plan j.entries.items × (j.gate ≡ next_gate j.plan (length j.entries.items))) (JournalFails bytes.now) }
{
    let (plan, used) = match decode(alloc, bytes) {
        Ok(Decoded { plan, used }) => (plan, used),
        Err(error) => return Err(unread(error)),
    };
    let entries = match take_records(alloc, plan.files(), bytes, &bytes[used..]) {
        Ok(entries) => entries,
        Err(error) => return Err(error),
    };
    let gate = Gate {
        at: used as u64 + RECORD_BYTES * entries.len() as u64,
        index: entries.len() as u32,
    };
    Ok(Journal {
        plan,
        entries,
        gate,
    })
}

// The refusal of a journal whose plan could not be read.
fn unread(error: PlanError) -> JournalError
    ensures { result ≡ unread error }
{
    match error {
        PlanError::NotAPlan { at } => JournalError::NotAJournal { at },
        PlanError::Memory => JournalError::Memory,
    }
}
