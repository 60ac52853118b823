// What a run told: its calls and its lines as texts, and its end.
use crate::cards::{JOURNAL, NEW, PART};
use bay_core::{Bytes, Event};
use bay_mem::MemBay;
use fan_core::Drives;
use offload_run::Offload;
use run_state::Outcome;
use std::alloc::{AllocError, Global};
use std::process::Abort;
use std::test::Fail;

// The text of a path or a line.
fn text(bytes: &Bytes) -> &str {
    match str::from_utf8(bytes.as_slice()) {
        Ok(text) => text,
        Err(_) => "no text",
    }
}

// A path; one of the control folder by its name there.
fn name(path: &Bytes) -> &str {
    let path = text(path);
    for (long, short) in [(PART, "part"), (NEW, "new"), (JOURNAL, "journal")] {
        if path == long {
            return short;
        }
    }
    path
}

// A call, behind its drive or the word `card`: its paths, and from where on how many bytes were asked for or written.
fn call_text(alloc: Global, event: &Event) -> Result<String, Fail> {
    Ok(match event {
        Event::SourceRead { path, at, want, .. } => {
            format!(in alloc; "card {} {at} {want}", name(path))?
        }
        Event::DriveRead {
            d,
            path,
            at,
            want,
            ..
        } => { format!(in alloc; "{d} read {} {at} {want}", name(path))? }
        Event::Write {
            d,
            path,
            at,
            bytes,
            ..
        } => {
            let len = bytes.as_slice().len();
            format!(in alloc; "{d} write {} {at} {len}", name(path))?
        }
        Event::Sync { d, .. } => format!(in alloc; "{d} sync")?,
        Event::Rename { d, from, to, .. } => {
            format!(in alloc; "{d} rename {} {}", name(from), name(to))?
        }
        Event::Remove { d, path, .. } => format!(in alloc; "{d} remove {}", name(path))?,
        Event::Say { line, .. } => format!(in alloc; "say {}", text(line))?,
        Event::Moment { .. } => "moment".to_owned(alloc)?,
        Event::Pick { .. } => "pick".to_owned(alloc)?,
        _ => "attach".to_owned(alloc)?,
    })
}

// Whether a text begins so.
fn begins(text: &str, start: &str) -> bool {
    text.as_bytes().starts_with(start.as_bytes())
}

// The calls whose texts begin so, each with a line feed.
pub fn calls(alloc: Global, bay: &MemBay, start: &str) -> Result<String, Fail> {
    let mut calls = String::new(alloc);
    for event in bay.events() {
        let call = call_text(alloc, event)?;
        if begins(&call, start) {
            calls.push_str(&call)?;
            calls.push('\n')?;
        }
    }
    Ok(calls)
}

// How many calls there were whose texts begin so.
pub fn count(alloc: Global, bay: &MemBay, start: &str) -> Result<usize, Fail> {
    let mut count = 0usize;
    for event in bay.events() {
        if begins(&call_text(alloc, event)?, start) {
            count = count.saturating_add(1);
        }
    }
    Ok(count)
}

// How many calls there were up to the first whose text begins so, with that.
pub fn calls_up_to(alloc: Global, bay: &MemBay, start: &str) -> Result<usize, Fail> {
    for (n, event) in bay.events().iter().enumerate() {
        if begins(&call_text(alloc, event)?, start) {
            return Ok(n.saturating_add(1));
        }
    }
    Err("no such call".into())
}

// The lines, each with a line feed. One that was not said has a mark.
fn lines(alloc: Global, bay: &MemBay) -> Result<String, Fail> {
    let mut lines = String::new(alloc);
    for event in bay.events() {
        if let Event::Say { line, ok } = event {
            lines.push_str(text(line))?;
            lines.push_str(if *ok { "\n" } else { " (not said)\n" })?;
        }
    }
    Ok(lines)
}

// The numbers of a set of drives, or a dash for none.
fn numbers(alloc: Global, drives: Drives) -> Result<String, AllocError> {
    let mut text = String::new(alloc);
    for (d, digit) in (0..8).zip(['0', '1', '2', '3', '4', '5', '6', '7']) {
        if drives.has(d) {
            text.push(digit)?;
        }
    }
    if text.is_empty() {
        text.push('-')?;
    }
    Ok(text)
}

// An outcome, with the number of its file and the lengths.
fn outcome_text(alloc: Global, outcome: Outcome) -> Result<String, Fail> {
    let word = match outcome {
        Outcome::Going => "Going",
        Outcome::Finished => "Finished",
        Outcome::NoDrive => "NoDrive",
        Outcome::SourceFailed => "SourceFailed",
        Outcome::OutFailed => "OutFailed",
        Outcome::Changed {
            index,
            listed,
            read,
        } => return Ok(format!(in alloc; "Changed {index} {listed} {read}")?),
        Outcome::Altered { index, .. } => return Ok(format!(in alloc; "Altered {index}")?),
    };
    Ok(word.to_owned(alloc)?)
}

// Whether a call is one of a run that can fail: it is none of the clock, the picker or the attaching.
fn can_fail(event: &Event) -> bool {
    matches!(
        event,
        Event::SourceRead { .. }
            | Event::DriveRead { .. }
            | Event::Write { .. }
            | Event::Sync { .. }
            | Event::Rename { .. }
            | Event::Remove { .. }
            | Event::Say { .. }
    )
}

// How many calls a run made that can fail.
pub fn count_calls(bay: &MemBay) -> usize {
    let mut count = 0usize;
    for event in bay.events() {
        if can_fail(event) {
            count = count.saturating_add(1);
        }
    }
    count
}

// How a run ended: its outcome, and the drives whose line `sealed` and whose line `dropped` it said.
pub fn end(alloc: Global, run: &Offload) -> Result<String, Fail> {
    let outcome = outcome_text(alloc, run.outcome())?;
    let sealed = numbers(alloc, run.sealed())?;
    let dropped = numbers(alloc, run.dropped())?;
    Ok(format!(in alloc; "{outcome} | {sealed} | {dropped}")?)
}

// Fails unless a text is as it is wanted.
pub fn expect_text(rt: &impl Abort, text: &str, wanted: &str) {
    assert_eq!(rt; text, wanted);
}

// Fails unless a number is as it is wanted.
pub fn expect_number(rt: &impl Abort, number: usize, wanted: usize) {
    assert_eq!(rt; number, wanted);
}

// The lines of a run, and its end behind them.
pub fn told(alloc: Global, run: &Offload, bay: &MemBay) -> Result<String, Fail> {
    let mut told = lines(alloc, bay)?;
    let end = end(alloc, run)?;
    told.push_str(&end)?;
    Ok(told)
}

// Fails unless a run told this, and made so many calls that can fail.
pub fn expect_end(
    rt: &impl Abort,
    alloc: Global,
    run: &Offload,
    bay: &MemBay,
    wanted: &str,
    calls: usize,
) -> Result<(), Fail> {
    let told = told(alloc, run, bay)?;
    expect_text(rt, &told, wanted);
    expect_number(rt, count_calls(bay), calls);
    Ok(())
}
