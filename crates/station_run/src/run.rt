// A run of the station.
ghost use Rattle.std.specs.Prelude.{◌≡◌, ◌<◌, ◌-◌, ◌^◌};
ghost use Rattle.command_words.specs.Jobs.{Job, IsJob};
ghost use Rattle.command_words.specs.Words.{drive_word, IsCommand};
ghost use Rattle.job_steps.specs.Prefix.{CrashPrefix, CallsClear};
ghost use Rattle.last_lines.specs.Ends.{Ended};
ghost use Rattle.station_run.specs.Promises.{OfJob, KeepsPromises};
ghost use Rattle.station_run.specs.Ends.{fault_end, load_end, broken_end, outcome_status};
ghost use Rattle.station_run.specs.Runs.{Unchanged};
ghost use Rattle.station_run.specs.Verify.{VerifyRun, VerifiedThen};
ghost use Rattle.station_run.specs.Print.{PrintRun, PrintedThen};
ghost use Rattle.station_run.specs.Station.{HasRoom, RoomFor, Ran, ChangesNothing};

use crate::printing::print_list;
use crate::promises::runs_keep_their_promises;
use bay_core::Bay;
use command_words::{Command, WordList, WordsError, read_words};
use job_run::{OffloadJob, run_offload};
use last_lines::{end, say_memory};
use mhl_reader::ReadError;
use path_text::{PathText, Scratch};
use report_text::Line;
use std::alloc::Global;
use verify_run::{LoadError, Outcome, VerifyError, load_list, verify};

// The status of a verdict.
fn status_of(outcome: Outcome) -> u8
    ensures { result ≡ outcome_status outcome }
{
    match outcome {
        Outcome::AllGood => 0,
        Outcome::SomeBad => 1,
        Outcome::SomeUnchecked => 6,
    }
}

// Ends a run whose list has a fault.
fn end_unreadable<B: Bay>(bay: &mut B, scratch: &mut Scratch, fault: ReadError) -> u8
    ensures { Ended (fault_end fault) result (B.world bay.old) (B.world bay.new) }
{
    match fault {
        ReadError::NotUtf8 { at } => end(bay, scratch, &Line::Unreadable("notutf8", at), 7),
        ReadError::Malformed { at } => end(bay, scratch, &Line::Unreadable("malformed", at), 7),
        ReadError::Doctype { at } => end(bay, scratch, &Line::Unreadable("doctype", at), 7),
        ReadError::Cdata { at } => end(bay, scratch, &Line::Unreadable("cdata", at), 7),
        ReadError::Version => end(bay, scratch, &Line::UnreadableVersion, 7),
        ReadError::NoFile { at } => end(bay, scratch, &Line::Unreadable("nofile", at), 7),
        ReadError::Twice { at } => end(bay, scratch, &Line::Unreadable("twice", at), 7),
        ReadError::BadPath { at } => end(bay, scratch, &Line::Unreadable("badpath", at), 7),
        ReadError::BadSize { at } => end(bay, scratch, &Line::Unreadable("badsize", at), 7),
        ReadError::BadDigest { at } => end(bay, scratch, &Line::Unreadable("baddigest", at), 7),
        ReadError::TooMany { at } => end(bay, scratch, &Line::Unreadable("toomany", at), 7),
        ReadError::Memory => end(bay, scratch, &Line::Memory, 9),
    }
}

// Ends a run whose list was not loaded.
fn end_unloaded<B: Bay>(bay: &mut B, scratch: &mut Scratch, error: LoadError) -> u8
    ensures { Ended (load_end error) result (B.world bay.old) (B.world bay.new) }
{
    match error {
        LoadError::DriveFailed => end(bay, scratch, &Line::FailedDrive, 8),
        LoadError::Absent => end(bay, scratch, &Line::UnreadableAbsent, 7),
        LoadError::TooLarge { len } => end(bay, scratch, &Line::UnreadableToolarge(len), 7),
        LoadError::Unreadable(fault) => end_unreadable(bay, scratch, fault),
        LoadError::Memory => end(bay, scratch, &Line::Memory, 9),
    }
}

// Ends a run whose verification broke off.
fn end_unverified<B: Bay>(bay: &mut B, scratch: &mut Scratch, error: VerifyError) -> u8
    ensures { Ended (broken_end error) result (B.world bay.old) (B.world bay.new) }
{
    match error {
        VerifyError::DriveFailed => end(bay, scratch, &Line::FailedDrive, 8),
        VerifyError::OutFailed => 5,
        VerifyError::Memory => end(bay, scratch, &Line::Memory, 9),
    }
}

// Loads the list of an attached drive, and verifies the drive.
fn verify_attached<B: Bay>(
    alloc: Global,
    bay: &mut B,
    scratch: &mut Scratch,
    d: u32,
    list: &PathText,
) -> u8
    requires { d < (B.world bay.old).attached.drives }
    ensures { VerifiedThen d list.now result (B.world bay.old) (B.world bay.new) }
{
    let hashes = match load_list(alloc, bay, d, list) {
        Ok(hashes) => hashes,
        Err(e) => return end_unloaded(bay, scratch, e),
    };
    match verify(alloc, bay, d, &hashes, list) {
        Ok(verdict) => status_of(verdict.outcome()),
        Err(e) => end_unverified(bay, scratch, e),
    }
}

// Loads the list of an attached drive, and says its table.
fn print_attached<B: Bay>(
    alloc: Global,
    bay: &mut B,
    scratch: &mut Scratch,
    d: u32,
    list: &PathText,
) -> u8
    requires { d < (B.world bay.old).attached.drives }
    ensures { PrintedThen d list.now result (B.world bay.old) (B.world bay.new) }
{
    let hashes = match load_list(alloc, bay, d, list) {
        Ok(hashes) => hashes,
        Err(e) => return end_unloaded(bay, scratch, e),
    };
    match print_list(bay, scratch, &hashes) {
        Ok(()) => 0,
        Err(_) => 5,
    }
}

// Attaches the drive at a place, and verifies it by its list.
fn verify_place<B: Bay>(
    alloc: Global,
    bay: &mut B,
    scratch: &mut Scratch,
    list: &PathText,
    place: &str,
) -> u8
    requires { (B.world bay.old).attached.drives < 2 ^ 32 - 1 }
    ensures { VerifyRun list.now place.now result (B.world bay.old) (B.world bay.new) }
{
    match bay.attach_drive(place) {
        Ok(d) => verify_attached(alloc, bay, scratch, d, list),
        Err(_) => end(bay, scratch, &Line::FailedAttachDrive(0), 4),
    }
}

// Attaches the drive at a place, and says the table of its list.
fn print_place<B: Bay>(
    alloc: Global,
    bay: &mut B,
    scratch: &mut Scratch,
    list: &PathText,
    place: &str,
) -> u8
    requires { (B.world bay.old).attached.drives < 2 ^ 32 - 1 }
    ensures { PrintRun list.now place.now result (B.world bay.old) (B.world bay.new) }
{
    match bay.attach_drive(place) {
        Ok(d) => print_attached(alloc, bay, scratch, d, list),
        Err(_) => end(bay, scratch, &Line::FailedAttachDrive(0), 4),
    }
}

// Does what a command asks for, which the words are.
fn run_asked<B: Bay>(
    alloc: Global,
    bay: &mut B,
    scratch: &mut Scratch,
    words: &WordList,
    command: &Command,
) -> u8
    requires command { IsCommand words.now command.now }
    requires room { RoomFor command.now (B.world bay.old).attached }
    ensures { Ran words.now result (B.world bay.old) (B.world bay.new) }
{
    match command {
        Command::Offload {
            name,
            user,
            host,
            copies,
            kinds,
            drives,
        } => {
            let asked = OffloadJob {
                name: *name,
                user: *user,
                host: *host,
                copies: *copies,
                kinds: *kinds,
                drives: *drives,
            };
            run_offload(alloc, bay, scratch, words, &asked)
        }
        Command::Verify { list } => verify_place(alloc, bay, scratch, list, words.word(2)),
        Command::Print { list } => print_place(alloc, bay, scratch, list, words.word(2)),
    }
}

// Reads the words, and does what they ask for.
fn run_words<B: Bay>(alloc: Global, bay: &mut B, words: &WordList) -> u8
    requires { HasRoom words.now (B.world bay.old).attached }
    ensures { Ran words.now result (B.world bay.old) (B.world bay.new) }
{
    let mut scratch = match Scratch::new(alloc) {
        Ok(scratch) => scratch,
        Err(_) => return say_memory(bay),
    };
    match read_words(alloc, words) {
        Ok(command) => run_asked(alloc, bay, &mut scratch, words, &command),
        Err(WordsError::Words) => end(bay, &mut scratch, &Line::RefusedWords, 2),
        Err(WordsError::Memory) => say_memory(bay),
    }
}

/// Does what the words ask for, and answers the status (docs/OPERATING.md).
pub fn run_command<B: Bay>(alloc: Global, bay: &mut B, words: &WordList) -> u8
    requires { HasRoom words.now (B.world bay.old).attached }
    ensures ran { Ran words.now result (B.world bay.old) (B.world bay.new) }
    // Nothing is changed by a run that ended with 2, 3, 7 or 9, and by none whose words are no job.
    ensures unchanged { ChangesNothing words.now result → Unchanged (B.world bay.old) (B.world bay.new) }
    ensures prefix { OfJob CrashPrefix words.now (B.world bay.old) (B.world bay.new) }
    ensures clear { OfJob CallsClear words.now (B.world bay.old) (B.world bay.new) }
    ensures promises { (job : Job) → IsJob words.now job → KeepsPromises job result (B.world bay.old) (B.world bay.new) }
{
    runs_keep_their_promises();
    run_words(alloc, bay, words)
}

/// The station: everything that the program does with its words, over any bay.
///
/// The headline (docs/MODEL.md, "The headline") stands in two clauses, of each run whose words are a job's, whatever they are, and
/// whichever calls fail: wherever the run stops, within a write too, each honest drive is left with a prefix of the offload's steps
/// that holds every step announced for it (`prefix`); and the card is called clear only where the required number of drives are
/// sealed for good (`clear`).
pub fn station<B: Bay>(alloc: Global, bay: &mut B, words: &WordList) -> u8
    requires { HasRoom words.now (B.world bay.old).attached }
    ensures ran { Ran words.now result (B.world bay.old) (B.world bay.new) }
    // Nothing is changed by a run that ended with 2, 3, 7 or 9, and by none whose words are no job.
    ensures unchanged { ChangesNothing words.now result → Unchanged (B.world bay.old) (B.world bay.new) }
    ensures prefix { OfJob CrashPrefix words.now (B.world bay.old) (B.world bay.new) }
    ensures clear { OfJob CallsClear words.now (B.world bay.old) (B.world bay.new) }
    ensures promises { (job : Job) → IsJob words.now job → KeepsPromises job result (B.world bay.old) (B.world bay.new) }
{
    run_command(alloc, bay, words)
}
