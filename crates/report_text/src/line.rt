ghost use Rattle.std.specs.Prelude.{◌≡◌, ◌≤◌, length};
ghost use Rattle.report_text.specs.declared.line.Line.TheVariants.{Memory};
ghost use Rattle.report_text.specs.Line.{line_text, IsSayable};

use crate::losses::{failure_line, loss_line};
use crate::refusals::{refusal_line, standing_line};
use crate::report::report_line;
use crate::run::run_line;
use crate::table::table_line;
use digest_set::Triple;
use path_text::{Moment, PathError, Scratch};

/// One line, by the fixed words of its form; the fields are the values of the form in its order.
///
/// Sizes and lengths are bytes, a drive and a job are their numbers in the order of the words, and a path stands last, but
/// for the list name in the drive line of a rehearsal, which holds no space.
#[derive(Clone, Copy, Debug)]
pub enum Line<'a> {
    /// `begun D K N`: the journal of the drive is settled, with K records of N files.
    Begun(u32, u64, u64),
    /// `done D K N PATH`: the record of the file is settled on the drive, as its K-th of N.
    Done(u32, u64, u64, &'a str),
    /// `sealed D N LIST`: the list of N files is settled on the drive under its name.
    Sealed(u32, u64, &'a str),
    /// `clear C COPIES`: C drives are sealed, of which COPIES are required.
    Clear(u64, u64),
    /// `unused D`: no file of the card goes to the drive.
    Unused(u32),
    /// `repaired PATH`: the file was replaced by a good one.
    Repaired(&'a str),
    /// `unrepaired PATH`: there was no good file to replace it by.
    Unrepaired(&'a str),
    /// `repair R repaired U unrepaired`: how many files were replaced, and how many not.
    RepairRepairedUnrepaired(u64, u64),
    /// `in job J`: the line before is of that job.
    InJob(u32),
    /// `jobclear J C COPIES`: of a job, what `clear` says of a card.
    Jobclear(u32, u64, u64),
    /// `rehearse NUMBER FILES`: what was rehearsed.
    Rehearse(u64, u64),
    /// `bytes SUM`: the bytes of the files of the rehearsed card.
    Bytes(u64),
    /// `drive D sealed LIST good`: a drive of the rehearsal is sealed by the list, and verified good.
    DriveSealedGood(u32, &'a str),
    /// `dropped D fault`: a call on the drive failed.
    DroppedFault(u32),
    /// `dropped D absent PATH`: the file, or the list by its name, was not there to be read back.
    DroppedAbsent(u32, &'a str),
    /// `dropped D length RECORDED READ PATH`: the file, or the list by its name, was read back with another length.
    DroppedLength(u32, u64, u64, &'a str),
    /// `dropped D altered RECORDED READ PATH`: it has other digests; each three are said as MD5, SHA-1, XXH64.
    DroppedAltered(u32, &'a Triple, &'a Triple, &'a str),
    /// `dropped D byte AT WRITTEN READ LIST`: the first byte of the list that was read back otherwise.
    DroppedByte(u32, u64, u64, u64, &'a str),
    /// `failed list absent LIST`: the list was not there to be read back.
    FailedListAbsent(&'a str),
    /// `failed list length WRITTEN READ LIST`: the list read back has another length.
    FailedListLength(u64, u64, &'a str),
    /// `failed list byte AT WRITTEN READ LIST`: its first byte that was read back otherwise.
    FailedListByte(u64, u64, u64, &'a str),
    /// `failed gone PATH`: a listed file was not there to be read.
    FailedGone(&'a str),
    /// `failed length LISTED READ PATH`: the file has another length than is listed.
    FailedLength(u64, u64, &'a str),
    /// `failed attach card`.
    FailedAttachCard,
    /// `failed attach drive D`.
    FailedAttachDrive(u32),
    /// `failed card`: a call on the card failed.
    FailedCard,
    /// `failed card changed LISTED READ PATH`: the file of the card has another length than is listed.
    FailedCardChanged(u64, u64, &'a str),
    /// `failed card altered md5 LISTED READ PATH`: the file has another MD5 than the list of its folder says.
    FailedCardAlteredMd5([u8; 16], [u8; 16], &'a str),
    /// `failed card altered sha1 LISTED READ PATH`.
    FailedCardAlteredSha1([u8; 20], [u8; 20], &'a str),
    /// `failed card altered xxhash64be LISTED READ PATH`.
    FailedCardAlteredXxhash64be([u8; 8], [u8; 8], &'a str),
    /// `failed drive`: a call on the drive failed.
    FailedDrive,
    /// `jobfailed J card`: a call on the card of a job failed.
    JobfailedCard(u32),
    /// `jobfailed J changed LISTED READ PATH`.
    JobfailedChanged(u32, u64, u64, &'a str),
    /// `jobfailed J altered md5 LISTED READ PATH`.
    JobfailedAlteredMd5(u32, [u8; 16], [u8; 16], &'a str),
    /// `jobfailed J altered sha1 LISTED READ PATH`.
    JobfailedAlteredSha1(u32, [u8; 20], [u8; 20], &'a str),
    /// `jobfailed J altered xxhash64be LISTED READ PATH`.
    JobfailedAlteredXxhash64be(u32, [u8; 8], [u8; 8], &'a str),
    /// `refused words`: the words fit no command.
    RefusedWords,
    /// `refused emptycard`: there is no file to copy.
    RefusedEmptycard,
    /// `refused toomanyfiles COUNT`.
    RefusedToomanyfiles(u64),
    /// `refused toomanybytes SUM`: the paths have too many bytes.
    RefusedToomanybytes(u64),
    /// `refused badpath INDEX CAUSE`: why the name of a listed file is no path, which is not want of memory.
    RefusedBadpath(u64, &'a PathError),
    /// `refused baddate PATH`: the file was changed after the year 9999.
    RefusedBaddate(&'a str),
    /// `refused control PATH`: a path of the control folder.
    RefusedControl(&'a str),
    /// `refused toobig PATH`.
    RefusedToobig(&'a str),
    /// `refused clash PATH`: it and the path of the next line stand in each other's way.
    RefusedClash(&'a str),
    /// `with PATH`: the second path of a clash.
    With(&'a str),
    /// `refused unsealed PATH`: the entry of the source's list says too little, or is of the list itself.
    RefusedUnsealed(&'a str),
    /// `refused sourcemissing PATH`: the source has no such file.
    RefusedSourcemissing(&'a str),
    /// `refused sourcesize LISTED FOUND PATH`.
    RefusedSourcesize(u64, u64, &'a str),
    /// `refused otherlist LIST`: the offload on the drives was not begun from this list.
    RefusedOtherlist(&'a str),
    /// `refused noroom PATH`: the first file that fits on no drive.
    RefusedNoroom(&'a str),
    /// `refused begun D`: an offload was begun on the drive.
    RefusedBegun(u32),
    /// `refused notajournal D AT`: the bytes of the journal hold none, by the place AT.
    RefusedNotajournal(u32, u64),
    /// `refused occupied D PATH`: something on the drive stands in the way of the path.
    RefusedOccupied(u32, &'a str),
    /// `refused nothingbegun`: no drive has a journal.
    RefusedNothingbegun,
    /// `refused plandiffers A B AT`: the first place where the codes of the plans on two drives differ.
    RefusedPlandiffers(u32, u32, u64),
    /// `refused carddiffers AT`: the first file of the card that is not as the plan says, from 0.
    RefusedCarddiffers(u64),
    /// `refused journalfalse D absent PATH`: a recorded file is not there.
    RefusedJournalfalseAbsent(u32, &'a str),
    /// `refused journalfalse D length RECORDED READ PATH`.
    RefusedJournalfalseLength(u32, u64, u64, &'a str),
    /// `refused journalfalse D altered RECORDED READ PATH`.
    RefusedJournalfalseAltered(u32, &'a Triple, &'a Triple, &'a str),
    /// `refused spandiffers D`: the plan on the drive is not of the same span.
    RefusedSpandiffers(u32),
    /// `missing PATH`: a listed file is not there.
    Missing(&'a str),
    /// `unchecked PATH`: the list has no digest of the file that is checked.
    Unchecked(&'a str),
    /// `unlisted PATH`: the list does not name a file that is there.
    Unlisted(&'a str),
    /// `altered size LISTED FOUND PATH`.
    AlteredSize(u64, u64, &'a str),
    /// `altered md5 LISTED FOUND PATH`.
    AlteredMd5([u8; 16], [u8; 16], &'a str),
    /// `altered sha1 LISTED FOUND PATH`.
    AlteredSha1([u8; 20], [u8; 20], &'a str),
    /// `altered xxhash64be LISTED FOUND PATH`.
    AlteredXxhash64be([u8; 8], [u8; 8], &'a str),
    /// `verdict V E entries M missing A altered U unchecked X unlisted`, V being `good`, `bad` or `unchecked`.
    Verdict(&'a str, u64, u64, u64, u64, u64),
    /// `unreadable absent`: the list is not there.
    UnreadableAbsent,
    /// `unreadable toolarge LEN`.
    UnreadableToolarge(u64),
    /// `unreadable version`: the version of the list does not begin with `1.`.
    UnreadableVersion,
    /// `unreadable WHAT AT`: the fault of the list, and its place.
    Unreadable(&'a str, u64),
    /// `name NAME`, of a printed list; in this and the next lines `-` stands for what is absent.
    Name(Option<&'a str>),
    /// `username USER`.
    Username(Option<&'a str>),
    /// `hostname HOST`.
    Hostname(Option<&'a str>),
    /// `tool TOOL`.
    Tool(Option<&'a str>),
    /// `startdate MOMENT`.
    Startdate(Option<Moment>),
    /// `finishdate MOMENT`.
    Finishdate(Option<Moment>),
    /// An entry of a printed list: its size, its modification date, its MD5, SHA-1 and XXH64, its path.
    Entry(
        Option<u64>,
        Option<Moment>,
        Option<[u8; 16]>,
        Option<[u8; 20]>,
        Option<[u8; 8]>,
        &'a str,
    ),
    /// `entries E`: how many entries a printed list has.
    Entries(u64),
    /// `memory`: memory was wanting.
    Memory,
}

/// The line that is said where memory was wanting, for a caller that has no scratch.
pub fn memory_line() -> &'static [u8]
    ensures { result.now ≡ line_text Memory }
{
    b"memory"
}

/// Leaves the text of a line in `out`, without its line feed (docs/FORMATS.md, "Lines"). Each text in the line has at most
/// 1,024 bytes, and a cause is not want of memory. No line has more than 2,048 bytes.
pub fn line_into(line: &Line<'_>, out: &mut Scratch)
    requires { IsSayable line.now }
    ensures text { out.new ≡ line_text line.now }
    ensures short { length out.new ≤ 2048 }
{
    if run_line(line, out)
        || loss_line(line, out)
        || failure_line(line, out)
        || refusal_line(line, out)
        || standing_line(line, out)
        || table_line(line, out)
    {
        return;
    }
    report_line(line, out);
}
