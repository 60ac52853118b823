// Each form of line with its text, as docs/FORMATS.md gives it.
ghost use Rattle.std.specs.Prelude.{◌≤◌, length};
ghost use Rattle.report_text.specs.Line.{IsSayable};

use crate::{Line, line_into, memory_line};
use digest_set::Triple;
use path_text::{PathError, Scratch};
use std::process::Abort;
use std::test::Fail;

// The digests of `abc` and of the empty text: RFC 1321, FIPS 180-4, the xxHash specification.
const ABC: [u8; 16] = [
    0x90, 0x01, 0x50, 0x98, 0x3c, 0xd2, 0x4f, 0xb0, 0xd6, 0x96, 0x3f, 0x7d, 0x28, 0xe1, 0x7f, 0x72,
];

const ABC_SHA1: [u8; 20] = [
    0xa9, 0x99, 0x3e, 0x36, 0x47, 0x06, 0x81, 0x6a, 0xba, 0x3e, 0x25, 0x71, 0x78, 0x50, 0xc2, 0x6c,
    0x9c, 0xd0, 0xd8, 0x9d,
];

const EMPTY: [u8; 16] = [
    0xd4, 0x1d, 0x8c, 0xd9, 0x8f, 0x00, 0xb2, 0x04, 0xe9, 0x80, 0x09, 0x98, 0xec, 0xf8, 0x42, 0x7e,
];

const EMPTY_SHA1: [u8; 20] = [
    0xda, 0x39, 0xa3, 0xee, 0x5e, 0x6b, 0x4b, 0x0d, 0x32, 0x55, 0xbf, 0xef, 0x95, 0x60, 0x18, 0x90,
    0xaf, 0xd8, 0x07, 0x09,
];

const EMPTY_XXH: [u8; 8] = [0xef, 0x46, 0xdb, 0x37, 0x51, 0xd8, 0xe9, 0x99];

fn says(rt: &impl Abort, out: &mut Scratch, line: &Line<'_>, text: &str)
    requires { IsSayable line.now }
{
    line_into(line, out);
    assert_eq!(rt; out.bytes(), text.as_bytes(), "at {text:?}");
}

fn says_the_lines_of_a_run(rt: &impl Abort, out: &mut Scratch) {
    says(rt, out, &Line::Begun(0, 1, 2), "begun 0 1 2");
    says(
        rt,
        out,
        &Line::Done(7, 1, 262_144, "a b.mov"),
        "done 7 1 262144 a b.mov",
    );
    says(
        rt,
        out,
        &Line::Sealed(1, 2, "A001_2014-10-24_120000.mhl"),
        "sealed 1 2 A001_2014-10-24_120000.mhl",
    );
    says(rt, out, &Line::Clear(3, 2), "clear 3 2");
    says(rt, out, &Line::Unused(1), "unused 1");
    says(rt, out, &Line::Repaired("a.mov"), "repaired a.mov");
    says(rt, out, &Line::Unrepaired("a.mov"), "unrepaired a.mov");
    says(
        rt,
        out,
        &Line::RepairRepairedUnrepaired(1, 0),
        "repair 1 repaired 0 unrepaired",
    );
    says(rt, out, &Line::InJob(3), "in job 3");
    says(rt, out, &Line::Jobclear(1, 2, 1), "jobclear 1 2 1");
}

fn says_the_summary_of_a_rehearsal(rt: &impl Abort, out: &mut Scratch) {
    says(rt, out, &Line::Rehearse(7, 200), "rehearse 7 200");
    says(rt, out, &Line::Bytes(13_679_662), "bytes 13679662");
    says(
        rt,
        out,
        &Line::DriveSealedGood(0, "REHEARSE_2014-10-24_120000.mhl"),
        "drive 0 sealed REHEARSE_2014-10-24_120000.mhl good",
    );
}

fn says_what_was_lost(rt: &impl Abort, out: &mut Scratch) {
    says(rt, out, &Line::DroppedFault(1), "dropped 1 fault");
    says(
        rt,
        out,
        &Line::DroppedAbsent(0, "a.mov"),
        "dropped 0 absent a.mov",
    );
    says(
        rt,
        out,
        &Line::DroppedLength(0, 3, 2, "a.mov"),
        "dropped 0 length 3 2 a.mov",
    );
    says(
        rt,
        out,
        &Line::DroppedByte(0, 0, 60, 61, "A001_2014-10-24_120000.mhl"),
        "dropped 0 byte 0 60 61 A001_2014-10-24_120000.mhl",
    );
    says(
        rt,
        out,
        &Line::FailedListAbsent("l.mhl"),
        "failed list absent l.mhl",
    );
    says(
        rt,
        out,
        &Line::FailedListLength(9, 8, "l.mhl"),
        "failed list length 9 8 l.mhl",
    );
    says(
        rt,
        out,
        &Line::FailedListByte(5, 60, 0, "l.mhl"),
        "failed list byte 5 60 0 l.mhl",
    );
    says(rt, out, &Line::FailedGone("g.mov"), "failed gone g.mov");
    says(
        rt,
        out,
        &Line::FailedLength(4, 3, "a.mov"),
        "failed length 4 3 a.mov",
    );
}

fn says_what_failed(rt: &impl Abort, out: &mut Scratch) {
    says(rt, out, &Line::FailedAttachCard, "failed attach card");
    says(
        rt,
        out,
        &Line::FailedAttachDrive(0),
        "failed attach drive 0",
    );
    says(rt, out, &Line::FailedCard, "failed card");
    says(
        rt,
        out,
        &Line::FailedCardChanged(4, 3, "a.mov"),
        "failed card changed 4 3 a.mov",
    );
    says(
        rt,
        out,
        &Line::FailedCardAlteredMd5(ABC, EMPTY, "a.mov"),
        "failed card altered md5 900150983cd24fb0d6963f7d28e17f72 d41d8cd98f00b204e9800998ecf8427e a.mov",
    );
    says(
        rt,
        out,
        &Line::FailedCardAlteredSha1(ABC_SHA1, EMPTY_SHA1, "a.mov"),
        "failed card altered sha1 a9993e364706816aba3e25717850c26c9cd0d89d da39a3ee5e6b4b0d3255bfef95601890afd80709 a.mov",
    );
    says(
        rt,
        out,
        &Line::FailedCardAlteredXxhash64be(EMPTY_XXH, [0; 8], "a.mov"),
        "failed card altered xxhash64be ef46db3751d8e999 0000000000000000 a.mov",
    );
    says(rt, out, &Line::FailedDrive, "failed drive");
    says(rt, out, &Line::JobfailedCard(1), "jobfailed 1 card");
    says(
        rt,
        out,
        &Line::JobfailedChanged(1, 4, 3, "a.mov"),
        "jobfailed 1 changed 4 3 a.mov",
    );
    says(
        rt,
        out,
        &Line::JobfailedAlteredMd5(2, ABC, EMPTY, "a.mov"),
        "jobfailed 2 altered md5 900150983cd24fb0d6963f7d28e17f72 d41d8cd98f00b204e9800998ecf8427e a.mov",
    );
    says(
        rt,
        out,
        &Line::JobfailedAlteredSha1(2, ABC_SHA1, EMPTY_SHA1, "a.mov"),
        "jobfailed 2 altered sha1 a9993e364706816aba3e25717850c26c9cd0d89d da39a3ee5e6b4b0d3255bfef95601890afd80709 a.mov",
    );
    says(
        rt,
        out,
        &Line::JobfailedAlteredXxhash64be(2, EMPTY_XXH, [0; 8], "a.mov"),
        "jobfailed 2 altered xxhash64be ef46db3751d8e999 0000000000000000 a.mov",
    );
}

fn refuses_cards(rt: &impl Abort, out: &mut Scratch) {
    says(rt, out, &Line::RefusedWords, "refused words");
    says(rt, out, &Line::RefusedEmptycard, "refused emptycard");
    says(
        rt,
        out,
        &Line::RefusedToomanyfiles(262_145),
        "refused toomanyfiles 262145",
    );
    says(
        rt,
        out,
        &Line::RefusedToomanybytes(33_554_433),
        "refused toomanybytes 33554433",
    );
    says(
        rt,
        out,
        &Line::RefusedBaddate("a.mov"),
        "refused baddate a.mov",
    );
    says(
        rt,
        out,
        &Line::RefusedControl(".mhlstation/journal"),
        "refused control .mhlstation/journal",
    );
    says(
        rt,
        out,
        &Line::RefusedToobig("a.mov"),
        "refused toobig a.mov",
    );
    says(rt, out, &Line::RefusedClash("a"), "refused clash a");
    says(rt, out, &Line::With("a/b"), "with a/b");
    says(
        rt,
        out,
        &Line::RefusedUnsealed("a.mov"),
        "refused unsealed a.mov",
    );
    says(
        rt,
        out,
        &Line::RefusedSourcemissing("a.mov"),
        "refused sourcemissing a.mov",
    );
    says(
        rt,
        out,
        &Line::RefusedSourcesize(3, 2, "a.mov"),
        "refused sourcesize 3 2 a.mov",
    );
    says(
        rt,
        out,
        &Line::RefusedOtherlist("l.mhl"),
        "refused otherlist l.mhl",
    );
    says(rt, out, &Line::RefusedNoroom("c"), "refused noroom c");
}

fn refuses_names_by_their_causes(rt: &impl Abort, out: &mut Scratch) {
    says(
        rt,
        out,
        &Line::RefusedBadpath(0, &PathError::Empty),
        "refused badpath 0 empty",
    );
    says(
        rt,
        out,
        &Line::RefusedBadpath(1, &PathError::TooLong { len: 1_025 }),
        "refused badpath 1 toolong 1025",
    );
    says(
        rt,
        out,
        &Line::RefusedBadpath(2, &PathError::Absolute),
        "refused badpath 2 absolute",
    );
    says(
        rt,
        out,
        &Line::RefusedBadpath(0, &PathError::BadChar { at: 1 }),
        "refused badpath 0 badchar 1",
    );
    says(
        rt,
        out,
        &Line::RefusedBadpath(3, &PathError::EmptyPart { at: 2 }),
        "refused badpath 3 emptypart 2",
    );
    says(
        rt,
        out,
        &Line::RefusedBadpath(4, &PathError::DotPart { at: 2 }),
        "refused badpath 4 dotpart 2",
    );
}

fn refuses_drives(rt: &impl Abort, out: &mut Scratch) {
    says(rt, out, &Line::RefusedBegun(0), "refused begun 0");
    says(
        rt,
        out,
        &Line::RefusedNotajournal(0, 59),
        "refused notajournal 0 59",
    );
    says(
        rt,
        out,
        &Line::RefusedOccupied(1, "a.mov"),
        "refused occupied 1 a.mov",
    );
    says(rt, out, &Line::RefusedNothingbegun, "refused nothingbegun");
    says(
        rt,
        out,
        &Line::RefusedPlandiffers(0, 1, 15),
        "refused plandiffers 0 1 15",
    );
    says(
        rt,
        out,
        &Line::RefusedCarddiffers(0),
        "refused carddiffers 0",
    );
    says(
        rt,
        out,
        &Line::RefusedJournalfalseAbsent(0, "a.mov"),
        "refused journalfalse 0 absent a.mov",
    );
    says(
        rt,
        out,
        &Line::RefusedJournalfalseLength(0, 3, 4, "a.mov"),
        "refused journalfalse 0 length 3 4 a.mov",
    );
    says(
        rt,
        out,
        &Line::RefusedSpandiffers(2),
        "refused spandiffers 2",
    );
}

fn says_the_lines_of_a_verification(rt: &impl Abort, out: &mut Scratch) {
    says(rt, out, &Line::Missing("a.mov"), "missing a.mov");
    says(rt, out, &Line::Unchecked("b c.mov"), "unchecked b c.mov");
    says(
        rt,
        out,
        &Line::Unlisted("Clips/d.mov"),
        "unlisted Clips/d.mov",
    );
    says(
        rt,
        out,
        &Line::AlteredSize(3, 0, "a.mov"),
        "altered size 3 0 a.mov",
    );
    says(
        rt,
        out,
        &Line::AlteredMd5(ABC, EMPTY, "s.mov"),
        "altered md5 900150983cd24fb0d6963f7d28e17f72 d41d8cd98f00b204e9800998ecf8427e s.mov",
    );
    says(
        rt,
        out,
        &Line::AlteredSha1(ABC_SHA1, EMPTY_SHA1, "t.mov"),
        "altered sha1 a9993e364706816aba3e25717850c26c9cd0d89d da39a3ee5e6b4b0d3255bfef95601890afd80709 t.mov",
    );
    says(
        rt,
        out,
        &Line::AlteredXxhash64be(EMPTY_XXH, [0; 8], "u.mov"),
        "altered xxhash64be ef46db3751d8e999 0000000000000000 u.mov",
    );
    says(
        rt,
        out,
        &Line::Verdict("good", 1, 0, 0, 0, 0),
        "verdict good 1 entries 0 missing 0 altered 0 unchecked 0 unlisted",
    );
    says(
        rt,
        out,
        &Line::Verdict("bad", 18_446_744_073_709_551_615, 1, 2, 30, 405),
        "verdict bad 18446744073709551615 entries 1 missing 2 altered 30 unchecked 405 unlisted",
    );
    says(
        rt,
        out,
        &Line::Verdict("unchecked", 2, 0, 0, 1, 0),
        "verdict unchecked 2 entries 0 missing 0 altered 1 unchecked 0 unlisted",
    );
}

fn says_why_a_list_is_unreadable(rt: &impl Abort, out: &mut Scratch) {
    says(rt, out, &Line::UnreadableAbsent, "unreadable absent");
    says(
        rt,
        out,
        &Line::UnreadableToolarge(536_870_913),
        "unreadable toolarge 536870913",
    );
    says(rt, out, &Line::UnreadableVersion, "unreadable version");
    says(rt, out, &Line::Memory, "memory");
    assert_eq!(rt; memory_line(), b"memory".as_slice());
}

fn says_the_faults_of_a_list(rt: &impl Abort, out: &mut Scratch) {
    says(
        rt,
        out,
        &Line::Unreadable("notutf8", 3),
        "unreadable notutf8 3",
    );
    says(
        rt,
        out,
        &Line::Unreadable("malformed", 24),
        "unreadable malformed 24",
    );
    says(
        rt,
        out,
        &Line::Unreadable("doctype", 0),
        "unreadable doctype 0",
    );
    says(
        rt,
        out,
        &Line::Unreadable("cdata", 24),
        "unreadable cdata 24",
    );
    says(
        rt,
        out,
        &Line::Unreadable("nofile", 24),
        "unreadable nofile 24",
    );
    says(
        rt,
        out,
        &Line::Unreadable("twice", 57),
        "unreadable twice 57",
    );
    says(
        rt,
        out,
        &Line::Unreadable("badpath", 30),
        "unreadable badpath 30",
    );
    says(
        rt,
        out,
        &Line::Unreadable("badsize", 30),
        "unreadable badsize 30",
    );
    says(
        rt,
        out,
        &Line::Unreadable("baddigest", 30),
        "unreadable baddigest 30",
    );
    says(
        rt,
        out,
        &Line::Unreadable("toomany", 18_446_744_073_709_551_615),
        "unreadable toomany 18446744073709551615",
    );
}

fn says_other_digests<'a>(
    rt: &impl Abort,
    out: &mut Scratch,
    recorded: &'a Triple,
    read: &'a Triple,
    path: &'a str,
)
    requires { length path.now ≤ 1024 }
{
    says(
        rt,
        out,
        &Line::DroppedAltered(0, recorded, read, path),
        "dropped 0 altered 900150983cd24fb0d6963f7d28e17f72 a9993e364706816aba3e25717850c26c9cd0d89d 44bc2cf5ad770999 d41d8cd98f00b204e9800998ecf8427e da39a3ee5e6b4b0d3255bfef95601890afd80709 ef46db3751d8e999 a.mov",
    );
    says(
        rt,
        out,
        &Line::RefusedJournalfalseAltered(1, read, recorded, path),
        "refused journalfalse 1 altered d41d8cd98f00b204e9800998ecf8427e da39a3ee5e6b4b0d3255bfef95601890afd80709 ef46db3751d8e999 900150983cd24fb0d6963f7d28e17f72 a9993e364706816aba3e25717850c26c9cd0d89d 44bc2cf5ad770999 a.mov",
    );
}

#[test]
fn says_each_line(rt: HostRuntime) -> Result<(), Fail> {
    let mut out = Scratch::new(rt.alloc())?;
    let abc = Triple {
        md5: ABC,
        sha1: ABC_SHA1,
        xxh: [0x44, 0xbc, 0x2c, 0xf5, 0xad, 0x77, 0x09, 0x99],
    };
    let empty = Triple {
        md5: EMPTY,
        sha1: EMPTY_SHA1,
        xxh: EMPTY_XXH,
    };
    says_the_lines_of_a_run(&rt, &mut out);
    says_the_summary_of_a_rehearsal(&rt, &mut out);
    says_what_was_lost(&rt, &mut out);
    says_other_digests(&rt, &mut out, &abc, &empty, "a.mov");
    says_what_failed(&rt, &mut out);
    refuses_cards(&rt, &mut out);
    refuses_names_by_their_causes(&rt, &mut out);
    refuses_drives(&rt, &mut out);
    says_the_lines_of_a_verification(&rt, &mut out);
    says_why_a_list_is_unreadable(&rt, &mut out);
    says_the_faults_of_a_list(&rt, &mut out);
    Ok(())
}
