// Runs in which a call fails.
ghost use Rattle.std.specs.Prelude.{IfOk};
ghost use Rattle.offload_rows.specs.Bare.{IsBare};

use crate::bays::{Files, ONE, ONE_DRIVE, TWO, bare_bay, failure, told};
use bay_mem::MemBay;
use std::alloc::Global;
use std::test::Fail;

// A bay with this card and empty drives, in which these calls fail, counted over those that can.
fn failing_bay(alloc: Global, card: Files, calls: &[u64]) -> Result<MemBay, Fail>
    ensures { IfOk result IsBare }
{
    let mut bay = bare_bay(alloc, card)?;
    for call in calls {
        bay.fail_call(*call)?;
    }
    Ok(bay)
}

// What a run of these words tells in which these calls fail: the calls on the card and the drives that failed, each in
// brackets, the lines, and the status.
fn failing(alloc: Global, card: Files, line: &str, calls: &[u64]) -> Result<String, Fail> {
    let bay = failing_bay(alloc, card, calls)?;
    let (bay, told) = told(alloc, bay, line)?;
    let mut text = String::new(alloc);
    for event in bay.events() {
        if let Some((call, number)) = failure(event) {
            text.push_str(format!(in alloc; "[{call} {number}]\n")?.as_str())?;
        }
    }
    text.push_str(told.as_str())?;
    Ok(text)
}

// The second of three drives is lost by its block.
const SECOND_LOST: &str = "[write to drive 1]
begun 0 0 1
begun 1 0 1
begun 2 0 1
dropped 1 fault
done 0 1 1 a.mov
done 2 1 1 a.mov
sealed 0 1 A001_2014-10-24_120000.mhl
sealed 2 1 A001_2014-10-24_120000.mhl
";

#[test]
fn a_drive_is_lost_and_the_others_go_on(rt: HostRuntime) -> Result<(), Fail> {
    let alloc = rt.alloc();
    // The card and three drives are attached, the card and each drive is listed: 8 calls. Each drive is begun by 7 calls with
    // its line, and gets an empty piece: 32. The block is read, and written to the first drive; call 35 writes it to the
    // second.
    let rows = [("2", "clear 2 2\n"), ("3", "")];
    for (copies, clear) in rows {
        let words = format!(in alloc; "offload A001 ana@cart1 {copies} card d0 d1 d2")?;
        let wanted = format!(in alloc; "{SECOND_LOST}{clear}1")?;
        assert_eq!(rt;
            failing(alloc, ONE, words.as_str(), &[35])?.as_str(),
            wanted.as_str()
        );
    }
    Ok(())
}

// The first drive is lost in its look.
const FIRST_UNSEEN: &str = "[list of drive 0]
dropped 0 fault
begun 1 0 1
done 1 1 1 a.mov
sealed 1 1 A001_2014-10-24_120000.mhl
clear 1 1
1";

const NONE_SEEN: &str = "[list of drive 0]
[list of drive 1]
dropped 0 fault
dropped 1 fault
1";

const UNSEEN_UNSAID: &str = "[list of drive 0]
dropped 0 fault (not said)
5";

#[test]
fn a_drive_is_lost_in_its_look(rt: HostRuntime) -> Result<(), Fail> {
    let alloc = rt.alloc();
    // Call 5 lists the first drive, and call 6 the second; a line comes behind a call that failed.
    let rows: [(&[u64], &str); 3] = [
        (&[5], FIRST_UNSEEN),
        (&[5, 7], NONE_SEEN),
        (&[5, 6], UNSEEN_UNSAID),
    ];
    for (calls, wanted) in rows {
        let text = failing(alloc, ONE, "offload A001 ana@cart1 1 card d0 d1", calls)?;
        assert_eq!(rt; text.as_str(), wanted);
    }
    Ok(())
}

const TWO_DRIVES: &str = "offload A001 ana@cart1 2 card d0 d1";

#[test]
fn a_call_that_fails_has_its_status(rt: HostRuntime) -> Result<(), Fail> {
    let alloc = rt.alloc();
    // With one drive: the attaches, the two listings, 2 removals, and of the journal a write, a barrier (call 8), a rename and
    // a barrier; then the line (call 11); an empty piece; the card's block (call 13). Two drives are attached, looked at, and
    // the first is begun by 6 calls before its line. A line that is to say that a call failed is the call behind it.
    let rows: [(&str, &[u64], &str); 15] = [
        (ONE_DRIVE, &[1], "failed attach card\n4"),
        (ONE_DRIVE, &[2], "failed attach drive 0\n4"),
        (ONE_DRIVE, &[3], "[list of card 0]\nfailed card\n4"),
        (
            ONE_DRIVE,
            &[3, 4],
            "[list of card 0]\nfailed card (not said)\n5",
        ),
        (ONE_DRIVE, &[4], "[list of drive 0]\ndropped 0 fault\n1"),
        (ONE_DRIVE, &[5], "[removal on drive 0]\ndropped 0 fault\n1"),
        (ONE_DRIVE, &[7], "[write to drive 0]\ndropped 0 fault\n1"),
        (ONE_DRIVE, &[8], "[sync of drive 0]\ndropped 0 fault\n1"),
        (ONE_DRIVE, &[9], "[rename on drive 0]\ndropped 0 fault\n1"),
        (ONE_DRIVE, &[11], "begun 0 0 2 (not said)\n5"),
        (
            ONE_DRIVE,
            &[13],
            "[read of card 0]\nbegun 0 0 2\nfailed card\n4",
        ),
        (
            ONE_DRIVE,
            &[13, 14],
            "[read of card 0]\nbegun 0 0 2\nfailed card (not said)\n5",
        ),
        (TWO_DRIVES, &[3], "failed attach drive 1\n4"),
        (TWO_DRIVES, &[13], "begun 0 0 2 (not said)\n5"),
        (TWO_DRIVES, &[1, 2], "failed attach card (not said)\n5"),
    ];
    for (words, calls, wanted) in rows {
        assert_eq!(rt; failing(alloc, TWO, words, calls)?.as_str(), wanted);
    }
    Ok(())
}

#[test]
fn a_folder_that_is_not_there_is_not_attached(rt: HostRuntime) -> Result<(), Fail> {
    let alloc = rt.alloc();
    let rows = [
        (
            "offload A001 ana@cart1 1 card d9",
            "failed attach drive 0\n4",
        ),
        (
            "offload A001 ana@cart1 1 card d0 d9",
            "failed attach drive 1\n4",
        ),
        ("offload A001 ana@cart1 1 d9 d0", "failed attach card\n4"),
    ];
    for (words, wanted) in rows {
        assert_eq!(rt; failing(alloc, TWO, words, &[])?.as_str(), wanted);
    }
    Ok(())
}
