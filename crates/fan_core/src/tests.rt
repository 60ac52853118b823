ghost use Rattle.std.specs.Prelude.{◌≡◌, true};
ghost use Rattle.fan_core.specs.Flags.{has};

use crate::{Act, Drives, Window};
use std::process::Abort;

#[test]
fn drives_are_a_set_of_numbers(rt: HostRuntime) {
    let none = Drives::none();
    let two = none.with(7).with(3).with(3);
    let table = [
        (none, 0, None),
        (two, 2, Some(3)),
        (two.without(3), 1, Some(7)),
        (two.without(8), 2, Some(3)),
        (two.without(7).without(3), 0, None),
    ];
    for (drives, count, lowest) in table {
        assert_eq!(rt; drives.count(), count);
        assert_eq!(rt; drives.lowest(), lowest);
    }
    for (d, is_there) in [
        (0, false),
        (3, true),
        (7, true),
        (8, false),
        (u32::MAX, false),
    ] {
        assert_eq!(rt; two.has(d), is_there, "at {d}");
    }
}

// The drives 0, 1 and 2.
fn three() -> Drives
    ensures { has result 0 ≡ true }
{
    Drives::none().with(2).with(1).with(0)
}

// Does what the window says with pick 0, and notes it.
fn step(window: &mut Window) -> Act
    requires { has window.old.counts.live 0 ≡ true }
    ensures { window.new.counts.live ≡ window.old.counts.live }
{
    let act = window.next(0);
    match act {
        Act::Read => window.done_read(),
        Act::Write { d, .. } => window.done_write(d),
        Act::Finished => {}
    }
    act
}

// The blocks from the first to before the end are read, each written by drive 0 at once.
fn fill(rt: &impl Abort, window: &mut Window, first: u64, end: u64)
    requires { has window.old.counts.live 0 ≡ true }
    ensures { window.new.counts.live ≡ window.old.counts.live }
{
    for block in first..end {
        assert_eq!(rt; step(window), Act::Read);
        assert_eq!(rt; step(window), Act::Write { d: 0, block });
    }
}

// Drive 1 writes the blocks from the first to before the end.
fn follow(rt: &impl Abort, window: &mut Window, first: u64, end: u64)
    requires { has window.old.counts.live 0 ≡ true }
    ensures { window.new.counts.live ≡ window.old.counts.live }
{
    for block in first..end {
        assert_eq!(rt; step(window), Act::Write { d: 1, block });
    }
}

#[test]
fn forty_blocks_over_three_drives(rt: HostRuntime) {
    let mut window = Window::new(three(), 40, 16);
    fill(&rt, &mut window, 0, 16);
    follow(&rt, &mut window, 0, 16);
    let acts = [
        Act::Write { d: 2, block: 0 },
        Act::Read,
        Act::Write { d: 0, block: 16 },
        Act::Write { d: 1, block: 16 },
        Act::Write { d: 2, block: 1 },
        Act::Read,
    ];
    for act in acts {
        assert_eq!(rt; step(&mut window), act);
    }
    assert_eq!(rt; window.read_count(), 18);
    assert_eq!(rt; window.written(2), 2);
    assert_eq!(rt; window.held(), 16);
    assert_eq!(rt; window.slots(), 16);
}

#[test]
fn a_dropped_drive_frees_the_window(rt: HostRuntime) {
    let mut window = Window::new(three(), 40, 16);
    fill(&rt, &mut window, 0, 16);
    follow(&rt, &mut window, 0, 16);
    assert_eq!(rt; window.next(0), Act::Write { d: 2, block: 0 });
    window.drop_drive(2);
    assert_eq!(rt; window.held(), 0);
    fill(&rt, &mut window, 16, 32);
    for block in 16..24 {
        follow(&rt, &mut window, block, block + 1);
        fill(&rt, &mut window, block + 16, block + 17);
    }
    follow(&rt, &mut window, 24, 40);
    assert_eq!(rt; window.next(0), Act::Finished);
    assert_eq!(rt; window.live().count(), 2);
}
