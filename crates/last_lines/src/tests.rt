// The end of a run for want of memory, over a bay in memory.
use crate::say_memory;
use bay_core::Event;
use bay_mem::MemBay;
use std::alloc::Global;
use std::test::Fail;

// The lines of a bay in their order, each ended by a line feed, after `-` where it could not be said, and a status.
fn told(alloc: Global, bay: &MemBay, status: u8) -> Result<String, Fail> {
    let mut text = String::new(alloc);
    for event in bay.events() {
        if let Event::Say { line, ok } = event {
            text.push_str(if *ok { "" } else { "-" })?;
            text.push_str(str::from_utf8(line.as_slice())?)?;
            text.push('\n')?;
        }
    }
    let status = format!(in alloc; "{status}")?;
    text.push_str(&status)?;
    Ok(text)
}

#[test]
fn want_of_memory_ends_a_run(rt: HostRuntime) -> Result<(), Fail> {
    let alloc = rt.alloc();
    for (n, wanted) in [(0, "memory\n9"), (1, "-memory\n5")] {
        let mut bay = MemBay::new(alloc);
        if n > 0 {
            bay.fail_call(n)?;
        }
        let status = say_memory(&mut bay);
        assert_eq!(rt; told(alloc, &bay, status)?.as_str(), wanted);
    }
    Ok(())
}
