// Texts as scripts have them, where there is memory for them.
use clock_bank::fault::BankFault;
use events::event::{Event, Operation};
use notebook::fault::NotebookFault;
use run_script::lists::{listed, time_text};
use run_script::words::next_event;
use std::test::Fail;

#[test]
fn lists(rt: HostRuntime) -> Result<(), Fail> {
    let heap = rt.alloc();
    let pairs = vec![in heap;
        String::from_str(heap, "0-1")?,
        String::from_str(heap, "0-2")?,
    ]?;
    assert_eq!(rt; listed(heap, &pairs)?.as_str(), "0-1 0-2");
    assert_eq!(rt; listed(heap, &pairs[1..])?.as_str(), "0-2");
    assert_eq!(rt; listed(heap, &pairs[2..])?.as_str(), "none");
    Ok(())
}

#[test]
fn times(rt: HostRuntime) -> Result<(), Fail> {
    let heap = rt.alloc();
    assert_eq!(rt; time_text(heap, &[1, 0, 65535])?.as_str(), "(1,0,65535)");
    assert_eq!(rt; time_text(heap, &[7])?.as_str(), "(7)");
    Ok(())
}

#[test]
fn reasons(rt: HostRuntime) -> Result<(), Fail> {
    let heap = rt.alloc();
    let fault = NotebookFault::Bank(BankFault::NoSlot);
    assert_eq!(rt; fault.to_string(heap)?.as_str(), "no slot has that number");
    assert_eq!(rt; fault.number(), 5);
    Ok(())
}

#[test]
fn bad_numbers(rt: HostRuntime) -> Result<(), Fail> {
    let heap = rt.alloc();
    let cases = [
        ("t65536 read v0", "number too large to fit in target type"),
        ("t0 read vx", "invalid digit found in string"),
        ("t0 read v", "cannot parse integer from empty string"),
        ("t0 read l0", "a thread, lock or variable is expected"),
    ];
    for (line, reason) in cases {
        let text = match next_event(&mut line.split_whitespace()) {
            Ok(_) => String::new(heap),
            Err(fault) => fault.to_string(heap)?,
        };
        assert_eq!(rt; text.as_str(), reason);
    }
    Ok(())
}

// What an event prints is read back as that event, and nothing of it is left.
#[test]
fn events_read_back(rt: HostRuntime) -> Result<(), Fail> {
    let heap = rt.alloc();
    let operations = [
        Operation::Read(0),
        Operation::Write(10),
        Operation::Acquire(255),
        Operation::Release(65535),
    ];
    for (thread, operation) in [0, 9, 31, 65535].into_iter().zip(operations) {
        let event = Event { thread, operation };
        let text = event.to_string(heap)?;
        let mut words = text.as_str().split_whitespace();
        assert!(rt; next_event(&mut words) == Ok(event));
        assert!(rt; words.next().is_none());
    }
    Ok(())
}
