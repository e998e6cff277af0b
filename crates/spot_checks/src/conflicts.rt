// Events that conflict, and events that do not.
use events::event::{Event, Operation};

fn by(thread: u16, operation: Operation) -> Event {
    Event { thread, operation }
}

#[test]
fn conflicts(rt: HostRuntime) {
    let write = by(0, Operation::Write(3));
    assert!(rt; write.conflicts_with(by(1, Operation::Read(3))));
    assert!(rt; write.conflicts_with(by(1, Operation::Write(3))));
    assert!(rt; by(1, Operation::Read(3)).conflicts_with(write));
    assert!(rt; !write.conflicts_with(by(0, Operation::Read(3))));
    assert!(rt; !write.conflicts_with(by(1, Operation::Read(2))));
    assert!(rt; !write.conflicts_with(by(1, Operation::Acquire(3))));
    assert!(rt; !by(1, Operation::Read(3)).conflicts_with(by(2, Operation::Read(3))));
}
