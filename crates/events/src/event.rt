// What a recording is made of. Threads, locks and variables count from 0.

// What a thread did: it read or wrote a variable, or acquired or released a lock.
#[derive(Clone, Copy, PartialEq, Eq, Debug)]
pub enum Operation {
    Read(u16),
    Write(u16),
    Acquire(u16),
    Release(u16),
}

#[derive(Clone, Copy, PartialEq, Eq, Debug)]
pub struct Event {
    pub thread: u16,
    pub operation: Operation,
}
