// Reading and writing over std's `Read` and `Write`: a call that a signal interrupts is made again, one that would block is made again
// after a wait, and a failure is told on standard error.
// No contract can say what is read and written there. What is made of the answers of `read` and `write` stands in functions of
// its own, each with a contract that says it exactly.
#![tactic(auto)]

mod answers;
mod failures;
pub mod file;
mod pause;
pub mod read;
pub mod told;
pub mod write;

// Why a call failed, by its errno.
#[derive(Clone, Copy, PartialEq, Eq)]
pub enum Failure {
    Interrupted,
    WouldBlock,
    Closed,
    Other,
}

// What a call of read comes to.
#[derive(Clone, Copy)]
pub enum Reading {
    Bytes(usize),
    End,
    Again,
    Wait,
    Failed,
}

// Why a file is not read whole, which was told on standard error: it has more bytes than there is room for, or a call failed.
#[derive(Clone, Copy)]
pub enum Unread {
    TooLong,
    Failed,
}

// What comes next for a text that is being written.
#[derive(Clone, Copy)]
pub enum Next {
    Go,
    Wait,
    Complete,
    Closed,
    Failed,
    Stuck,
}

// How many bytes of a text calls of write have reported written, and what comes next.
#[derive(Clone, Copy)]
pub struct Writing {
    pub done: usize,
    pub next: Next,
}
