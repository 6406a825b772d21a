// Writing: a call that a signal interrupts is made again, one that would block is made again after a wait, and one that
// takes a part only is followed by one on the rest.
ghost use Rattle.std.specs.Prelude.{◌≡◌, ◌-◌, ◌≤◌, length};
ghost use Rattle.descriptors.specs.Io.{Moved};
ghost use Rattle.descriptors.specs.Writes.{next_after, next_at, goes_on_lem, is_complete, write_start, write_step, Reached};

use crate::answers::answer_of;
use crate::pause::pause;
use crate::told::{Tell, tell_failure};
use crate::{Failure, Next, Writing};
use std::io;
use std::io::Write;
use std::rt::Clock;

// A text before the first call: one without a byte needs none.
#[tactic(auto, unfolding(crate::specs::Writes::write_start))]
fn write_start(length: usize) -> Writing
    ensures { result ≡ write_start length }
{
    let next = if length == 0 {
        Next::Complete
    } else {
        Next::Go
    };
    Writing { done: 0, next }
}

// What comes after a call that failed.
fn next_after(failure: Failure) -> Next
    ensures { result ≡ next_after failure }
{
    match failure {
        Failure::Interrupted => Next::Go,
        Failure::WouldBlock => Next::Wait,
        Failure::Closed => Next::Closed,
        Failure::Other => Next::Failed,
    }
}

// What comes after a call that moved the text's written part from one length to another.
#[tactic(auto, unfolding(crate::specs::Writes::next_at))]
fn next_at(length: usize, before: usize, after: usize) -> Next
    ensures { result ≡ next_at length before after }
{
    if after == before {
        Next::Stuck
    } else if after < length {
        Next::Go
    } else {
        Next::Complete
    }
}

// What a call of write on the bytes that are not yet done comes to, by its answer.
#[tactic(auto, unfolding(crate::specs::Writes::write_step))]
fn write_step(length: usize, state: Writing, answer: Result<usize, i32>) -> Writing
    requires done_in_bounds { state.done ≤ length }
    requires moved { Moved (length - state.done) answer }
    ensures { result ≡ write_step length state.done answer }
{
    match answer {
        Ok(n) => {
            let done = state.done + n;
            Writing {
                done,
                next: next_at(length, state.done, done),
            }
        }
        Err(errno) => Writing {
            next: next_after(Failure::from(errno)),
            ..state
        },
    }
}

// Whether a call is to be made.
fn goes_on(next: Next) -> bool
    ensures { result ≡ goes_on_lem next }
{
    matches!(next, Next::Go | Next::Wait)
}

// Whether all is written.
pub fn is_complete(next: Next) -> bool
    ensures { result ≡ is_complete next }
{
    matches!(next, Next::Complete)
}

// Waits where a write would block, and tells one that failed. A closed output is not told.
fn attend<H: Clock + Tell>(rt: &H, next: Next, returned: &io::Result<usize>) {
    match next {
        Next::Go | Next::Complete | Next::Closed => {}
        Next::Wait => pause(rt),
        Next::Failed => tell_failure(rt, b"write", returned),
        Next::Stuck => rt.tell(b"write: nothing was taken\n"),
    }
}

// Writes a text, until all of it is reported written or a call fails, which is told on standard error.
// A proved loop has to end, so it counts to a number that no run comes to.
pub fn send<H: Clock + Tell, W: Write>(rt: &H, output: &mut W, text: &[u8]) -> Writing
    ensures { Reached (length text.now) result }
{
    let mut state = write_start(text.len());
    for _ in 0..u64::MAX {
        if !goes_on(state.next) {
            return state;
        }
        let from = state.done;
        let returned = output.write(&text[from..]);
        state = write_step(text.len(), state, answer_of(&returned));
        attend(rt, state.next, &returned);
    }
    state
}
