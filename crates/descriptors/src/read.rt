// Reading: a call that a signal interrupts is made again, and one that would block is made again after a wait.
ghost use Rattle.std.specs.Prelude.{◌≡◌};
ghost use Rattle.descriptors.specs.Reads.{read_after, read_step, read_again_lem, bytes_read, ReadWithin};

use crate::answers::answer_of;
use crate::pause::pause;
use crate::told::{Tell, tell_failure};
use crate::{Failure, Reading};
use std::io;
use std::io::Read;
use std::rt::Clock;

// What a failed call of read comes to.
fn read_after(failure: Failure) -> Reading
    ensures { result ≡ read_after failure }
{
    match failure {
        Failure::Interrupted => Reading::Again,
        Failure::WouldBlock => Reading::Wait,
        Failure::Closed | Failure::Other => Reading::Failed,
    }
}

// What a call of read comes to, by its answer.
#[tactic(auto, unfolding(crate::specs::Reads::read_step))]
fn read_step(answer: Result<usize, i32>) -> Reading
    ensures { result ≡ read_step answer }
{
    match answer {
        Ok(0) => Reading::End,
        Ok(n) => Reading::Bytes(n),
        Err(errno) => read_after(Failure::from(errno)),
    }
}

// Whether the call is to be made again.
fn is_again(reading: Reading) -> bool
    ensures { result ≡ read_again_lem reading }
{
    matches!(reading, Reading::Again | Reading::Wait)
}

// The number of bytes read.
pub fn bytes_read(reading: Reading) -> usize
    ensures { result ≡ bytes_read reading }
{
    match reading {
        Reading::Bytes(n) => n,
        Reading::End | Reading::Again | Reading::Wait | Reading::Failed => 0,
    }
}

// Waits where a read would block, and tells one that failed, of an input with this name.
fn attend<H: Clock + Tell>(rt: &H, reading: Reading, name: &[u8], returned: &io::Result<usize>) {
    match reading {
        Reading::Bytes(_) | Reading::End | Reading::Again => {}
        Reading::Wait => pause(rt),
        Reading::Failed => tell_failure(rt, name, returned),
    }
}

// Reads at least one byte, or comes to the end of the input or to a failure, which is told with the input's name.
// A proved loop has to end, so it counts to a number that no run comes to.
#[tactic(auto, using(crate::proofs::CallAnswers::read_within))]
pub fn read_named<H: Clock + Tell, R: Read>(
    rt: &H,
    input: &mut R,
    name: &[u8],
    block: &mut [u8],
) -> Reading
    ensures { ReadWithin block.new result }
{
    for _ in 0..u64::MAX {
        let returned = input.read(block);
        let reading = read_step(answer_of(&returned));
        attend(rt, reading, name, &returned);
        if !is_again(reading) {
            return reading;
        }
    }
    Reading::Failed
}

// The same on an input that has no name.
pub fn read_some<H: Clock + Tell, R: Read>(rt: &H, input: &mut R, block: &mut [u8]) -> Reading
    ensures { ReadWithin block.new result }
{
    read_named(rt, input, b"read", block)
}
