// How the lines of an input ended.
ghost use Rattle.std.specs.Prelude.{◌≡◌};
ghost use Rattle.relay.specs.Endings.{last_of, ending_of, status_of};

use crate::Ending;
use descriptors::{Next, Reading};

// What the last read and the last write come to: all is complete only where the input was read to its end.
pub fn last_of(reading: Reading, next: Next) -> Next
    ensures { result ≡ last_of reading next }
{
    match reading {
        Reading::End => next,
        Reading::Bytes(_) | Reading::Again | Reading::Wait | Reading::Failed => Next::Failed,
    }
}

// The ending that the last write leaves.
pub fn ending_of(next: Next) -> Ending
    ensures { result ≡ ending_of next }
{
    match next {
        Next::Complete => Ending::Complete,
        Next::Closed => Ending::Closed,
        Next::Go | Next::Wait | Next::Failed | Next::Stuck => Ending::Failed,
    }
}

// The exit status of an ending: that of a program which the system ends for a closed pipe is 128 and the signal's number, 13.
pub fn status_of(ending: Ending) -> u64
    ensures { result ≡ status_of ending }
{
    match ending {
        Ending::Complete => 0,
        Ending::Closed => 141,
        Ending::Failed | Ending::Refused => 1,
    }
}
