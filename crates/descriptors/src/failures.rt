// Why a call failed.
ghost use Rattle.std.specs.Prelude.{◌≡◌};
ghost use Rattle.descriptors.specs.Failures.{failure_of, is_interrupted};

use crate::Failure;

// Linux's numbers for a call that a signal interrupted, for one that would block, for a closed pipe, and for an error of input or output.
pub const EINTR: i32 = 4;

pub const EAGAIN: i32 = 11;

pub const EPIPE: i32 = 32;

pub const EIO: i32 = 5;

// By the errno that the call left. On Linux EWOULDBLOCK is EAGAIN.
impl From<i32> for Failure {
    ghost from_gives = { λ errno failure. failure ≡ failure_of errno };

    #[tactic(auto, using(crate::proofs::CallAnswers::other_failure), unfolding(crate::specs::Failures::failure_of, crate::specs::Failures::interrupted, crate::specs::Failures::would_block, crate::specs::Failures::closed_pipe))]
    fn from(errno: i32) -> Failure {
        match errno {
            EINTR => Failure::Interrupted,
            EAGAIN => Failure::WouldBlock,
            EPIPE => Failure::Closed,
            _ => Failure::Other,
        }
    }
}

impl Failure {
    // Whether a signal interrupted the call.
    pub fn is_interrupted(self) -> bool
        ensures { result ≡ is_interrupted self }
    {
        matches!(self, Failure::Interrupted)
    }
}
