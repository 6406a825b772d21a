// A session whose queue the host lends as a slice of records, and the answers of its calls.
#![tactic(auto)]

use requests::{Answer, CAPACITY, Setup};
use sessions::Assigned;

// "1 to 256" records
pub const MOST_RECORDS: usize = 256;

// A session without a queue of its own.
#[derive(Clone, Copy)]
pub struct LentSession {
    pub opened: bool,
    pub setup: Setup,
}

// An answer, and the session afterwards.
#[derive(Clone, Copy)]
pub struct LentAnswered {
    pub answer: Answer,
    pub session: LentSession,
}

// A turn's answer: the plan in the first `taken` places, in the order taken, and the number of writes.
#[derive(Clone, Copy)]
pub struct LentTurned {
    pub answer: Answer,
    pub session: LentSession,
    pub plan: [Assigned; CAPACITY],
    pub taken: usize,
    pub writes: usize,
}
