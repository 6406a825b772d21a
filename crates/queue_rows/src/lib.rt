// A session whose queue lies in two lent arrays of numbers, changed in place by the calls: a session by value is copied whole wherever it is
// handed on.
#![tactic(auto)]

use requests::{Answer, Setup};
use sessions::QUEUE_LIMIT;

pub mod add;
pub mod drop;
pub mod open;
pub mod packing;
mod part;
pub mod rows;
pub mod turn;

// The numbers of all requests: four for each.
pub const QUEUE_NUMBERS: usize = 4 * QUEUE_LIMIT;

// A session without its queue, which lies in the first `len` places. Where it is trimmed, the places past these are vacant, whatever the
// arrays hold there.
#[derive(Clone, Copy)]
pub struct Head {
    pub opened: bool,
    pub setup: Setup,
    pub len: usize,
    pub trimmed: bool,
}

// An answer, and the head afterwards.
#[derive(Clone, Copy)]
pub struct HeadAnswered {
    pub answer: Answer,
    pub head: Head,
}

// Form: numbers beside the answer, which are 0 where it refuses: the definition `TurnsIn` reads them off a refused turn too.
// A turn's answer, and the head afterwards: the number of the plan of the entries taken, which stand from `front` on, how many they are,
// and the number of writes.
#[derive(Clone, Copy)]
pub struct TurnTaken {
    pub answer: Answer,
    pub head: Head,
    pub code: u64,
    pub front: usize,
    pub taken: usize,
    pub writes: usize,
}
