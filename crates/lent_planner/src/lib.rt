// The calls of a session whose queue the host lends as a slice of records.
#![tactic(auto)]

use requests::{CAPACITY, Entry, Setup};
use search::rows::ROW_NUMBERS;

pub mod add;
mod choose;
pub mod drop;
pub mod faults;
pub mod open;
mod places;
mod rules;
pub mod turn;

// What a pass over the records has found: how many wait, the place where the id waits, whether vacant ones have begun, and whether the rules are broken.
#[derive(Clone, Copy)]
pub struct Survey {
    pub setup: Setup,
    pub id: u64,
    pub len: usize,
    pub at: Option<usize>,
    pub ended: bool,
    pub broken: bool,
}

// What a turn has taken of the records: the entries and the places where they stand, in the first `count` places, with the rows and the
// number of their plan, and the sets of counters that are left.
// Form: arrays with a count, since memory is fixed (no heap); places and entries apart, since a `Change` takes each array as it is.
#[derive(Clone, Copy)]
pub struct Choice {
    pub setup: Setup,
    pub usable: usize,
    pub counters: u64,
    pub plan: u64,
    pub left: u64,
    pub rows: [u64; ROW_NUMBERS],
    pub taken: [Entry; CAPACITY],
    pub at: [usize; CAPACITY],
    pub count: usize,
}

// How the records from `from` to `end` change: each is read `skip` places ahead and one more for each place in `at` that is passed over, and past
// the end from the fresh ones.
#[derive(Clone, Copy)]
pub struct Change {
    pub from: usize,
    pub end: usize,
    pub skip: usize,
    pub at: [usize; CAPACITY],
    pub fresh: [Entry; CAPACITY],
}
