// What a turn takes and passes over, parted in place.
ghost use Rattle.std.specs.Prelude.{◌≡◌, ◌++◌, ◌≤◌, ◌+◌, length, take};
ghost use Rattle.queue_rows.specs.Rows.{Sized, queue_in, entries_in, ClosesUp};
ghost use Rattle.queue_rows.specs.Parting.{Parted};

use crate::QUEUE_NUMBERS;
use crate::rows::{copy_entry, put_numbers, request_in};
use checks::devices::counter_count;
use planner::Chosen;
use planner::select::{EMPTY_PLAN, plan_with, usable_count};
use requests::{CAPACITY, Setup};
use search::reach::left_at_first;
use search::rows::ROW_NUMBERS;
use sessions::QUEUE_LIMIT;

// Goes through the queue from the front: an entry is taken where it and those taken have a plan, and is passed over otherwise. Those
// passed over close up in place; the ids and rows of those taken are put aside.
pub fn part(
    setup: Setup,
    n: usize,
    ids: &mut [u64; QUEUE_LIMIT],
    rows: &mut [u64; QUEUE_NUMBERS],
    taken_ids: &mut [u64; CAPACITY],
    taken_rows: &mut [u64; ROW_NUMBERS],
) -> Chosen
    requires n_bound { n ≤ 16 }
    requires sized { Sized ids.old rows.old }
    requires taken_ids_len { (length taken_ids.old ≡ 8) × (length taken_rows.old ≡ 32) }
    ensures parted { Parted setup (take n (queue_in ids.old rows.old)) (queue_in ids.new rows.new) taken_ids.new taken_rows.new result }
    ensures sized_2 { Sized ids.new rows.new }
{
    let usable = usable_count(setup);
    let device = setup.device;
    let counters = counter_count(device);
    let mut left = left_at_first(setup.usable);
    let mut code = EMPTY_PLAN;
    let mut count: usize = 0;
    let mut rest: usize = 0;
    for at in 0..n {
        let next = request_in(rows, at);
        let found = plan_with(setup, usable, counters, left, code, taken_rows, count, next);
        match found {
            None => {
                copy_entry(ids, rows, at, rest);
                rest += 1;
            }
            Some(extended) => {
                code = extended.code;
                left = extended.left;
                taken_ids[count] = ids[at];
                count += 1;
            }
        }
    }
    Chosen { code, count, rest }
}

// Puts the entries that were put aside behind the first ones.
#[tactic(auto, unfolding(layouts::specs::Layout::tabulate, crate::specs::Rows::entry_at, search::specs::Rows::request_at))]
pub fn put_behind(
    ids: &mut [u64; QUEUE_LIMIT],
    rows: &mut [u64; QUEUE_NUMBERS],
    front: usize,
    taken_ids: &[u64; CAPACITY],
    taken_rows: &[u64; ROW_NUMBERS],
    count: usize,
)
    requires count_bound { (count ≤ 8) × (front + count ≤ 16) }
    requires sized { Sized ids.old rows.old }
    ensures { ClosesUp (take front (queue_in ids.old rows.old) ++ entries_in count taken_ids.now taken_rows.now) ids.new rows.new (front + count) }
{
    for j in 0..count {
        let id = taken_ids[j];
        let kind = taken_rows[j * 4];
        let a = taken_rows[j * 4 + 1];
        let b = taken_rows[j * 4 + 2];
        let c = taken_rows[j * 4 + 3];
        put_numbers(ids, rows, front + j, id, kind, a, b, c);
    }
}
