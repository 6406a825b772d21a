// The planner over numbers, for the Rust program of bench/ to link. Requests stand in rows, as in `search::rows`.
#![tactic(auto)]

ghost use Rattle.std.specs.Prelude.{◌≡◌, ◌<◌, ◌≤◌};
ghost use Rattle.plans.specs.Search.{first_plan};
ghost use Rattle.search.specs.Rows.{rows_from};
ghost use Rattle.plans.specs.Packed.{packed};
ghost use Rattle.search.specs.Found.{found_of};
ghost use Rattle.bench.specs.Numbers.{setup_for, digits_of, place_number};

use plans::Place;

pub mod turns;

use requests::{CounterSet, Device, Overflow, Setup};
use search::first_plan::first_plan;
use search::plan_rows::plan_rows;
use search::rows::{ROW_NUMBERS, request_at};

// The two numbers of a place, as digits to the base 8.
#[tactic(auto, unfolding(crate::specs::Numbers::digits_of, plans::specs::Places::first, plans::specs::Places::second))]
fn digits_of(place: Place) -> u64
    ensures { result ≡ digits_of place }
{
    match place {
        Place::Counter(k) => k % 8 * 8,
        Place::WithRsp(k, i) => k % 8 * 8 + i % 8,
        Place::Pair(j, k) => j % 8 * 8 + k % 8,
    }
}

// Device G with a usable set, its fixed counters off, where nothing is asked.
fn setup_for(usable: u64) -> Setup
    ensures { result ≡ setup_for usable }
{
    Setup {
        device: Device::G,
        usable: CounterSet(usable),
        fixed: 0,
        overflow: Overflow {
            freeze: 0,
            core: None,
        },
    }
}

// Request i's place in the first plan of the requests in the first `count` rows.
#[unsafe(no_mangle)]
pub extern "C" fn rattle_first_plan(
    usable: u64,
    rows: &[u64; ROW_NUMBERS],
    count: usize,
    i: usize,
) -> u64
    requires { (count ≤ 8) × (i < 8) }
    ensures { result ≡ place_number (found_of (first_plan (setup_for usable) (rows_from rows.now 0 count))) i }
{
    let setup = setup_for(usable);
    // Form: (d) a literal of eight calls: filled by a loop it would want an invariant over the rows read so far.
    let requests = [
        request_at(rows, 0),
        request_at(rows, 1),
        request_at(rows, 2),
        request_at(rows, 3),
        request_at(rows, 4),
        request_at(rows, 5),
        request_at(rows, 6),
        request_at(rows, 7),
    ];
    match first_plan(setup, requests, count) {
        Some(places) => digits_of(places[i]) + 1,
        None => 0,
    }
}

// The packed first plan of the requests in the first `count` rows.
#[unsafe(no_mangle)]
pub extern "C" fn rattle_plan_rows(usable: u64, rows: &[u64; ROW_NUMBERS], count: usize) -> u64
    requires { count ≤ 8 }
    ensures { result ≡ packed (first_plan (setup_for usable) (rows_from rows.now 0 count)) }
{
    plan_rows(setup_for(usable), rows, count)
}
