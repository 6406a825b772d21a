// A plan extended by an event, without a search: the event takes the least counter that it allows and the plan leaves free.
ghost use Rattle.std.specs.Prelude.{true, ◌≡◌, [], ◌∷◌, ◌+◌, ◌*◌, ◌^◌, ◌<◌, ◌≤◌, IfSome};
ghost use Rattle.plans.specs.Places.{counters_of};
ghost use Rattle.plans.specs.Legal.{HasPlan};
ghost use Rattle.search.specs.Rows.{rows_from};
ghost use Rattle.plans.specs.Packed.{places_from};
ghost use Rattle.search.specs.Beside.{Without, LeftFree, Beside, AnyUsable};

use crate::counters::{Counters, available, without};
use crate::packed::place_at;
use crate::rows::{ROW_NUMBERS, request_at};
use crate::ruled::{may_follow, runs_anywhere};
use checks::devices::all_counters;
use checks::rules::rule_of;
use checks::set::has;
use plans::Place;
use requests::{CounterSet, Request, Setup};

// The set without counter k, which it may have.
fn except(set: CounterSet, k: u64) -> CounterSet
    ensures { Without set (k ∷ []) result }
{
    if has(set, k) {
        return without(set, k);
    }
    set
}

// The counters that a place leaves of a set.
#[tactic(auto, unfolding(plans::specs::Places::counters_of, plans::specs::Places::counted_of))]
fn except_place(set: CounterSet, place: Place) -> CounterSet
    ensures { Without set (counters_of place) result }
{
    match place {
        Place::Counter(k) | Place::WithRsp(k, _) => except(set, k),
        Place::Pair(j, k) => except(except(set, j), k),
    }
}

// The usable counters that the device has.
fn own_counters(setup: Setup) -> CounterSet
    ensures { LeftFree setup [] result }
{
    CounterSet(setup.usable.0 & all_counters(setup.device).0)
}

// The counters that a packed plan of the first `count` rows leaves free.
#[tactic(auto, unfolding(crate::specs::Rows::rows_from, plans::specs::Packed::places_from))]
fn free_beside(setup: Setup, code: u64, rows: &[u64; ROW_NUMBERS], count: usize) -> CounterSet
    requires { count ≤ 8 }
    ensures { LeftFree setup (places_from code 0 (rows_from rows.now 0 count)) result }
{
    let mut free = own_counters(setup);
    for i in 0..count {
        free = except_place(free, place_at(code, i, request_at(rows, i)));
    }
    free
}

// The least counter of an event beside a packed plan, where no rule stands in the way. None is told of any other request.
pub fn counter_beside(
    setup: Setup,
    code: u64,
    rows: &[u64; ROW_NUMBERS],
    count: usize,
    request: Request,
) -> Option<u64>
    requires { count ≤ 8 }
    ensures { IfSome result (λ k. Beside setup (rows_from rows.now 0 count) code request k) }
{
    match request {
        Request::Event {
            code: event,
            mask,
            allowed,
        } if may_follow(setup.device, rows, count, event, mask) => {
            Counters(available(allowed, free_beside(setup, code, rows, count))).next()
        }
        _ => None,
    }
}

// Whether some allowed counter is usable.
pub fn any_usable(setup: Setup, allowed: CounterSet) -> bool
    ensures { result ≡ true → AnyUsable setup allowed }
{
    Counters(available(allowed, own_counters(setup)))
        .next()
        .is_some()
}

// Whether a request that takes one counter, any that it allows, has one, and so a plan alone. Nothing is said of the others.
pub fn counter_alone(setup: Setup, request: Request) -> bool
    ensures { result ≡ true → HasPlan setup (request ∷ []) }
{
    match request {
        Request::Event {
            code,
            mask,
            allowed,
        } => runs_anywhere(rule_of(setup.device, code, mask)) && any_usable(setup, allowed),
        Request::Packet { allowed, .. } | Request::Offcore { allowed, .. } => {
            any_usable(setup, allowed)
        }
        Request::Latency { .. } => false,
    }
}

// The packed plan of n requests with counter k behind it.
pub fn with_counter(code: u64, n: usize, k: u64) -> u64
    requires { (n ≤ 7) × (k < 8) × (code < 8796093022208) }
    ensures { result ≡ code + (63 + k * 8) * 2 ^ (6 * n) }
{
    code + ((63 + k * 8) << (6 * n))
}
