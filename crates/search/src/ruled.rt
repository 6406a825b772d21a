// Requests as the rules of their device's events leave them: what the search is given on such a device.
ghost use Rattle.std.specs.Prelude.{◌≡◌, map, ◌≤◌, length};
ghost use Rattle.requests.specs.EventRules.{wants_quiet};
ghost use Rattle.plans.specs.Narrowed.{only_counter, allowed_by, narrowed, any_lone, quiet_kept};
ghost use Rattle.search.specs.Counters.{with_counters};
ghost use Rattle.search.specs.Beside.{is_anywhere, may_follow};
ghost use Rattle.search.specs.Rows.{rows_from};

use crate::rows::{ROW_NUMBERS, put_request, request_at};
use checks::devices::all_counters;
use checks::rules::{has_rules, rule_for, rule_of};
use checks::set::has;
use requests::{CounterSet, Device, EventRule, Request};

// Counter k alone, where the set has it.
#[tactic(auto, unfolding(plans::specs::Narrowed::only_counter))]
fn only_counter(k: u64, set: CounterSet) -> CounterSet
    ensures { result ≡ only_counter k set }
{
    if has(set, k) {
        return CounterSet(1 << k);
    }
    CounterSet(0)
}

// The allowed counters on which the rule lets an event run.
#[tactic(auto, unfolding(plans::specs::Narrowed::allowed_by))]
fn allowed_by(rule: EventRule, allowed: CounterSet) -> CounterSet
    ensures { result ≡ allowed_by rule allowed }
{
    match rule {
        EventRule::Anywhere => allowed,
        EventRule::OnlyOn(k) | EventRule::AloneOn(k) => only_counter(k, allowed),
    }
}

// The request with those.
#[tactic(auto, unfolding(plans::specs::Narrowed::narrowed))]
fn narrowed(device: Device, request: Request) -> Request
    ensures { result ≡ narrowed device request }
{
    match request {
        Request::Event {
            code,
            mask,
            allowed,
        } => Request::Event {
            code,
            mask,
            allowed: allowed_by(rule_of(device, code, mask), allowed),
        },
        Request::Packet { .. } | Request::Offcore { .. } | Request::Latency { .. } => request,
    }
}

// The other rows become the narrowed requests of the first `count` rows.
#[tactic(auto, unfolding(crate::specs::Rows::rows_from))]
pub fn narrow_rows(
    device: Device,
    rows: &[u64; ROW_NUMBERS],
    count: usize,
    others: &mut [u64; ROW_NUMBERS],
)
    requires { (count ≤ 8) × (length others.old ≡ 32) }
    ensures { rows_from others.new 0 count ≡ map (narrowed device) (rows_from rows.now 0 count) }
{
    for i in 0..count {
        put_request(others, i, narrowed(device, request_at(rows, i)));
    }
}

// Whether the rule wants every other counter quiet.
#[tactic(auto, unfolding(requests::specs::EventRules::wants_quiet))]
fn wants_quiet(rule: EventRule) -> bool
    ensures { result ≡ wants_quiet rule }
{
    matches!(rule, EventRule::AloneOn(_))
}

// Whether a request in the first `count` rows wants every other counter quiet.
#[tactic(auto, unfolding(plans::specs::Narrowed::any_lone, crate::specs::Rows::rows_from))]
fn any_lone(device: Device, rows: &[u64; ROW_NUMBERS], count: usize) -> bool
    requires { count ≤ 8 }
    ensures { result ≡ any_lone device (rows_from rows.now 0 count) }
{
    (0..count).any(|i| wants_quiet(rule_for(device, request_at(rows, i))))
}

// Whether the rule lets an event run on every counter.
#[tactic(auto, unfolding(crate::specs::Beside::is_anywhere))]
pub fn runs_anywhere(rule: EventRule) -> bool
    ensures { result ≡ is_anywhere rule }
{
    matches!(rule, EventRule::Anywhere)
}

// Whether an event may run on every counter, and beside each of the requests in the first `count` rows.
#[tactic(auto, unfolding(crate::specs::Beside::may_follow, requests::specs::Choice::both))]
pub fn may_follow(
    device: Device,
    rows: &[u64; ROW_NUMBERS],
    count: usize,
    code: u8,
    mask: u8,
) -> bool
    requires { count ≤ 8 }
    ensures { result ≡ may_follow device (rows_from rows.now 0 count) code mask }
{
    if !has_rules(device) {
        return true;
    }
    runs_anywhere(rule_of(device, code, mask)) && !any_lone(device, rows, count)
}

// Whether every other counter is quiet where a request wants it: it is the only request, and all counters are usable.
pub fn quiet_kept(
    device: Device,
    usable: CounterSet,
    rows: &[u64; ROW_NUMBERS],
    count: usize,
) -> bool
    requires { count ≤ 8 }
    ensures { result ≡ quiet_kept (with_counters device usable) (rows_from rows.now 0 count) }
{
    !any_lone(device, rows, count) || count == 1 && usable.0 == all_counters(device).0
}
