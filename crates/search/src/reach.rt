// The sets of counters that requests can leave free, as the bits of one number: bit f stands for the set f, of at most six counters.
ghost use Rattle.std.specs.Prelude.{◌≡◌, ◌<◌, ◌≤◌, ◌^◌};
ghost use Rattle.plans.specs.Reach.{sets_with, taking, taking_one, left_by};

use checks::set::has;
use requests::{CounterSet, Request};

// The sets that have counter k.
#[tactic(auto, unfolding(plans::specs::Reach::sets_with))]
fn sets_with(k: u64) -> u64
    requires { k < 6 }
    ensures { result ≡ sets_with k }
{
    match k {
        0 => 0xAAAA_AAAA_AAAA_AAAA,
        1 => 0xCCCC_CCCC_CCCC_CCCC,
        2 => 0xF0F0_F0F0_F0F0_F0F0,
        3 => 0xFF00_FF00_FF00_FF00,
        4 => 0xFFFF_0000_FFFF_0000,
        _ => 0xFFFF_FFFF_0000_0000,
    }
}

// The sets that are left when counter k is taken from those that have it: the set f becomes f - 2^k.
#[tactic(auto, unfolding(plans::specs::Reach::taking))]
fn taking(k: u64, sets: u64) -> u64
    requires { k < 6 }
    ensures { result ≡ taking k sets }
{
    let step: u64 = 1 << k;
    (sets & sets_with(k)) >> step
}

// The sets that are left when one of the allowed counters below n is taken.
#[tactic(auto, unfolding(plans::specs::Reach::taking_one))]
fn taking_one(n: u64, allowed: CounterSet, sets: u64) -> u64
    requires { n ≤ 6 }
    ensures { result ≡ taking_one n allowed sets }
{
    let mut left = 0;
    for k in 0..n {
        if has(allowed, k) {
            left |= taking(k, sets);
        }
    }
    left
}

// The sets that a request leaves, on n counters.
#[tactic(auto, unfolding(plans::specs::Reach::left_by))]
pub fn left_by(n: u64, request: Request, sets: u64) -> u64
    requires { n ≤ 6 }
    ensures { result ≡ left_by n request sets }
{
    match request {
        Request::Event { allowed, .. }
        | Request::Packet { allowed, .. }
        | Request::Offcore { allowed, .. } => taking_one(n, allowed, sets),
        Request::Latency { first, second, .. } => {
            taking_one(n, second, taking_one(n, first, sets))
        }
    }
}

// The set that is left before the first request: the usable counters, where they are at most the first six.
pub fn left_at_first(usable: CounterSet) -> u64
    ensures { usable.0 < 64 → result ≡ 2 ^ usable.0 }
{
    let free = usable.0;
    if 64 <= free {
        return 0;
    }
    1 << free
}
