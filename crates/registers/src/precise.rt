// The reader's tests of B's precise events: where each stands, what is beside it, and the value of IA32_PEBS_ENABLE.
ghost use Rattle.std.specs.Prelude.{◌≡◌, ◌<◌, eqb, get_or};
ghost use Rattle.requests.specs.Choice.{both, either, every};
ghost use Rattle.requests.specs.Devices.{capacity, counter_count};
ghost use Rattle.layouts.specs.Read.{may_run, rule_fits, pebs_fits};

use crate::pebs::{pebs_enable, pebs_on};
use crate::tables::{code_of, mask_of};
use checks::devices::{all_counters, counter_count};
use checks::rules::{has_rules, rule_of};
use requests::{CAPACITY, Device, EventRule, Setup};

// Whether the control word of a counter is 0, or the counter the one that may have an event.
#[tactic(auto, unfolding(requests::specs::Choice::either, requests::specs::Devices::capacity))]
fn off_or_at(words: &[u64; CAPACITY], counter: u64, allowed: u64) -> bool
    requires { counter < capacity }
    ensures { result ≡ either (eqb counter allowed) (eqb (get_or words.now counter 0) 0) }
{
    counter == allowed || words[counter as usize] == 0
}

// Whether every one of the device's control words but that of a counter is 0.
fn others_off(device: Device, words: &[u64; CAPACITY], allowed: u64) -> bool
    ensures { result ≡ every (counter_count device) (λ k. either (eqb k allowed) (eqb (get_or words.now k 0) 0)) }
{
    (0..counter_count(device)).all(|counter| off_or_at(words, counter, allowed))
}

// Whether an event that runs alone may run on a counter.
#[tactic(auto, unfolding(layouts::specs::Read::may_run, layouts::specs::Read::others_off, requests::specs::Choice::both))]
fn may_run_alone(setup: Setup, words: &[u64; CAPACITY], counter: u64, wanted: u64) -> bool
    ensures { result ≡ may_run setup (λ k. get_or words.now k 0) counter (EventRule.AloneOn wanted) }
{
    counter == wanted
        && setup.usable.0 == all_counters(setup.device).0
        && others_off(setup.device, words, counter)
}

// Whether an event with the rule may run on a counter.
#[tactic(auto, unfolding(layouts::specs::Read::may_run))]
fn may_run(setup: Setup, words: &[u64; CAPACITY], counter: u64, rule: EventRule) -> bool
    ensures { result ≡ may_run setup (λ k. get_or words.now k 0) counter rule }
{
    match rule {
        EventRule::Anywhere => true,
        EventRule::OnlyOn(wanted) => counter == wanted,
        EventRule::AloneOn(wanted) => may_run_alone(setup, words, counter, wanted),
    }
}

// Whether a counter's event keeps its rule.
#[tactic(auto, unfolding(requests::specs::Devices::capacity, layouts::specs::Read::rule_fits))]
fn rule_fits(setup: Setup, words: &[u64; CAPACITY], counter: u64) -> bool
    requires { counter < capacity }
    ensures { result ≡ rule_fits setup (λ k. get_or words.now k 0) counter }
{
    let word = words[counter as usize];
    let rule = rule_of(setup.device, code_of(word), mask_of(word));
    may_run(setup, words, counter, rule)
}

// Whether every counter's event keeps its rule.
fn rules_fit(setup: Setup, words: &[u64; CAPACITY]) -> bool
    ensures { result ≡ every (counter_count setup.device) (rule_fits setup (λ k. get_or words.now k 0)) }
{
    (0..counter_count(setup.device)).all(|counter| rule_fits(setup, words, counter))
}

// Whether IA32_PEBS_ENABLE may hold the value beside the control words.
#[tactic(auto, unfolding(layouts::specs::Read::pebs_fits, requests::specs::Choice::either))]
fn pebs_fits(device: Device, words: &[u64; CAPACITY], value: u64) -> bool
    ensures { result ≡ pebs_fits device (λ k. get_or words.now k 0) value }
{
    !pebs_on(device) || value == pebs_enable(words)
}

// Both, on a device that has such events.
#[tactic(auto, unfolding(requests::specs::Choice::both))]
pub fn precise_fits(setup: Setup, words: &[u64; CAPACITY], value: u64) -> bool
    ensures { result ≡ both (pebs_fits setup.device (λ k. get_or words.now k 0) value) (every (counter_count setup.device) (rule_fits setup (λ k. get_or words.now k 0))) }
{
    pebs_fits(setup.device, words, value) && (!has_rules(setup.device) || rules_fit(setup, words))
}
