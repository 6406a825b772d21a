// Which register values some plan leaves.
ghost use Rattle.std.specs.Prelude.{◌≡◌, not, eqb, get_or, take};
ghost use Rattle.requests.specs.Choice.{both, every};
ghost use Rattle.requests.specs.Devices.{capacity, counter_count};
ghost use Rattle.requests.specs.Checks.{formed};
ghost use Rattle.layouts.specs.Layout.{tabulate, event_word, code_of, mask_of};
ghost use Rattle.layouts.specs.Settings.{set_from};
ghost use Rattle.layouts.specs.Read.{ours, count, filter_word, control_fits, rsp1_fits, latency_fits, rsp0_fits, packets_fit, filters_fit, accepts, no_counter};

use crate::global::last_global;
use crate::precise::precise_fits;
use crate::tables::{MM_CFG_ENABLE, code_of, event_word, mask_of, packet_word, rsp_word};
use crate::ubox::ubox_fits;
use checks::bits::{OUTSTANDING, latency_word};
use checks::check::request_refusal;
use checks::devices::counter_count;
use checks::set::has;
use layouts::{FilterValues, RegisterValues};
use requests::{CAPACITY, CounterSet, Device, Request, Setup};
use std::array;

// Whether a word is well-formed does not depend on the counters that are allowed.
const NO_COUNTER: CounterSet = CounterSet(0);

// An RSP register: how many counters are on it, and its word.
#[derive(Clone, Copy)]
struct Rsp {
    counters: usize,
    word: u64,
}

// Whether none of the refusals 7 to 11 applies.
#[tactic(auto, unfolding(requests::specs::Checks::formed))]
fn formed(setup: Setup, request: Request) -> bool
    ensures { result ≡ formed setup request }
{
    request_refusal(setup, request).is_ok()
}

// Whether a control word is that of a filter event.
#[tactic(auto, unfolding(layouts::specs::Read::filter_word, requests::specs::Choice::either))]
fn filter_word(setup: Setup, word: u64) -> bool
    ensures { result ≡ filter_word setup word }
{
    match setup.device {
        Device::G => word == rsp_word(setup, 0) || word == rsp_word(setup, 1),
        Device::S => word == packet_word(setup),
        Device::C(_) | Device::B => false,
    }
}

// Whether a control value is the word of a well-formed event.
#[tactic(auto, unfolding(requests::specs::Choice::both))]
fn event_fits(setup: Setup, word: u64) -> bool
    ensures { result ≡ both (eqb word (event_word setup (code_of word) (mask_of word))) (formed setup (Request.Event (code_of word) (mask_of word) no_counter)) }
{
    let code = code_of(word);
    let mask = mask_of(word);
    let event = Request::Event {
        code,
        mask,
        allowed: NO_COUNTER,
    };
    word == event_word(setup, code, mask) && formed(setup, event)
}

// Whether a control value is 0, or the word of a well-formed event or of a filter event.
#[tactic(auto, unfolding(layouts::specs::Read::control_fits, requests::specs::Choice::either))]
fn control_fits(setup: Setup, word: u64) -> bool
    ensures { result ≡ control_fits setup word }
{
    word == 0 || filter_word(setup, word) || event_fits(setup, word)
}

// Whether the word is that of an offcore request.
fn offcore_fits(setup: Setup, word: u64) -> bool
    ensures { result ≡ formed setup (Request.Offcore word no_counter) }
{
    formed(
        setup,
        Request::Offcore {
            word,
            allowed: NO_COUNTER,
        },
    )
}

// Whether RSP1 may hold its word beside its counters.
#[tactic(auto, unfolding(layouts::specs::Read::rsp1_fits))]
fn rsp1_fits(setup: Setup, rsp1: Rsp) -> bool
    ensures { result ≡ rsp1_fits setup rsp1.counters rsp1.word }
{
    if rsp1.counters == 0 {
        rsp1.word == 0
    } else {
        offcore_fits(setup, rsp1.word)
    }
}

// Whether the words are those of a latency request, with enough counters on RSP1.
#[tactic(auto, unfolding(requests::specs::Bits::outstanding, layouts::specs::Read::latency_fits, requests::specs::Choice::both))]
fn latency_fits(setup: Setup, rsp0: Rsp, rsp1: Rsp) -> bool
    ensures { result ≡ latency_fits setup rsp0.counters rsp1.counters rsp0.word rsp1.word }
{
    let Ok(types) = u16::try_from(rsp0.word % OUTSTANDING) else {
        return false;
    };
    let request = Request::Latency {
        types,
        first: NO_COUNTER,
        second: NO_COUNTER,
    };
    rsp0.word == latency_word(0, types)
        && formed(setup, request)
        && rsp1.word == latency_word(1, types)
        && rsp0.counters <= rsp1.counters
}

// Whether RSP0 may hold its word beside the counters on both registers.
#[tactic(auto, unfolding(layouts::specs::Read::rsp0_fits, requests::specs::Choice::either))]
fn rsp0_fits(setup: Setup, rsp0: Rsp, rsp1: Rsp) -> bool
    ensures { result ≡ rsp0_fits setup rsp0.counters rsp1.counters rsp0.word rsp1.word }
{
    if rsp0.counters == 0 {
        rsp0.word == 0
    } else {
        offcore_fits(setup, rsp0.word) || latency_fits(setup, rsp0, rsp1)
    }
}

// The control words of the device's counters.
fn words_on(device: Device, words: &[u64; CAPACITY]) -> &[u64]
    ensures { result.now ≡ take (counter_count device) words.now }
{
    &words[..counter_count(device) as usize]
}

// How many of the device's control words are the word.
fn count_of(device: Device, words: &[u64; CAPACITY], word: u64) -> usize
    ensures { result ≡ count (counter_count device) (λ k. get_or words.now k 0) word }
{
    words_on(device, words)
        .iter()
        .filter(|&&held| held == word)
        .count()
}

// Whether MM_CFG, MATCH and MASK may hold their values beside the counters of packets.
#[tactic(auto, unfolding(layouts::specs::Read::packets_fit, layouts::specs::Layout::mm_enable, requests::specs::Choice::both))]
fn packets_fit(setup: Setup, counters: usize, filters: &FilterValues) -> bool
    ensures { result ≡ packets_fit setup counters filters.now }
{
    if counters == 0 {
        return filters.mm_cfg == 0;
    }
    let packet = Request::Packet {
        match_word: filters.match_word,
        mask_word: filters.mask_word,
        allowed: NO_COUNTER,
    };
    filters.mm_cfg == MM_CFG_ENABLE && formed(setup, packet)
}

// Whether the filter registers may hold their values beside the control words.
#[tactic(auto, unfolding(requests::specs::Choice::both, layouts::specs::Read::filters_fit))]
fn filters_fit(setup: Setup, words: &[u64; CAPACITY], filters: &FilterValues) -> bool
    ensures { result ≡ filters_fit setup (λ k. get_or words.now k 0) filters.now }
{
    let device = setup.device;
    match device {
        Device::G => {
            let rsp0 = Rsp {
                counters: count_of(device, words, rsp_word(setup, 0)),
                word: filters.rsp0,
            };
            let rsp1 = Rsp {
                counters: count_of(device, words, rsp_word(setup, 1)),
                word: filters.rsp1,
            };
            rsp1_fits(setup, rsp1) && rsp0_fits(setup, rsp0, rsp1)
        }
        Device::S => {
            let counters = count_of(device, words, packet_word(setup));
            packets_fit(setup, counters, filters)
        }
        Device::C(_) | Device::B => true,
    }
}

// Whether each of the device's control words is one that a plan leaves.
fn controls_fit(setup: Setup, words: &[u64; CAPACITY]) -> bool
    ensures { result ≡ every (counter_count setup.device) (λ k. control_fits setup (get_or words.now k 0)) }
{
    words_on(setup.device, words)
        .iter()
        .all(|&word| control_fits(setup, word))
}

// The device's counters whose control words are not 0.
#[tactic(auto, unfolding(layouts::specs::Settings::set_from))]
fn used_by(device: Device, words: &[u64; CAPACITY]) -> CounterSet
    ensures { result.0 ≡ set_from (counter_count device) 0 (λ k. not (eqb (get_or words.now k 0) 0)) }
{
    let mut bits = 0;
    for counter in (0..counter_count(device)).rev() {
        bits = u64::from(words[counter as usize] != 0) + 2 * bits;
    }
    CounterSet(bits)
}

// The control values that are looked at: 0 for a counter that is not usable.
#[tactic(auto, unfolding(layouts::specs::Layout::tabulate, layouts::specs::Read::ours, requests::specs::Devices::capacity))]
pub fn looked_at(setup: Setup, values: &RegisterValues) -> [u64; CAPACITY]
    ensures listed { result ≡ tabulate capacity (ours setup values.now) }
    ensures by_counter { (λ k. get_or result k 0) ≡ ours setup values.now }
{
    let control = &values.control;
    array::from_fn(|counter| {
        if has(setup.usable, counter as u64) {
            control[counter]
        } else {
            0
        }
    })
}

// Whether some plan leaves the values.
pub fn accepts(setup: Setup, values: &RegisterValues) -> bool
    ensures { result ≡ accepts setup values.now }
{
    let words = looked_at(setup, values);
    controls_fit(setup, &words)
        && values.global == last_global(setup, used_by(setup.device, &words))
        && filters_fit(setup, &words, &values.filters)
        && ubox_fits(setup, values.ubox)
        && precise_fits(setup, &words, values.pebs)
}
