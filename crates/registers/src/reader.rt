// The register reader: what each counter does, where some plan leaves the values.
ghost use Rattle.std.specs.Prelude.{◌≡◌};
ghost use Rattle.requests.specs.Choice.{pick};
ghost use Rattle.requests.specs.Devices.{has};
ghost use Rattle.layouts.specs.Read.{filter_of, tell, reading_of, read_of};

use crate::accept::{accepts, looked_at};
use crate::tables::{code_of, mask_of, packet_word, rsp_word};
use checks::devices::setup_of;
use checks::set::has;
use layouts::{CounterState, FilterRead, FilterValues, Reading, RegisterValues};
use requests::{Device, Opening, Refusal, Setup};
use std::array;

// The filter of a control word.
#[tactic(auto, unfolding(layouts::specs::Read::filter_of))]
fn filter_of(setup: Setup, filters: &FilterValues, word: u64) -> FilterRead
    ensures { result ≡ filter_of setup filters.now word }
{
    match setup.device {
        Device::G if word == rsp_word(setup, 0) => FilterRead::Rsp(0, filters.rsp0),
        Device::G if word == rsp_word(setup, 1) => FilterRead::Rsp(1, filters.rsp1),
        Device::S if word == packet_word(setup) => {
            FilterRead::MatchMask(filters.match_word, filters.mask_word)
        }
        Device::G | Device::S | Device::C(_) | Device::B => FilterRead::NoFilter,
    }
}

// What a usable counter with the control word does.
#[tactic(auto, unfolding(layouts::specs::Read::tell))]
fn tell_word(setup: Setup, filters: &FilterValues, word: u64) -> CounterState
    ensures { result ≡ tell setup filters.now word }
{
    if word == 0 {
        return CounterState::Off;
    }
    CounterState::Counts {
        code: code_of(word),
        mask: mask_of(word),
        filter: filter_of(setup, filters, word),
    }
}

// What is told of a counter.
fn tell_counter(setup: Setup, filters: &FilterValues, counter: usize, word: u64) -> CounterState
    ensures { result ≡ pick (has setup.usable counter) (tell setup filters.now word) CounterState.NotOurs }
{
    if has(setup.usable, counter as u64) {
        tell_word(setup, filters, word)
    } else {
        CounterState::NotOurs
    }
}

// An accepted reading.
#[tactic(auto, unfolding(requests::specs::Devices::capacity, layouts::specs::Layout::tabulate, layouts::specs::Read::reading_of))]
fn reading_of(setup: Setup, values: &RegisterValues) -> Reading
    ensures { result ≡ reading_of setup values.now }
{
    let words = looked_at(setup, values);
    Ok(array::from_fn(|counter| tell_counter(setup, &values.filters, counter, words[counter])))
}

// The reader: a bad opening wherever nothing opens, and refused where no plan leaves the values.
pub fn read(opening: Opening, values: RegisterValues) -> Reading
    ensures { result ≡ read_of opening values }
{
    let Ok(setup) = setup_of(opening) else {
        return Err(Refusal::BadOpening);
    };
    if !accepts(setup, &values) {
        return Err(Refusal::NotLeftByPlan);
    }
    reading_of(setup, &values)
}
