// The register values of a plan, one request after another from the last to the first.
ghost use Rattle.std.specs.Prelude.{◌≡◌, [], min, take, set};
ghost use Rattle.requests.specs.Devices.{capacity};
ghost use Rattle.plans.specs.Places.{first, second, counters_of};
ghost use Rattle.plans.specs.Legal.{words_of};
ghost use Rattle.plans.specs.Packed.{places_from};
ghost use Rattle.search.specs.Rows.{rows_from};
ghost use Rattle.layouts.specs.Settings.{uses_of, head_or, settings_of};
ghost use Rattle.registers.specs.Adding.{with_counter, with_counters, with_uses, with_packets, settings_with};

use crate::tables::{event_word, packet_word, rsp_word};
use checks::bits::latency_word;
use checks::devices::counter_count;
use checks::set::has;
use layouts::Settings;
use plans::Place;
use requests::{CAPACITY, CounterSet, Device, Request, Setup};
use search::packed::place_at;
use search::rows::{ROW_NUMBERS, request_at};

// The counter of a place, or the first of two.
#[tactic(auto, unfolding(plans::specs::Places::first))]
fn first_of(place: Place) -> u64
    ensures { result ≡ first place }
{
    match place {
        Place::Counter(counter) | Place::WithRsp(counter, _) | Place::Pair(counter, _) => counter,
    }
}

// The RSP register of a place, or the second of two counters.
#[tactic(auto, unfolding(plans::specs::Places::second))]
fn second_of(place: Place) -> u64
    ensures { result ≡ second place }
{
    match place {
        Place::Counter(_) => 0,
        Place::WithRsp(_, register) => register,
        Place::Pair(_, counter) => counter,
    }
}

// The set with one more counter, where the device has it.
fn with_counter(device: Device, counter: u64, used: CounterSet) -> CounterSet
    ensures { result ≡ with_counter device counter used }
{
    if counter < counter_count(device) && !has(used, counter) {
        CounterSet(used.0 + (1 << counter))
    } else {
        used
    }
}

// The set with the counters of a place.
#[tactic(auto, unfolding(crate::specs::Adding::with_counters, plans::specs::Places::counters_of, plans::specs::Places::counted_of))]
fn with_counters(device: Device, place: Place, used: CounterSet) -> CounterSet
    ensures { result ≡ with_counters device (counters_of place) used }
{
    match place {
        Place::Counter(counter) | Place::WithRsp(counter, _) => with_counter(device, counter, used),
        Place::Pair(first, second) => with_counter(
            device,
            first,
            with_counter(device, second, used),
        ),
    }
}

// Stores the control word of a counter. A counter past the array has none.
fn put_word(words: &mut [u64; CAPACITY], counter: u64, word: u64)
    ensures { words.new ≡ set words.old counter word }
{
    if counter < CAPACITY as u64 {
        words[counter as usize] = word;
    }
}

// Stores the control words of a request at its place.
#[tactic(auto, unfolding(crate::specs::Adding::with_uses, layouts::specs::Settings::uses_of))]
fn put_uses(setup: Setup, request: Request, place: Place, words: &mut [u64; CAPACITY])
    ensures { words.new ≡ with_uses (uses_of setup request place) words.old }
{
    let counter = first_of(place);
    match request {
        Request::Event { code, mask, .. } => put_word(
            words,
            counter,
            event_word(setup, code, mask),
        ),
        Request::Packet { .. } => put_word(words, counter, packet_word(setup)),
        Request::Offcore { .. } => put_word(words, counter, rsp_word(setup, second_of(place))),
        Request::Latency { .. } => {
            put_word(words, second_of(place), rsp_word(setup, 1));
            put_word(words, counter, rsp_word(setup, 0));
        }
    }
}

// The word of an RSP register with what an offcore word at its place asks of it.
#[tactic(auto, unfolding(plans::specs::Legal::words_of))]
fn with_offcore(register: u64, word: u64, place: Place, held: u64) -> u64
    ensures { (a : CounterSet) → result ≡ head_or held (words_of register (Request.Offcore word a) place) }
{
    match place {
        Place::WithRsp(_, given) if given == register => word,
        Place::Counter(_) | Place::WithRsp(..) | Place::Pair(..) => held,
    }
}

// The word of an RSP register with what a request at its place asks of it.
#[tactic(auto, unfolding(plans::specs::Legal::words_of))]
fn with_rsp(register: u64, request: Request, place: Place, held: u64) -> u64
    ensures { result ≡ head_or held (words_of register request place) }
{
    match request {
        Request::Event { .. } | Request::Packet { .. } => held,
        Request::Offcore { word, .. } => with_offcore(register, word, place, held),
        Request::Latency { types, .. } => latency_word(register, types),
    }
}

// The match/mask register with what a request asks of it.
#[tactic(auto, unfolding(crate::specs::Adding::with_packets, plans::specs::Legal::packets_of, requests::specs::Choice::either))]
fn add_packets(request: Request, settings: &mut Settings)
    ensures { settings.new ≡ with_packets request settings.old }
{
    match request {
        Request::Packet {
            match_word,
            mask_word,
            ..
        } => {
            settings.packet = Some((match_word, mask_word));
        }
        Request::Event { .. } | Request::Offcore { .. } | Request::Latency { .. } => {}
    }
}

// The register values with one more request in front.
#[tactic(auto, unfolding(crate::specs::Adding::settings_with, crate::specs::Adding::others_with, crate::specs::Adding::with_packets))]
fn add_request(setup: Setup, request: Request, place: Place, settings: &mut Settings)
    ensures { settings.new ≡ settings_with setup request place settings.old }
{
    put_uses(setup, request, place, &mut settings.words);
    settings.used = with_counters(setup.device, place, settings.used);
    settings.rsp0 = with_rsp(0, request, place, settings.rsp0);
    settings.rsp1 = with_rsp(1, request, place, settings.rsp1);
    add_packets(request, settings);
}

// The register values of no request.
fn no_settings() -> Settings
    ensures { (s : Setup) → result ≡ settings_of s [] [] }
{
    Settings {
        used: CounterSet(0),
        words: [0; CAPACITY],
        rsp0: 0,
        rsp1: 0,
        packet: None,
    }
}

// The register values of the first requests of the array, each at the place with its number.
#[tactic(auto, unfolding(requests::specs::Devices::capacity))]
pub fn settings_of(
    setup: Setup,
    requests: [Request; CAPACITY],
    places: [Place; CAPACITY],
    count: usize,
) -> Settings
    ensures { result ≡ settings_of setup (take count requests) (take count places) }
{
    let mut settings = no_settings();
    for i in (0..count.min(CAPACITY)).rev() {
        add_request(setup, requests[i], places[i], &mut settings);
    }
    settings
}

// The register values of the requests in the first rows, each at its place in a packed plan.
// Form: beside `settings_of` (d): they share `add_request`, and a closure for the two look-ups would be longer than the loop.
#[tactic(auto, unfolding(layouts::specs::Settings::settings_of, requests::specs::Devices::capacity))]
pub fn settings_in(setup: Setup, code: u64, rows: &[u64; ROW_NUMBERS], count: usize) -> Settings
    ensures { result ≡ settings_of setup (rows_from rows.now 0 (min count capacity)) (places_from code 0 (rows_from rows.now 0 (min count capacity))) }
{
    let mut settings = no_settings();
    for i in (0..count.min(CAPACITY)).rev() {
        let request = request_at(rows, i);
        add_request(setup, request, place_at(code, i, request), &mut settings);
    }
    settings
}
