// The devices, and what a session may be opened with.
ghost use Rattle.std.specs.Prelude.{◌≡◌, ◌-◌, ◌^◌, ◌<◌};
ghost use Rattle.requests.specs.Choice.{first_holding};
ghost use Rattle.requests.specs.Refusals.{answer_for};
ghost use Rattle.requests.specs.Devices.{counter_count, all_counters, fixed_count, all_fixed, letter_of, box_count, box_of, devices, packets_on, offcore_on, pairs_judged, device_of, usable_set, opens, opening_rows, opened_on, opened_by, opening_of};

use crate::askings::{overflow_fits, overflow_not_on};
use requests::{Answer, CounterSet, Device, Opening, Refusal, Setup};

// How many counters the device has.
#[tactic(auto, unfolding(requests::specs::Devices::counter_count))]
pub fn counter_count(d: Device) -> u64
    ensures { result ≡ counter_count d }
{
    match d {
        Device::G | Device::S | Device::B => 4,
        Device::C(_) => 6,
    }
}

// The word with as many bits as count, from the lowest on.
fn low_bits(count: u64) -> u64
    requires { count < 64 }
    ensures { result ≡ 2 ^ count - 1 }
{
    (1 << count) - 1
}

// The set of all counters of the device.
#[tactic(auto, unfolding(requests::specs::Devices::all_counters), using(requests::proofs::Openings::counters_fit))]
pub fn all_counters(d: Device) -> CounterSet
    ensures { result ≡ record { 0 = all_counters d } }
{
    CounterSet(low_bits(counter_count(d)))
}

// How many fixed counters the device has.
#[tactic(auto, unfolding(requests::specs::Devices::fixed_count))]
pub fn fixed_count(d: Device) -> u64
    ensures { result ≡ fixed_count d }
{
    match d {
        Device::G | Device::B => 3,
        Device::S | Device::C(_) => 0,
    }
}

// The enables of all fixed counters of the device.
#[tactic(auto, unfolding(requests::specs::Devices::all_fixed, requests::specs::Devices::fixed_count))]
pub fn all_fixed(d: Device) -> u64
    ensures { result ≡ all_fixed d }
{
    low_bits(fixed_count(d))
}

// The code of the device's letter.
#[tactic(auto, unfolding(requests::specs::Devices::letter_of))]
pub fn letter_of(d: Device) -> u64
    ensures { result ≡ letter_of d }
{
    let letter = match d {
        Device::G => b'G',
        Device::S => b'S',
        Device::C(_) => b'C',
        Device::B => b'B',
    };
    u64::from(letter)
}

// How many boxes the device has.
#[tactic(auto, unfolding(requests::specs::Devices::box_count))]
pub fn box_count(d: Device) -> u64
    ensures { result ≡ box_count d }
{
    match d {
        Device::G | Device::S | Device::B => 1,
        Device::C(_) => 8,
    }
}

// The number of the box: 0 on a device without boxes.
#[tactic(auto, unfolding(requests::specs::Devices::box_of))]
pub fn box_of(d: Device) -> u64
    ensures { result ≡ box_of d }
{
    match d {
        Device::C(number) => number,
        Device::G | Device::S | Device::B => 0,
    }
}

// A device of each letter, where the box has the number.
#[tactic(auto, unfolding(requests::specs::Devices::devices))]
pub fn devices(cbox: u64) -> [Device; 4]
    ensures { result ≡ devices cbox }
{
    [Device::G, Device::S, Device::C(cbox), Device::B]
}

// Whether the device has packet requests.
#[tactic(auto, unfolding(requests::specs::Devices::packets_on))]
pub fn packets_on(d: Device) -> bool
    ensures { result ≡ packets_on d }
{
    matches!(d, Device::S)
}

// Whether the device has offcore and latency requests.
#[tactic(auto, unfolding(requests::specs::Devices::offcore_on))]
pub fn offcore_on(d: Device) -> bool
    ensures { result ≡ offcore_on d }
{
    matches!(d, Device::G)
}

// Whether an event is judged as a pair of code and mask.
#[tactic(auto, unfolding(requests::specs::Devices::pairs_judged))]
pub fn pairs_judged(d: Device) -> bool
    ensures { result ≡ pairs_judged d }
{
    matches!(d, Device::G | Device::B)
}

// Whether a usable set has a counter, and none past the device's.
#[tactic(auto, unfolding(requests::specs::Devices::usable_set, requests::specs::Choice::both))]
pub fn usable_set(d: Device, usable: CounterSet) -> bool
    ensures { result ≡ usable_set d usable }
{
    usable.0 != 0 && usable.0 <= all_counters(d).0
}

// Whether the device has the counters, the fixed enables and the box that are given beside its letter.
#[tactic(auto, unfolding(requests::specs::Devices::opens, requests::specs::Choice::both))]
fn opens(d: Device, o: Opening) -> bool
    ensures { result ≡ opens d o }
{
    usable_set(d, o.usable) && o.fixed <= all_fixed(d) && o.cbox < box_count(d)
}

// How the device answers an opening.
#[tactic(auto, unfolding(requests::specs::Devices::rows_where, requests::specs::Devices::opening_rows, requests::specs::Refusals::answer_for, requests::specs::Choice::first_holding))]
fn opening_answer(d: Device, o: Opening) -> Answer
    ensures { result ≡ answer_for (first_holding (opening_rows d o)) }
{
    if !opens(d, o) {
        return Err(Refusal::BadOpening);
    }
    if overflow_not_on(d, o.overflow) {
        return Err(Refusal::KindNotOnDevice);
    }
    if !overflow_fits(o.overflow) {
        return Err(Refusal::OutOfRange);
    }
    Ok(())
}

// What a device opens with what is given beside its letter.
#[tactic(auto, unfolding(requests::specs::Devices::opened_on, requests::specs::Devices::setup_on), using(requests::proofs::AnswerTests::answer_none))]
fn opened_on(d: Device, o: Opening) -> Result<Setup, Refusal>
    ensures { result ≡ opened_on d o (first_holding (opening_rows d o)) }
{
    opening_answer(d, o)?;
    Ok(Setup {
        device: d,
        usable: o.usable,
        fixed: o.fixed,
        overflow: o.overflow,
    })
}

// The device with the letter's code, in the box of the number.
#[tactic(auto, unfolding(requests::specs::Devices::device_of))]
pub(crate) fn device_of(letter: u64, cbox: u64) -> Option<Device>
    ensures { result ≡ device_of letter cbox }
{
    devices(cbox)
        .iter()
        .copied()
        .find(|device| letter == letter_of(*device))
}

// What the opening opens, or why none.
#[tactic(auto, unfolding(requests::specs::Devices::opened_by))]
pub fn setup_of(o: Opening) -> Result<Setup, Refusal>
    ensures { result ≡ opened_by o }
{
    let device = device_of(o.device, o.cbox).ok_or(Refusal::BadOpening)?;
    opened_on(device, o)
}

// The opening that a setup is of: its device by its letter, and the rest as it stands.
#[tactic(auto, unfolding(requests::specs::Devices::opening_of))]
pub fn opening_of(s: Setup) -> Opening
    ensures { result ≡ opening_of s }
{
    Opening {
        device: letter_of(s.device),
        usable: s.usable,
        fixed: s.fixed,
        cbox: box_of(s.device),
        overflow: s.overflow,
    }
}
