// The fields of each call that are at fault under 3, 10 and 9: all that the field of a refusal needs to know of what the call was given.
ghost use Rattle.std.specs.Prelude.{◌≡◌};
ghost use Rattle.requests.specs.Faults.{freeze_field, range_field, lack_field, request_fields, opening_field, asking_field, fields_on, opening_fields, turns_fields, no_fields};

use crate::bits::{MASK, MATCH, PERMITTED, TYPES, only_bits};
use crate::check::{mask_unlisted, too_wide};
use crate::devices::{all_fixed, box_count, device_of, usable_set};
use requests::{CounterSet, Device, Fields, Opening, Request};

// Where a request is refused with 10: the mask of an event, a word, the types of a latency request, or an allowed set.
#[tactic(auto, unfolding(requests::specs::Faults::range_field, requests::specs::Choice::both), using(requests::specs::Masks::match_mask, requests::specs::Masks::mask_mask, requests::specs::Masks::permitted_mask, requests::specs::Masks::type_mask))]
fn range_field(device: Device, request: Request) -> usize
    ensures { result ≡ range_field device request }
{
    match request {
        Request::Event { code, mask, .. } => {
            if mask != 0 && mask_unlisted(device, code, mask) {
                3
            } else {
                4
            }
        }
        Request::Packet {
            match_word,
            mask_word,
            ..
        } => {
            if !only_bits(MATCH, match_word) {
                2
            } else if !only_bits(MASK, mask_word) {
                3
            } else {
                4
            }
        }
        Request::Offcore { word, .. } => { if !only_bits(PERMITTED, word) { 2 } else { 3 } }
        Request::Latency { types, first, .. } => {
            if !only_bits(TYPES, u64::from(types)) {
                2
            } else if too_wide(device, first) {
                3
            } else {
                4
            }
        }
    }
}

// Where a request is refused with 9.
#[tactic(auto, unfolding(requests::specs::Faults::lack_field))]
fn lack_field(request: Request) -> usize
    ensures { result ≡ lack_field request }
{
    match request {
        Request::Event { .. } => 3,
        Request::Packet { .. } => 0,
        Request::Offcore { .. } | Request::Latency { .. } => 2,
    }
}

// The fields of a request that is added.
#[tactic(auto, unfolding(requests::specs::Faults::request_fields))]
pub fn request_fields(device: Device, request: Request) -> Fields
    ensures { result ≡ request_fields device request }
{
    Fields {
        opening: 0,
        range: range_field(device, request),
        lack: lack_field(request),
    }
}

// The field of the freeze: behind the box, where the device has several.
#[tactic(auto, unfolding(requests::specs::Faults::freeze_field))]
fn freeze_field(d: Device) -> usize
    ensures { result ≡ freeze_field d }
{
    if 1 < box_count(d) { 5 } else { 4 }
}

// Where the device refuses an opening with 3: the usable set, the fixed enables, or the box.
#[tactic(auto, unfolding(requests::specs::Faults::opening_field))]
fn opening_field(d: Device, o: Opening) -> usize
    ensures { result ≡ opening_field d o }
{
    if !usable_set(d, o.usable) {
        2
    } else if o.fixed > all_fixed(d) {
        3
    } else {
        4
    }
}

// Where the device refuses an opening with 10: the freeze, or the core behind it.
#[tactic(auto, unfolding(requests::specs::Faults::asking_field), using(requests::proofs::FaultRows::freeze_small))]
fn asking_field(d: Device, o: Opening) -> usize
    ensures { result ≡ asking_field d o }
{
    let freeze = freeze_field(d);
    if o.overflow.freeze <= 1 {
        freeze + 1
    } else {
        freeze
    }
}

// The fields of an open with the device's letter.
#[tactic(auto, unfolding(requests::specs::Faults::fields_on))]
fn fields_on(d: Device, o: Opening) -> Fields
    ensures { result ≡ fields_on d o }
{
    Fields {
        opening: opening_field(d, o),
        range: asking_field(d, o),
        lack: 0,
    }
}

// The fields of an open: the letter, where no device has it.
#[tactic(auto, unfolding(requests::specs::Faults::opening_fields, requests::specs::Faults::no_fields))]
pub fn opening_fields(o: Opening) -> Fields
    ensures { result ≡ opening_fields o }
{
    match device_of(o.device, o.cbox) {
        Some(device) => fields_on(device, o),
        None => Fields {
            opening: 1,
            ..no_fields()
        },
    }
}

// The fields of several turns at once: their number.
#[tactic(auto, unfolding(requests::specs::Faults::turns_fields, requests::specs::Faults::no_fields))]
pub fn turns_fields() -> Fields
    ensures { result ≡ turns_fields }
{
    Fields {
        range: 1,
        ..no_fields()
    }
}

// The fields of a drop or a turn.
#[tactic(auto, unfolding(requests::specs::Faults::no_fields))]
pub fn no_fields() -> Fields
    ensures { result ≡ no_fields }
{
    Fields {
        opening: 0,
        range: 0,
        lack: 0,
    }
}
