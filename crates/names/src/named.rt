// The request that a name stands for.
ghost use Rattle.std.specs.Prelude.{◌≡◌, true};
ghost use Rattle.names.specs.Lists.{lists_of, lists_formed};
ghost use Rattle.names.specs.Named.{unlisted, foreign, request_for, request_named, named_field};

use crate::look_up::row_named;
use crate::rows::row_of;
use crate::{BothLists, Row};
use checks::devices::{letter_of, packets_on};
use requests::{CounterSet, Device, Request};

// An event that no device lists.
#[tactic(auto, unfolding(crate::specs::Named::unlisted))]
fn unlisted(allowed: CounterSet) -> Request
    ensures { result ≡ unlisted allowed }
{
    Request::Event {
        code: 0xFF,
        mask: 0xFF,
        allowed,
    }
}

// A request of a kind that the device does not have.
#[tactic(auto, unfolding(crate::specs::Named::foreign))]
fn foreign(device: Device, allowed: CounterSet) -> Request
    ensures { result ≡ foreign device allowed }
{
    if packets_on(device) {
        return Request::Offcore { word: 0, allowed };
    }
    Request::Packet {
        match_word: 0,
        mask_word: 0,
        allowed,
    }
}

// The request of a row on a device.
#[tactic(auto, unfolding(crate::specs::Named::request_for))]
fn request_for(row: Option<Row>, device: Device, allowed: CounterSet) -> Request
    ensures { result ≡ request_for row device allowed }
{
    let Some(row) = row else {
        return unlisted(allowed);
    };
    if letter_of(row.device) != letter_of(device) {
        return foreign(device, allowed);
    }
    Request::Event {
        code: row.code,
        mask: row.mask,
        allowed,
    }
}

// The request of a name on a device: the event that its row says; where the row is for another device, one that is refused with
// 7; where there is none, one that is refused with 8.
#[tactic(auto, unfolding(crate::specs::Named::request_named))]
pub fn request_named(name: &[u8], lists: &BothLists, device: Device, allowed: CounterSet) -> Request
    requires { lists_formed (lists_of lists.now) ≡ true }
    ensures { result ≡ request_named (lists_of lists.now) name.now device allowed }
{
    let row = row_named(name, lists).and_then(row_of);
    request_for(row, device, allowed)
}

// The field of a named line for a field of the event that its name stands for.
#[tactic(auto, unfolding(crate::specs::Named::named_field))]
pub fn named_field(field: usize) -> usize
    ensures { result ≡ named_field field }
{
    if field <= 2 {
        return field;
    }
    field - 1
}
