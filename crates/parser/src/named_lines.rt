// Requests by name.
ghost use Rattle.std.specs.Prelude.{◌≡◌};
ghost use Rattle.names.specs.Lists.{lists_of};
ghost use Rattle.parser.specs.ParseWith.{add_named, named_line};

use grammar::{Line, Parsed};
use names::BothLists;
use names::event_names::is_name;
use names::lists::lists_formed;
use names::named::request_named;
use requests::{CounterSet, Device};
use scanner::Format::Decimal;
use scanner::fields::Fields;

// What a request by name asks for: one add; nothing where a list is ill-formed, which is found before any search.
fn add_named(name: &[u8], id: u64, allowed: CounterSet, device: Device, lists: &BothLists) -> Parsed
    ensures { result ≡ add_named (lists_of lists.now) device name.now id allowed }
{
    if lists_formed(lists) {
        let request = request_named(name, lists, device, allowed);
        return Ok(Line::Named { id, request });
    }
    Err(0)
}

// `named` id name allowed
#[tactic(auto, unfolding(crate::specs::ParseWith::named_line))]
pub fn named_line(fields: &Fields, closed: bool, device: Device, lists: &BothLists) -> Parsed
    ensures { result ≡ named_line (lists_of lists.now) device fields.now.text.now closed }
{
    let id = fields.number_at(1, Decimal).ok_or(1usize)?;
    let name = fields.field(2);
    if !is_name(name) {
        return Err(2);
    }
    let allowed = fields.number_at(3, Decimal).ok_or(3usize)?;
    if !fields.is_whole(closed, 4) {
        return Err(4);
    }
    add_named(name, id, CounterSet(allowed), device, lists)
}
