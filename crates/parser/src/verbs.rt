// What a text asks for, by its verb.
ghost use Rattle.std.specs.Prelude.{◌≡◌};
ghost use Rattle.grammar.specs.Verbs.{record_of};
ghost use Rattle.names.specs.Lists.{lists_of};
ghost use Rattle.parser.specs.ParseWith.{record_with};

use crate::named_lines::named_line;
use grammar::Parsed;
use names::BothLists;
use requests::Device;
use scanner::fields::Fields;
use scanner::verbs::{
    drop_line, event_line, latency_line, offcore_line, open_line, packet_line, turn_line,
};

// The record of a text, or the field at fault.
// Form: (c) a match on the words: its last arm splits into 36 places by bytes, with no facts there that an answer may cite.
#[tactic(auto, unfolding(grammar::specs::Verbs::record_of, grammar::specs::Verbs::verbs, grammar::specs::Verbs::has_verb, grammar::specs::Text::bytes, requests::specs::Choice::first_holding))]
fn record_of(fields: &Fields, closed: bool) -> Parsed
    ensures { result ≡ record_of fields.now.text.now closed }
{
    if fields.is_word(0, b"open") {
        return open_line(fields, closed);
    }
    if fields.is_word(0, b"event") {
        return event_line(fields, closed);
    }
    if fields.is_word(0, b"packet") {
        return packet_line(fields, closed);
    }
    if fields.is_word(0, b"offcore") {
        return offcore_line(fields, closed);
    }
    if fields.is_word(0, b"latency") {
        return latency_line(fields, closed);
    }
    if fields.is_word(0, b"drop") {
        return drop_line(fields, closed);
    }
    if fields.is_word(0, b"turn") {
        return turn_line(fields, closed);
    }
    Err(0)
}

// What a text asks for on a device. Only a request by name looks at the lists.
#[tactic(auto, unfolding(crate::specs::ParseWith::record_with, grammar::specs::Verbs::has_verb, grammar::specs::Text::bytes))]
pub fn record_with(fields: &Fields, closed: bool, device: Device, lists: &BothLists) -> Parsed
    ensures { result ≡ record_with (lists_of lists.now) device fields.now.text.now closed }
{
    if fields.is_word(0, b"named") {
        return named_line(fields, closed, device, lists);
    }
    record_of(fields, closed)
}
