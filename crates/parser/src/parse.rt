// Lines and texts to what they ask for.
ghost use Rattle.std.specs.Prelude.{◌≡◌};
ghost use Rattle.grammar.specs.Parse.{too_long_lem, is_closed, text_length};
ghost use Rattle.names.specs.Lists.{NameLists};
ghost use Rattle.parser.specs.ParseWith.{parse_text_with, parse_line_with};

use crate::verbs::record_with;
use grammar::{LONGEST, Parsed};
use names::BothLists;
use requests::Device;
use scanner::fields::Fields;

// A record is none where the line is too long, nor is a request by name; at fault is then field n.
#[tactic(auto, unfolding(grammar::specs::Parse::too_long_lem))]
fn too_long(parsed: Parsed, n: usize) -> Parsed
    ensures { result ≡ too_long_lem parsed n }
{
    parsed?;
    Err(n)
}

// What a text asks for on a device, closed by a newline or not, whole or the first bytes of a longer one.
#[tactic(auto, unfolding(crate::specs::ParseWith::parse_text_with))]
pub fn parse_text<'a>(
    text: &[u8],
    closed: bool,
    long: bool,
    device: Device,
    site: &'a [u8],
    house: &'a [u8],
) -> Parsed
    ensures { result ≡ parse_text_with (record { site = site.now; house = house.now }) device text.now closed long }
{
    let fields = Fields::of(text);
    let parsed = record_with(&fields, closed, device, &BothLists { site, house });
    if long {
        return too_long(parsed, fields.count);
    }
    parsed
}

// Whether the line ends with a newline.
#[tactic(auto, unfolding(grammar::specs::Parse::is_closed, grammar::specs::Text::newline))]
fn is_closed(line: &[u8]) -> bool
    ensures { result ≡ is_closed line.now }
{
    line.last() == Some(&b'\n')
}

// The number of its bytes without it.
#[tactic(auto, unfolding(grammar::specs::Parse::text_length))]
fn text_length(line: &[u8], closed: bool) -> usize
    requires { closed ≡ is_closed line.now }
    ensures { result ≡ text_length line.now }
{
    if closed {
        return line.len() - 1;
    }
    line.len()
}

// What a line asks for on a device.
pub fn parse_line<'a>(line: &[u8], device: Device, site: &'a [u8], house: &'a [u8]) -> Parsed
    ensures { result ≡ parse_line_with (record { site = site.now; house = house.now }) device line.now }
{
    let closed = is_closed(line);
    let n = text_length(line, closed);
    let text = &line[..n.min(LONGEST)];
    parse_text(text, closed, LONGEST < n, device, site, house)
}
