// The record of each verb.
ghost use Rattle.std.specs.Prelude.{◌≡◌, ◌+◌, ◌≤◌, map};
ghost use Rattle.grammar.specs.Verbs.{ended, open_as, open_on, open_line, event_line, packet_line, offcore_line, latency_line, drop_line, turn_line};
ghost use Rattle.scanner.specs.Formats.{code_of};
ghost use Rattle.scanner.specs.LineNumbers.{AreFormats, Numbered};

use crate::Format::{self, Core, Decimal, Hex};
use crate::fields::Fields;
use crate::letters::device_at;
use crate::numbers::core_of;
use grammar::{Line, Parsed, Record};
use requests::{CounterSet, Device, Overflow, Request, Setup};

// A record of n fields in all, closed by a newline; or the field at fault.
#[tactic(auto, unfolding(requests::specs::Choice::both))]
fn ended(fields: &Fields, closed: bool, n: usize, asked: Record) -> Parsed
    ensures { result ≡ ended fields.now.text.now closed n asked }
{
    if fields.is_whole(closed, n) {
        return Ok(Line::Record(asked));
    }
    Err(n)
}

// The numbers of a line that has fields of these formats from field `first` on, and no others behind them; or the first field at fault.
fn numbers_of<const N: usize>(
    fields: &Fields,
    closed: bool,
    first: usize,
    formats: &[Format; N],
) -> Result<[u64; N], usize>
    requires { (first + N ≤ 8) × (N ≤ 5) × AreFormats formats.now }
    ensures { Numbered first (map code_of formats.now) fields.now.text.now closed result }
{
    let mut values = [0; N];
    for i in 0..N {
        values[i] = fields.number_at(first + i, formats[i]).ok_or(first + i)?;
    }
    let n = first + N;
    if fields.is_whole(closed, n) {
        return Ok(values);
    }
    Err(n)
}

// The record that opens a device with these numbers.
#[tactic(auto, unfolding(grammar::specs::Verbs::open_as))]
fn open_as(device: Device, usable: u64, fixed: u64, freeze: u64, core: u64) -> Record
    ensures { result ≡ open_as device usable fixed freeze core }
{
    let overflow = Overflow {
        freeze,
        core: core_of(core),
    };
    Record::Open(Setup {
        device,
        usable: CounterSet(usable),
        fixed,
        overflow,
    })
}

// `open` with a device that is known: on C the box stands before the last two numbers.
fn open_on(fields: &Fields, closed: bool, device: Device) -> Parsed
    ensures { result ≡ open_on fields.now.text.now closed device }
{
    if let Device::C(_) = device {
        let formats = [Decimal, Decimal, Decimal, Decimal, Core];
        let [usable, fixed, cbox, freeze, core] = numbers_of(fields, closed, 2, &formats)?;
        let record = open_as(Device::C(cbox), usable, fixed, freeze, core);
        return Ok(Line::Record(record));
    }
    let formats = [Decimal, Decimal, Decimal, Core];
    let [usable, fixed, freeze, core] = numbers_of(fields, closed, 2, &formats)?;
    let record = open_as(device, usable, fixed, freeze, core);
    Ok(Line::Record(record))
}

// `open` letter usable fixed, box on C, freeze core
#[tactic(auto, unfolding(grammar::specs::Verbs::open_line))]
pub fn open_line(fields: &Fields, closed: bool) -> Parsed
    ensures { result ≡ open_line fields.now.text.now closed }
{
    let device = device_at(fields, 1).ok_or(1usize)?;
    open_on(fields, closed, device)
}

// `event` id code(2) mask(2) allowed
pub fn event_line(fields: &Fields, closed: bool) -> Parsed
    ensures { result ≡ event_line fields.now.text.now closed }
{
    let formats = [Decimal, Hex(2), Hex(2), Decimal];
    let [id, code, mask, allowed] = numbers_of(fields, closed, 1, &formats)?;
    let request = Request::Event {
        code: code as u8,
        mask: mask as u8,
        allowed: CounterSet(allowed),
    };
    Ok(Line::Record(Record::Add { id, request }))
}

// `packet` id match(16) mask(16) allowed
pub fn packet_line(fields: &Fields, closed: bool) -> Parsed
    ensures { result ≡ packet_line fields.now.text.now closed }
{
    let formats = [Decimal, Hex(16), Hex(16), Decimal];
    let [id, match_word, mask_word, allowed] = numbers_of(fields, closed, 1, &formats)?;
    let request = Request::Packet {
        match_word,
        mask_word,
        allowed: CounterSet(allowed),
    };
    Ok(Line::Record(Record::Add { id, request }))
}

// `offcore` id word(16) allowed
pub fn offcore_line(fields: &Fields, closed: bool) -> Parsed
    ensures { result ≡ offcore_line fields.now.text.now closed }
{
    let [id, word, allowed] = numbers_of(fields, closed, 1, &[Decimal, Hex(16), Decimal])?;
    let request = Request::Offcore {
        word,
        allowed: CounterSet(allowed),
    };
    Ok(Line::Record(Record::Add { id, request }))
}

// `latency` id type(4) first second
pub fn latency_line(fields: &Fields, closed: bool) -> Parsed
    ensures { result ≡ latency_line fields.now.text.now closed }
{
    let formats = [Decimal, Hex(4), Decimal, Decimal];
    let [id, types, first, second] = numbers_of(fields, closed, 1, &formats)?;
    let request = Request::Latency {
        types: types as u16,
        first: CounterSet(first),
        second: CounterSet(second),
    };
    Ok(Line::Record(Record::Add { id, request }))
}

// `drop` id
#[tactic(auto, unfolding(grammar::specs::Verbs::drop_line))]
pub fn drop_line(fields: &Fields, closed: bool) -> Parsed
    ensures { result ≡ drop_line fields.now.text.now closed }
{
    let id = fields.number_at(1, Decimal).ok_or(1usize)?;
    ended(fields, closed, 2, Record::Drop { id })
}

// `turn`
#[tactic(auto, unfolding(grammar::specs::Verbs::turn_line))]
pub fn turn_line(fields: &Fields, closed: bool) -> Parsed
    ensures { result ≡ turn_line fields.now.text.now closed }
{
    ended(fields, closed, 1, Record::Turn)
}
