// Prints sessions and answers.
use checks::faults::field_of;
use checks::fields::no_fields;
use checks::refusals::number_of;
use plans::Place;
use requests::{Answer, Device, Fields, Request};
use sessions::{Session, TurnAnswered};
use std::io;

// `ok`, or `no`, the number and the field at fault of a call with these fields.
pub fn answer(rt: &impl Print, answer: Answer, fields: Fields) -> io::Result<()> {
    match answer {
        Ok(()) => println!(rt; "ok"),
        Err(refusal) => {
            let (number, field) = (number_of(refusal), field_of(refusal, fields));
            println!(rt; "no {number} {field}")
        }
    }
}

// A request: its kind and its numbers.
fn request(rt: &impl Print, request: Request) -> io::Result<()> {
    match request {
        Request::Event {
            code,
            mask,
            allowed,
        } => print!(rt; "event {code:02x} {mask:02x} {}", allowed.0),
        Request::Packet {
            match_word,
            mask_word,
            allowed,
        } => print!(rt; "packet {match_word:016x} {mask_word:016x} {}", allowed.0),
        Request::Offcore { word, allowed } => print!(rt; "offcore {word:016x} {}", allowed.0),
        Request::Latency {
            types,
            first,
            second,
        } => print!(rt; "latency {types:04x} {} {}", first.0, second.0),
    }
}

fn letter(device: Device) -> &'static str {
    match device {
        Device::G => "G",
        Device::S => "S",
        Device::C(_) => "C",
        Device::B => "B",
    }
}

// A session: what it was opened with, and its queue, an entry a line.
pub fn session(rt: &impl Print, session: &Session) -> io::Result<()> {
    if session.opened {
        let setup = session.setup;
        let usable = setup.usable.0;
        println!(rt;
            "session {} {usable} len {}",
            letter(setup.device),
            session.len
        )?;
    } else {
        println!(rt; "session not open")?;
    }
    for entry in session.queue.iter().take(session.len) {
        print!(rt; "  {} ", entry.id)?;
        request(rt, entry.request)?;
        println!(rt)?;
    }
    Ok(())
}

// What a taken request is given: counter and register, a latency request on two lines.
fn place(rt: &impl Print, id: u64, place: Place) -> io::Result<()> {
    match place {
        Place::Counter(k) => println!(rt; "take {id} {k} -"),
        Place::WithRsp(k, register) => println!(rt; "take {id} {k} {register}"),
        Place::Pair(j, k) => println!(rt; "take {id} {j} 0\ntake {id} {k} 1"),
    }
}

// A turn: its plan, its writes, and its answer.
pub fn turn(rt: &impl Print, turn: &TurnAnswered, list: &[u64]) -> io::Result<()> {
    for assigned in turn.plan.iter().take(turn.taken) {
        place(rt, assigned.id, assigned.place)?;
    }
    let (writes, _) = list.as_chunks::<2>();
    for [address, value] in writes.iter().take(turn.writes) {
        println!(rt; "set {address:04x} {value:016x}")?;
    }
    answer(rt, turn.answer, no_fields())
}
