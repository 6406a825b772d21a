// The line of the lent records: each in full, but a vacant one as `v`, and several in a row as `v*COUNT`.
use requests::{CounterSet, Entry, Request};
use std::io;

// A record in full: its id, the kind of its request and its numbers.
fn record(rt: &impl Print, entry: &Entry) -> io::Result<()> {
    print!(rt; " {}", entry.id)?;
    match entry.request {
        Request::Event {
            code,
            mask,
            allowed,
        } => print!(rt; "/event/{code:X}/{mask:X}/{}", allowed.0),
        Request::Packet {
            match_word,
            mask_word,
            allowed,
        } => print!(rt; "/packet/{match_word:X}/{mask_word:X}/{}", allowed.0),
        Request::Offcore { word, allowed } => print!(rt; "/offcore/{word:X}/{}", allowed.0),
        Request::Latency {
            types,
            first,
            second,
        } => print!(rt; "/latency/{types:X}/{}/{}", first.0, second.0),
    }
}

// Whether a record is vacant, as an accepted open makes it.
fn is_vacant(entry: &Entry) -> bool {
    matches!(
        entry,
        Entry {
            id: 0,
            request: Request::Event {
                code: 0,
                mask: 0,
                allowed: CounterSet(0),
            },
        }
    )
}

// A record that is not vacant, or vacant ones in a row.
fn part(rt: &impl Print, part: &[Entry]) -> io::Result<()> {
    match part {
        [entry] if !is_vacant(entry) => record(rt, entry),
        [_] => print!(rt; " v"),
        _ => print!(rt; " v*{}", part.len()),
    }
}

pub fn rows_line(rt: &impl Print, rows: &[Entry]) -> io::Result<()> {
    print!(rt; "rows")?;
    for vacant_or_one in rows.chunk_by(|a, b| is_vacant(a) && is_vacant(b)) {
        part(rt, vacant_or_one)?;
    }
    println!(rt)
}
