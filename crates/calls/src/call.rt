// The call of a line.
use crate::words::Words;
use layouts::{FilterValues, RegisterValues};
use requests::{CAPACITY, Entry, Opening, Overflow, Request};

// A call, with the lengths of the slices that it is lent. Those of the lent session begin with `r`, and those of the text in pieces are
// `Piece`, with the text as it is written, and `End`.
#[derive(Clone, Copy)]
pub enum Call<'a> {
    New,
    Open(Opening),
    Add(Entry),
    Drop(u64),
    Turn(usize),
    Turns {
        turns: usize,
        list: usize,
        ends: usize,
    },
    Read(Opening, RegisterValues),
    Lend(usize),
    Write(usize, Entry),
    LentOpen(Opening),
    LentAdd(Entry),
    LentDrop(u64),
    LentTurn(usize),
    LentRun {
        turns: u64,
        list: usize,
    },
    Piece(usize, &'a [u8]),
    End(usize),
}

fn opening(words: &mut Words) -> Option<Opening> {
    Some(Opening {
        device: words.letter()?,
        usable: words.set()?,
        fixed: words.decimal()?,
        cbox: words.decimal()?,
        overflow: Overflow {
            freeze: words.decimal()?,
            core: words.core()?,
        },
    })
}

// A request: its kind and its numbers.
fn request(words: &mut Words) -> Option<Request> {
    match words.next()? {
        b"event" => Some(Request::Event {
            code: u8::try_from(words.hex()?).ok()?,
            mask: u8::try_from(words.hex()?).ok()?,
            allowed: words.set()?,
        }),
        b"packet" => Some(Request::Packet {
            match_word: words.hex()?,
            mask_word: words.hex()?,
            allowed: words.set()?,
        }),
        b"offcore" => Some(Request::Offcore {
            word: words.hex()?,
            allowed: words.set()?,
        }),
        b"latency" => Some(Request::Latency {
            types: u16::try_from(words.hex()?).ok()?,
            first: words.set()?,
            second: words.set()?,
        }),
        _ => None,
    }
}

// An id and a request.
fn entry(words: &mut Words) -> Option<Entry> {
    Some(Entry {
        id: words.decimal()?,
        request: request(words)?,
    })
}

// What the reader is given: six control values, the filter registers of G or S, and the others.
fn values(words: &mut Words) -> Option<RegisterValues> {
    let mut control = [0; CAPACITY];
    for k in 0..6 {
        control[k] = words.hex()?;
    }
    let first = words.hex()?;
    let second = words.hex()?;
    Some(RegisterValues {
        control,
        filters: FilterValues {
            rsp0: first,
            rsp1: second,
            mm_cfg: first,
            match_word: second,
            mask_word: words.hex()?,
        },
        global: words.hex()?,
        ubox: words.hex()?,
        pebs: words.hex()?,
    })
}

// A length, and the text that stands behind it and one blank, `#` and blanks too.
fn piece(mut words: Words) -> Option<Call> {
    let room = words.length()?;
    match words.0 {
        [] => Some(Call::Piece(room, b"")),
        [b' ', text @ ..] => Some(Call::Piece(room, text)),
        _ => None,
    }
}

// The call with this first word.
pub fn call_of<'a>(verb: &[u8], mut words: Words<'a>) -> Option<Call<'a>> {
    let call = match verb {
        b"new" => Call::New,
        b"open" => Call::Open(opening(&mut words)?),
        b"add" => Call::Add(entry(&mut words)?),
        b"drop" => Call::Drop(words.decimal()?),
        b"turn" => Call::Turn(words.length()?),
        b"turns" => Call::Turns {
            turns: words.length()?,
            list: words.length()?,
            ends: words.length()?,
        },
        b"read" => Call::Read(opening(&mut words)?, values(&mut words)?),
        b"rows" => Call::Lend(words.length()?),
        b"row" => Call::Write(words.length()?, entry(&mut words)?),
        b"ropen" => Call::LentOpen(opening(&mut words)?),
        b"radd" => Call::LentAdd(entry(&mut words)?),
        b"rdrop" => Call::LentDrop(words.decimal()?),
        b"rturn" => Call::LentTurn(words.length()?),
        b"rrun" => Call::LentRun {
            turns: words.decimal()?,
            list: words.length()?,
        },
        b"piece" => return piece(words),
        b"end" => Call::End(words.length()?),
        _ => return None,
    };
    words.end()?;
    Some(call)
}
