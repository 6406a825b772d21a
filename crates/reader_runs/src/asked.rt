// The requests of the plans.
use requests::{CounterSet, Request};

// Every counter of G, S or B.
const EVERY: CounterSet = CounterSet(15);

// Every counter of a C-Box.
const EVERY_ON_C: CounterSet = CounterSet(63);

fn event_on(allowed: CounterSet, code: u8, mask: u8) -> Request {
    Request::Event {
        code,
        mask,
        allowed,
    }
}

pub fn event(code: u8, mask: u8) -> Request {
    event_on(EVERY, code, mask)
}

pub fn cbox_event(code: u8, mask: u8) -> Request {
    event_on(EVERY_ON_C, code, mask)
}

pub fn offcore(word: u64) -> Request {
    Request::Offcore {
        word,
        allowed: EVERY,
    }
}

pub fn latency(types: u16) -> Request {
    Request::Latency {
        types,
        first: EVERY,
        second: EVERY,
    }
}

pub fn packet() -> Request {
    Request::Packet {
        match_word: 0x0123_4567_89AB_CDEF,
        mask_word: 0x0000_0000_FFFF_FFFF,
        allowed: EVERY,
    }
}
