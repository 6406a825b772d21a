// Calls on a session with nonsense in it.
use crate::calls::{G, added, event, opening, turned};
use crate::print;
use checks::askings::unasked;
use checks::fields::{no_fields, opening_fields};
use planner::drop::drop_request;
use planner::open::open;
use requests::{CounterSet, Device, Entry, Request, Setup};
use sessions::Session;
use std::io;

const ALL: u64 = u64::MAX;

// A setup that no open takes; requests of other devices, ill-formed, under equal ids and the id 0; and a length past the array.
fn nonsense() -> Session {
    let word = Request::Offcore {
        word: ALL,
        allowed: CounterSet(ALL),
    };
    let types = Request::Latency {
        types: 0xFFFF,
        first: CounterSet(4),
        second: CounterSet(ALL),
    };
    let entry = Entry {
        id: 7,
        request: word,
    };
    let mut queue = [entry; 16];
    queue[1].request = types;
    queue[2] = Entry {
        id: 0,
        request: event(0xFF, 0xFF, 8),
    };
    let setup = Setup {
        device: Device::S,
        usable: CounterSet(ALL),
        fixed: ALL,
        overflow: unasked(),
    };
    Session {
        opened: true,
        setup,
        queue,
        len: 1000,
    }
}

pub fn run(rt: &impl Print) -> io::Result<()> {
    let session = nonsense();
    print::session(rt, &session)?;
    let again = opening(G, 15);
    let reopened = open(session, again);
    print::answer(rt, reopened.answer, opening_fields(again))?;
    let same = added(rt, session, 8, event(0x52, 0x00, 1))?;
    let after = turned(rt, same)?;
    print::session(rt, &after)?;
    let dropped = drop_request(after, 7);
    print::answer(rt, dropped.answer, no_fields())?;
    print::session(rt, &dropped.session)?;
    turned(rt, dropped.session)?;
    Ok(())
}
