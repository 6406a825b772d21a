// Calls with their answers printed.
use crate::print;
use checks::askings::unasked;
use checks::fields::request_fields;
use planner::add::add;
use planner::turn::turn;
use requests::{CounterSet, Opening, Request};
use sessions::Session;
use std::io;

// The letter of device G.
pub const G: u64 = b'G' as u64;

// An event that a set of counters is allowed for.
pub fn event(code: u8, mask: u8, allowed: u64) -> Request {
    Request::Event {
        code,
        mask,
        allowed: CounterSet(allowed),
    }
}

// The opening of a device with its fixed counters off, at box 0.
pub fn opening(device: u64, usable: u64) -> Opening {
    Opening {
        device,
        usable: CounterSet(usable),
        fixed: 0,
        cbox: 0,
        overflow: unasked(),
    }
}

// The session after an add.
pub fn added(rt: &impl Print, session: Session, id: u64, request: Request) -> io::Result<Session> {
    let answered = add(session, id, request);
    let fields = request_fields(session.setup.device, request);
    print::answer(rt, answered.answer, fields)?;
    Ok(answered.session)
}

// The session after a turn.
pub fn turned(rt: &impl Print, session: Session) -> io::Result<Session> {
    let mut list = [0; 44];
    let answered = turn(session, &mut list);
    print::turn(rt, &answered, &list)?;
    Ok(answered.session)
}
