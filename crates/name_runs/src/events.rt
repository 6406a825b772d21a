// Events of a device, all of whose counters are usable.
use checks::askings::unasked;
use checks::check::request_refusal;
use checks::devices::all_counters;
use requests::{CounterSet, Device, Request, Setup};

pub fn all_usable(device: Device) -> Setup {
    Setup {
        device,
        usable: all_counters(device),
        fixed: 0,
        overflow: unasked(),
    }
}

// Whether the event is accepted on counter 0.
pub fn is_accepted(setup: Setup, code: u8, mask: u8) -> bool {
    let event = Request::Event {
        code,
        mask,
        allowed: CounterSet(1),
    };
    request_refusal(setup, event).is_ok()
}
