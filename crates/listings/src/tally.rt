// The events of a device, counted by the number that refuses them, and all of these numbers in one sum.
use checks::askings::unasked;
use checks::check::request_refusal;
use checks::devices::all_counters;
use checks::refusals::number_of;
use requests::{CounterSet, Device, Request, Setup};
use std::fmt;

// How many events are accepted, and how many are refused with 8, 9 and 10. In the sum each number moves those before it by a factor.
#[derive(Clone, Copy, Default)]
pub struct Tally {
    accepted: u64,
    unlisted: u64,
    incomplete: u64,
    range: u64,
    sum: u64,
}

// The sum is a number below this prime.
const PRIME: u64 = 65521;

const FACTOR: u64 = 31;

// The number that refuses an event on counter 0, or 0.
fn number(setup: Setup, code: u8, mask: u8) -> u64 {
    let event = Request::Event {
        code,
        mask,
        allowed: CounterSet(1),
    };
    match request_refusal(setup, event) {
        Ok(()) => 0,
        Err(refusal) => number_of(refusal),
    }
}

impl Tally {
    // Counts an event with the number that refuses it.
    fn count(&mut self, number: u64) {
        match number {
            0 => self.accepted = self.accepted.wrapping_add(1),
            8 => self.unlisted = self.unlisted.wrapping_add(1),
            9 => self.incomplete = self.incomplete.wrapping_add(1),
            10 => self.range = self.range.wrapping_add(1),
            _ => {}
        }
        self.sum = (self.sum % PRIME * FACTOR + number % PRIME) % PRIME;
    }

    // The tally of a device, all of whose counters are usable.
    pub fn of(device: Device) -> Tally {
        let setup = Setup {
            device,
            usable: all_counters(device),
            fixed: 0,
            overflow: unasked(),
        };
        let mut tally = Tally::default();
        for code in 0..=u8::MAX {
            for mask in 0..=u8::MAX {
                tally.count(number(setup, code, mask));
            }
        }
        tally
    }
}

impl fmt::Display for Tally {
    fn fmt<W: fmt::Write>(&self, f: &mut fmt::Formatter<W>) -> fmt::Result {
        write!(
            f,
            "accepted {} unlisted {} incomplete {} range {} sum {}",
            self.accepted, self.unlisted, self.incomplete, self.range, self.sum
        )
    }
}
