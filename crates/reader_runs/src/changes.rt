// One bit of one register's value changed, and read again.
ghost use Rattle.std.specs.Prelude.{◌<◌, ◌≤◌};

use crate::values::{REGISTERS, Register, changed};
use checks::devices::opening_of;
use layouts::{Reading, RegisterValues};
use registers::reader::read;
use requests::{Refusal, Setup};

// What comes of a change. A value that is looked at is accepted, refused with the reader's own refusal, or with another; where it is
// not looked at, the reading is the same or another.
#[derive(Clone, Copy, PartialEq, Eq)]
pub enum Outcome {
    Accepted,
    Refused,
    OtherRefusal,
    Same,
    Another,
}

// A plan's setup, the values of the registers, and what the reader tells of them.
#[derive(Clone, Copy)]
pub struct Run {
    pub setup: Setup,
    pub values: RegisterValues,
    pub told: Reading,
}

// What comes of a value that is looked at.
fn answered(after: Reading) -> Outcome {
    match after {
        Ok(_) => Outcome::Accepted,
        Err(Refusal::NotLeftByPlan) => Outcome::Refused,
        Err(_) => Outcome::OtherRefusal,
    }
}

// What comes of a value that is not looked at: the same, where both are accepted and tell the same of each counter.
fn compared(told: Reading, after: Reading) -> Outcome {
    match (told, after) {
        (Ok(told), Ok(after)) if told == after => Outcome::Same,
        _ => Outcome::Another,
    }
}

impl Run {
    pub fn new(setup: Setup, values: RegisterValues) -> Run {
        let told = read(opening_of(setup), values);
        Run {
            setup,
            values,
            told,
        }
    }

    // What comes of the change of a bit.
    fn outcome(&self, register: Register, bit: u32) -> Outcome
        requires { bit < 64 }
    {
        let after = read(opening_of(self.setup), changed(self.values, register, bit));
        if register.looked_at(self.setup, self.values) {
            answered(after)
        } else {
            compared(self.told, after)
        }
    }

    // How many bits of a register have the outcome, where the device has the register.
    fn bits(&self, register: Register, wanted: Outcome) -> u64
        ensures { result ≤ 64 }
    {
        let mut found = 0;
        if register.is_on(self.setup.device) {
            for bit in 0..64 {
                if self.outcome(register, bit) == wanted {
                    found += 1;
                }
            }
        }
        found
    }

    // How many bits of all registers of the device have the outcome.
    pub fn count(&self, wanted: Outcome) -> u64
        ensures { result ≤ 896 }
    {
        let mut total = 0;
        for register in REGISTERS {
            total += self.bits(register, wanted);
        }
        total
    }
}
