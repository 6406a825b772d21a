// What a request is, what a session is opened with, and how a call is answered.
#![tactic(auto)]

// The number of counters that arrays have room for.
pub const CAPACITY: usize = 8;

// A set of counters: counter k is 2^k.
#[derive(Clone, Copy)]
pub struct CounterSet(pub u64);

// G: one Goldmont core. S: S-Box 0 of the Xeon 7500. C: one of its C-Boxes, by number. B: one Sandy Bridge core.
#[derive(Clone, Copy)]
pub enum Device {
    G,
    S,
    C(u64),
    B,
}

// What the overflow of a counter does: with freeze 1 it stops all uncore counting, with a core it interrupts that core.
#[derive(Clone, Copy)]
pub struct Overflow {
    pub freeze: u64,
    pub core: Option<u64>,
}

// What open is given: the letter of a device, as a number, the usable counters, the enables of the fixed counters, the number of the
// C-Box, 0 on other devices, and what an overflow does.
#[derive(Clone, Copy)]
pub struct Opening {
    pub device: u64,
    pub usable: CounterSet,
    pub fixed: u64,
    pub cbox: u64,
    pub overflow: Overflow,
}

// What a session is opened with, its device known by its letter. A session keeps that of its accepted open.
#[derive(Clone, Copy)]
pub struct Setup {
    pub device: Device,
    pub usable: CounterSet,
    pub fixed: u64,
    pub overflow: Overflow,
}

// The four kinds of request.
#[derive(Clone, Copy)]
pub enum Request {
    Event {
        code: u8,
        mask: u8,
        allowed: CounterSet,
    },
    Packet {
        match_word: u64,
        mask_word: u64,
        allowed: CounterSet,
    },
    Offcore {
        word: u64,
        allowed: CounterSet,
    },
    Latency {
        types: u16,
        first: CounterSet,
        second: CounterSet,
    },
}

// What a catalogue lists of a code and a unit mask: the code, and the two as a pair.
#[derive(Clone, Copy)]
pub struct Listing {
    pub code: bool,
    pub pair: bool,
}

// Where an event runs: on any counter, on one only, or on one with every other counter quiet.
#[derive(Clone, Copy)]
pub enum EventRule {
    Anywhere,
    OnlyOn(u64),
    AloneOn(u64),
}

// An entry of the queue.
#[derive(Clone, Copy)]
pub struct Entry {
    pub id: u64,
    pub request: Request,
}

// Why a call is refused, in the order of the numbers 1 to 15.
#[derive(Clone, Copy)]
pub enum Refusal {
    NotInGrammar,
    CallOrder,
    BadOpening,
    BadId,
    IdWaiting,
    IdNotWaiting,
    KindNotOnDevice,
    NotListed,
    Incomplete,
    OutOfRange,
    Conflicting,
    NoPlanAlone,
    QueueFull,
    SliceTooShort,
    NotLeftByPlan,
}

// The answer of a call.
pub type Answer = Result<(), Refusal>;

// A refusal, and the field at fault, counted from 0 at the verb of the line that makes the call.
#[derive(Clone, Copy)]
pub struct Fault {
    pub refusal: Refusal,
    pub field: usize,
}

// The fields of a call that are at fault under 3, 10 and 9, which alone depend on what the call was given; 0 for a number that it never gets.
#[derive(Clone, Copy)]
pub struct Fields {
    pub opening: usize,
    pub range: usize,
    pub lack: usize,
}
