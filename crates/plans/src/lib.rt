// What a plan gives a request, and what is left while requests are placed one after another.
#![tactic(auto)]

use requests::CounterSet;

// What a request is given: a counter, a counter and an RSP register, or two counters.
#[derive(Clone, Copy)]
pub enum Place {
    Counter(u64),
    WithRsp(u64, u64),
    Pair(u64, u64),
}

// What the requests placed so far leave.
#[derive(Clone, Copy)]
pub struct Room {
    pub free: CounterSet,
    pub rsp0: Option<u64>,
    pub rsp1: Option<u64>,
    pub packet: Option<(u64, u64)>,
}

// The filter words that requests ask for, as the registers would hold them, and whether they are more than the registers hold.
#[derive(Clone, Copy)]
pub struct Asked {
    pub first: Option<u64>,
    pub second: Option<u64>,
    pub packet: Option<(u64, u64)>,
    pub crowded: bool,
}
