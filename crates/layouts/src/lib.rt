// What is written into registers, and what is read from them: the types of the register tables, the writer and the reader.
#![tactic(auto)]

use requests::{CAPACITY, CounterSet, Refusal};

// Where a device's registers are: counter k's control is at control + step * k, its count at counter + step * k.
#[derive(Clone, Copy)]
pub struct Layout {
    pub global: u64,
    pub control: u64,
    pub counter: u64,
    pub step: u64,
}

// The register values of a plan: the used counters, the control word of each counter, the words of the RSP registers, and the match and the mask
// of a packet, if there is one.
#[derive(Clone, Copy)]
pub struct Settings {
    pub used: CounterSet,
    pub words: [u64; CAPACITY],
    pub rsp0: u64,
    pub rsp1: u64,
    pub packet: Option<(u64, u64)>,
}

// The values of the filter registers of G and S, and none of C. Those that the device has not are not looked at.
#[derive(Clone, Copy)]
pub struct FilterValues {
    pub rsp0: u64,
    pub rsp1: u64,
    pub mm_cfg: u64,
    pub match_word: u64,
    pub mask_word: u64,
}

// What the reader is given. Control values at and past the device's number of counters are not looked at, nor is the value of the U-Box
// where nothing is asked of it, nor that of IA32_PEBS_ENABLE on a device that has no such register.
#[derive(Clone, Copy)]
pub struct RegisterValues {
    pub control: [u64; CAPACITY],
    pub filters: FilterValues,
    pub global: u64,
    pub ubox: u64,
    pub pebs: u64,
}

// The filter of an event that is counted.
#[derive(Clone, Copy, PartialEq, Eq)]
pub enum FilterRead {
    NoFilter,
    Rsp(u64, u64),
    MatchMask(u64, u64),
}

// What a counter does.
#[derive(Clone, Copy, PartialEq, Eq)]
pub enum CounterState {
    NotOurs,
    Off,
    Counts {
        code: u8,
        mask: u8,
        filter: FilterRead,
    },
}

// The reader's answer: the state of each counter, or the refusal.
pub type Reading = Result<[CounterState; CAPACITY], Refusal>;
