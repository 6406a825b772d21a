// The first plan by a search, and the tests that spare it.
#![tactic(auto)]

mod counters;
pub mod extend;
pub mod filter_words;
mod filters;
pub mod first_plan;
mod latency;
mod left;
mod offcore;
pub mod packed;
pub mod plan_rows;
pub mod reach;
mod remaining;
pub mod rows;
mod ruled;

// A request as a row of four numbers: its kind, and what it holds.
#[derive(Clone, Copy)]
pub struct Row {
    pub kind: u64,
    pub a: u64,
    pub b: u64,
    pub c: u64,
}
