// The line program: lines in, replies out, however the input is cut: into blocks, or into pieces that are taken whole or refused.
#![tactic(auto)]

use streams::Feed;

pub mod feeds;
mod newlines;
mod pieces;
pub mod stream;

// How far an unfinished line goes: the number of its bytes that are kept, and whether it is longer.
// Form: the two are the fields of `streams::Feed`, and its definitions let each be anything.
#[derive(Clone, Copy)]
struct Extent {
    pub used: usize,
    pub long: bool,
}

// What a block leaves: the state, the number of bytes taken from the block, and the number written.
#[derive(Clone, Copy)]
pub struct Fed {
    pub feed: Feed,
    pub taken: usize,
    pub written: usize,
}
