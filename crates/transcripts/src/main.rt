// Four long mixed transcripts, one for each device, the two examples, one with fixed counters on, one that freezes and interrupts, one of a lone
// request among fifteen others, eight of single turns, and fourteen of requests that wait behind events which allow every usable counter, each in
// a session of its own.
// The blocks are short and the output has room for little more than one reply, so lines are cut, and blocks are answered in parts.
#![tactic(auto)]

use descriptors::told::{Tell, fail};
use std::fs;
use std::io::Write;
use std::rt::{Clock, Files};

// The files, in the order in which they are answered.
const FILES: [&str; 31] = [
    "g.txt",
    "s.txt",
    "lab.txt",
    "field.txt",
    "clock.txt",
    "c.txt",
    "freeze.txt",
    "b.txt",
    "lone.txt",
    "single_c_box.txt",
    "single_empty_queue.txt",
    "single_latency.txt",
    "single_narrow.txt",
    "single_no_such_line.txt",
    "single_packets.txt",
    "single_sixteen.txt",
    "single_two_in_turn.txt",
    "shorter_three_ahead.txt",
    "shorter_four_ahead.txt",
    "shorter_eight_ahead_offcore.txt",
    "shorter_fifteen_ahead.txt",
    "shorter_two_usable.txt",
    "shorter_one_usable.txt",
    "shorter_fifteen_ahead_one_usable.txt",
    "shorter_one_dropped.txt",
    "shorter_added_behind.txt",
    "shorter_c_box.txt",
    "shorter_s_packet.txt",
    "shorter_latency_not_meant.txt",
    "shorter_pinned_not_meant.txt",
    "shorter_b_keeps_the_old.txt",
];

// Answers a file's lines, with no names.
fn answer_file<H: Files + Clock + Tell, W: Write>(rt: &H, output: &mut W, path: &str) {
    let mut input = match fs::open(rt, path) {
        Ok(input) => input,
        Err(error) => {
            fail(rt, path.as_bytes(), &error);
            return;
        }
    };
    let mut block = [0u8; 61];
    let mut out = [0u8; 2100];
    relay::answer_input(rt, &mut input, output, b"", b"", &mut block, &mut out);
}

fn main(rt: HostRuntime) {
    let mut output = rt.stdout();
    for path in FILES.iter() {
        answer_file(&rt, &mut output, path);
    }
}
