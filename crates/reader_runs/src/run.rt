// One plan: written, read, and read with one bit changed.
use crate::asked::packet;
use crate::changes::{Outcome, Run};
use crate::print;
use crate::values::after;
use registers::plan_settings::settings_of;
use registers::writer::write_list;
use requests::{CAPACITY, Request, Setup};
use search::first_plan::first_plan;
use std::io;

// The write list of the first plan, and the number of its writes.
fn planned(setup: Setup, asked: &[Request], list: &mut [u64; 44]) -> usize {
    let mut requests = [packet(); CAPACITY];
    for (place, request) in requests.iter_mut().zip(asked) {
        *place = *request;
    }
    let Some(places) = first_plan(setup, requests, asked.len()) else {
        return 0;
    };
    let settings = settings_of(setup, requests, places, asked.len());
    write_list(list, setup, settings).unwrap_or(0)
}

// What comes of one bit changed.
fn one_bit_changed(rt: &impl Print, read: &Run) -> io::Result<()> {
    let accepted = read.count(Outcome::Accepted);
    let refused = read.count(Outcome::Refused);
    let same = read.count(Outcome::Same);
    let unseen = same + read.count(Outcome::Another);
    println!(rt;
        "one bit changed: accepted {accepted}, refused {refused}; where not looked at: the same {same} of {unseen}"
    )
}

// The first plan of at most eight requests, written, read, and read with one bit changed.
pub fn run(rt: &impl Print, setup: Setup, requests: &[Request]) -> io::Result<()> {
    let mut list = [0; 44];
    let writes = planned(setup, requests, &mut list);
    let (pairs, _) = list.as_chunks();
    let written = pairs.get(..writes).unwrap_or_default();
    print::setup(rt, setup)?;
    println!(rt; " writes {writes}")?;
    let read = Run::new(setup, after(written));
    print::counters(rt, &read)?;
    one_bit_changed(rt, &read)
}
