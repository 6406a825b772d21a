// The reader's call.
use crate::printed::answer;
use checks::devices::{counter_count, setup_of};
use layouts::{CounterState, FilterRead, RegisterValues};
use registers::reader::read;
use requests::Opening;
use std::io;

// A counter that counts an event: the event, or its filter register with the words.
fn counted(rt: &impl Print, code: u8, mask: u8, filter: FilterRead) -> io::Result<()> {
    match filter {
        FilterRead::NoFilter => print!(rt; " event:{code:02X}:{mask:02X}"),
        FilterRead::Rsp(register, word) => print!(rt; " rsp:{register}:{word:X}"),
        FilterRead::MatchMask(match_word, mask_word) => {
            print!(rt; " packet:{match_word:X}:{mask_word:X}")
        }
    }
}

// What a counter does.
fn state(rt: &impl Print, state: CounterState) -> io::Result<()> {
    match state {
        CounterState::NotOurs => print!(rt; " not-ours"),
        CounterState::Off => print!(rt; " off"),
        CounterState::Counts { code, mask, filter } => counted(rt, code, mask, filter),
    }
}

// Reads the registers, and prints what is told of each of the device's counters.
pub fn reading(rt: &impl Print, given: Opening, values: RegisterValues) -> io::Result<()> {
    let told = read(given, values);
    answer(rt, told.map(|_| ()))?;
    if let (Ok(states), Ok(setup)) = (told, setup_of(given)) {
        let count = counter_count(setup.device);
        for counter in states.iter().take(count as usize) {
            state(rt, *counter)?;
        }
    }
    println!(rt)
}
