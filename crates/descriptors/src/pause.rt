// A short wait, for an input or an output that would block: nothing in std waits until it is ready.
use std::rt::Clock;
use std::thread;
use std::time::Duration;

// Waits a millisecond.
pub fn pause<H: Clock>(rt: &H) {
    thread::sleep(rt, Duration::from_millis(1));
}
