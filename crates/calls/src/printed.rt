// The answers of calls, and what they leave.
use checks::faults::field_of;
use checks::refusals::number_of;
use plans::Place;
use requests::{Answer, Fields};
use sessions::{Assigned, Session};
use std::io;

// `ok`, or `no` and the number: an answer without a field, as the reader's.
pub fn answer(rt: &impl Print, answer: Answer) -> io::Result<()> {
    match answer {
        Ok(()) => print!(rt; "ok"),
        Err(refusal) => print!(rt; "no {}", number_of(refusal)),
    }
}

// The answer of a call with these fields, in a line of its own: `ok`, or `no`, the number and the field at fault.
pub fn answer_line(rt: &impl Print, told: Answer, fields: Fields) -> io::Result<()> {
    answer(rt, told)?;
    match told {
        Ok(()) => println!(rt),
        Err(refusal) => println!(rt; " {}", field_of(refusal, fields)),
    }
}

// The ids that wait.
pub fn queue(rt: &impl Print, session: &Session) -> io::Result<()> {
    print!(rt; "queue")?;
    for entry in session.queue.iter().take(session.len) {
        print!(rt; " {}", entry.id)?;
    }
    println!(rt)
}

// What a taken request is given: counter and register, a latency request on two lines.
fn place(rt: &impl Print, id: u64, place: Place) -> io::Result<()> {
    match place {
        Place::Counter(k) => println!(rt; "take {id} {k} -"),
        Place::WithRsp(k, register) => println!(rt; "take {id} {k} {register}"),
        Place::Pair(j, k) => println!(rt; "take {id} {j} 0\ntake {id} {k} 1"),
    }
}

// The plan of a turn, in the first places.
pub fn plan(rt: &impl Print, plan: &[Assigned], taken: usize) -> io::Result<()> {
    for assigned in plan.iter().take(taken) {
        place(rt, assigned.id, assigned.place)?;
    }
    Ok(())
}
