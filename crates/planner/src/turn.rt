// turn: the next plan, and its write list.
ghost use Rattle.std.specs.Prelude.{◌≡◌, ◌<◌, ◌≤◌, ℕ, get_or, length, map, replicate};
ghost use Rattle.requests.specs.Devices.{capacity};
ghost use Rattle.plans.specs.Packed.{place_at_lem};
ghost use Rattle.sessions.specs.Sessions.{unassigned, vacant, turn_of, turn_slice};
ghost use Rattle.planner.specs.Selections.{Settled, in_array, planned};

use crate::Outcome;
use crate::queue::{vacant, with_queue};
use crate::requeue::requeue;
use crate::select::select;
use plans::Place;
use registers::plan_settings::settings_in;
use registers::writer::write_list;
use requests::{CAPACITY, Entry, Refusal};
use search::packed::place_at;
use search::rows::ROW_NUMBERS;
use sessions::{Assigned, QUEUE_LIMIT, Session, TurnAnswered};

// What stands in a place of the plan that is not used.
#[tactic(auto, unfolding(sessions::specs::Sessions::unassigned))]
pub fn unassigned() -> Assigned
    ensures { result ≡ unassigned }
{
    Assigned {
        id: 0,
        place: Place::Counter(0),
    }
}

// What a turn does: it chooses from the front of the queue, and writes the write list of what is chosen into the slice.
#[tactic(auto, unfolding(requests::specs::Devices::capacity))]
fn outcome_of(
    session: Session,
    taken: &mut [usize; CAPACITY],
    passed: &mut [usize; QUEUE_LIMIT],
    out: &mut [u64],
) -> Result<Outcome, Refusal>
    requires { (length taken.old ≡ 8) × (length passed.old ≡ 16) }
    ensures settled { Settled session (length out.old) taken.new passed.new result }
    ensures out_after { out.new ≡ turn_slice session out.old }
{
    let opened = session.opened;
    if !opened {
        return Err(Refusal::CallOrder);
    }
    let setup = session.setup;
    let mut rows: [u64; ROW_NUMBERS] = [0; ROW_NUMBERS];
    let chosen = select(session, &mut rows, taken, passed);
    let settings = settings_in(setup, chosen.code, &rows, chosen.count);
    let writes = write_list(out, setup, settings)?;
    Ok(Outcome { chosen, writes })
}

// What the plan says of an entry: its id, with its place as the i-th in the packed plan.
pub fn assigned_to(code: u64, i: usize, entry: Entry) -> Assigned
    requires { i < 8 }
    ensures { result ≡ record { id = entry.id; place = place_at_lem code i entry.request } }
{
    let request = entry.request;
    Assigned {
        id: entry.id,
        place: place_at(code, i, request),
    }
}

// Puts the plan of the entries that stand at these places of a queue into an empty one, with the places that a packed plan gives them.
#[tactic(auto, unfolding(crate::specs::Selections::entries_at, crate::specs::Selections::planned, sessions::specs::Sessions::vacant, sessions::specs::Turns::assign, plans::specs::Packed::places_from, sessions::specs::Turns::requests_of, requests::specs::Devices::capacity))]
fn plan_at(
    queue: &[Entry; QUEUE_LIMIT],
    places: &[usize],
    code: u64,
    plan: &mut [Assigned; CAPACITY],
)
    requires few { length places.now ≤ 8 }
    requires inside { (j : ℕ) → j < length places.now → get_or places.now j 0 < 16 }
    requires empty { plan.old ≡ replicate 8 unassigned }
    ensures { plan.new ≡ in_array capacity unassigned (planned code (map (λ i. get_or queue.now i vacant) places.now)) }
{
    for (j, at) in places.iter().enumerate() {
        plan[j] = assigned_to(code, j, queue[*at]);
    }
}

// Takes the requests that have a plan together, from the front of the queue, and writes their write list into the slice.
// The queue is made anew here, beside the session: a call that is handed the session makes a copy of it.
// Form: one answer, made at the end; one in each arm was tried, and costs 280 instructions a turn, since each copies the session.
#[tactic(auto, unfolding(crate::specs::Selections::entries_at, sessions::specs::Sessions::turn_answer))]
pub fn turn(session: Session, out: &mut [u64]) -> TurnAnswered
    ensures value { result ≡ turn_of session (length out.old) }
    ensures out_after { out.new ≡ turn_slice session out.old }
{
    let mut taken: [usize; CAPACITY] = [0; CAPACITY];
    let mut passed: [usize; QUEUE_LIMIT] = [0; QUEUE_LIMIT];
    let mut queue = [vacant(); QUEUE_LIMIT];
    let mut len = session.len;
    let mut plan = [unassigned(); CAPACITY];
    let mut count = 0;
    let mut writes = 0;
    let answer = match outcome_of(session, &mut taken, &mut passed, out) {
        Err(refusal) => {
            queue = session.queue;
            Err(refusal)
        }
        Ok(outcome) => {
            let chosen = outcome.chosen;
            let taken = &taken[..chosen.count];
            requeue(&session.queue, &passed[..chosen.rest], taken, &mut queue);
            plan_at(&session.queue, taken, chosen.code, &mut plan);
            len = chosen.rest + chosen.count;
            count = chosen.count;
            writes = outcome.writes;
            Ok(())
        }
    };
    TurnAnswered {
        answer,
        session: with_queue(session, queue, len),
        plan,
        taken: count,
        writes,
    }
}
