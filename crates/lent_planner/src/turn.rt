// turn: the next plan of the lent queue, and its write list.
ghost use Rattle.std.specs.Prelude.{◌≡◌, ◌≤◌, length, take};
ghost use Rattle.requests.specs.Devices.{capacity};
ghost use Rattle.sessions.specs.Sessions.{unassigned};
ghost use Rattle.planner.specs.Selections.{in_array, planned};
ghost use Rattle.sessions.specs.Calls.{Turn};
ghost use Rattle.lent_sessions.specs.Lent.{rows_after, lent_turned, lent_slice};
ghost use Rattle.lent_planner.specs.Turnings.{turn_refused, turn_accepted, turning, TurnDecidesFor};

use crate::choose::select;
use crate::rules::survey;
use crate::{Change, Choice, Survey};
use lent_sessions::{LentSession, LentTurned};
use planner::turn::{assigned_to, unassigned};
use registers::plan_settings::settings_in;
use registers::writer::write_list;
use requests::{CAPACITY, Entry, Refusal};
use sessions::Assigned;

impl Choice {
    // The plan of those taken: each id with its place.
    #[tactic(auto, unfolding(planner::specs::Selections::planned, sessions::specs::Turns::assign, plans::specs::Packed::places_from, sessions::specs::Turns::requests_of, requests::specs::Devices::capacity, sessions::specs::Sessions::vacant))]
    fn assigned(&self) -> [Assigned; CAPACITY]
        requires { self.now.count ≤ 8 }
        ensures { result ≡ in_array capacity unassigned (planned self.now.plan (take self.now.count self.now.taken)) }
    {
        let mut plan = [unassigned(); CAPACITY];
        for j in 0..self.count {
            plan[j] = assigned_to(self.plan, j, self.taken[j]);
        }
        plan
    }

    // The change of a turn, where so many wait: those passed over, then those taken.
    #[tactic(auto, unfolding(crate::specs::Turnings::turning))]
    fn change(&self, len: usize) -> Change
        ensures { result ≡ turning len self.now }
    {
        Change {
            from: 0,
            end: len,
            skip: 0,
            at: self.at,
            fresh: self.taken,
        }
    }
}

// A turn that is refused.
#[tactic(auto, unfolding(crate::specs::Turnings::turn_refused, lent_sessions::specs::Lent::lent_turn, requests::specs::Devices::capacity))]
fn turn_refused(session: LentSession, refusal: Refusal) -> LentTurned
    ensures { result ≡ turn_refused session refusal }
{
    LentTurned {
        answer: Err(refusal),
        session,
        plan: [unassigned(); CAPACITY],
        taken: 0,
        writes: 0,
    }
}

// A turn that is accepted.
#[tactic(auto, unfolding(crate::specs::Turnings::turn_accepted))]
fn turn_accepted(session: LentSession, t: &Choice, writes: usize) -> LentTurned
    requires { t.now.count ≤ 8 }
    ensures { result ≡ turn_accepted session t.now writes }
{
    LentTurned {
        answer: Ok(()),
        session,
        plan: t.assigned(),
        taken: t.count,
        writes,
    }
}

// Writes the write list of those chosen of n records, in which the pass has found s, into the slice: the number of writes.
#[tactic(auto, unfolding(requests::specs::Devices::capacity))]
pub fn write_turn(
    out: &mut [u64],
    session: LentSession,
    n: usize,
    s: &Survey,
    t: &Choice,
) -> Result<usize, Refusal>
    requires { t.now.count ≤ 8 }
    ensures { TurnDecidesFor session n s.now t.now out.old out.new result }
{
    s.check(session, n)?;
    let settings = settings_in(session.setup, t.plan, &t.rows, t.count);
    write_list(out, session.setup, settings)
}

// Takes the requests that have a plan together, from the front of the lent queue, and writes their write list into the slice.
pub fn turn(rows: &mut [Entry], session: LentSession, out: &mut [u64]) -> LentTurned
    ensures { (result ≡ lent_turned session rows.old (length out.old)) × (rows.new ≡ rows_after session rows.old (Turn (length out.old))) × (out.new ≡ lent_slice session rows.old out.old) }
{
    let s = survey(rows, session.setup, 0);
    let t = select(rows, session.setup);
    match write_turn(out, session, rows.len(), &s, &t) {
        Ok(writes) => {
            t.change(s.len).apply(rows);
            turn_accepted(session, &t, writes)
        }
        Err(refusal) => turn_refused(session, refusal),
    }
}
