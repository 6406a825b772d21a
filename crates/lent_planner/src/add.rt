// add: a request enters the lent queue at the back.
ghost use Rattle.std.specs.Prelude.{◌≡◌};
ghost use Rattle.sessions.specs.Calls.{Add};
ghost use Rattle.lent_sessions.specs.Lent.{lent_answered, rows_after};
ghost use Rattle.lent_planner.specs.Decisions.{Answers, ChecksAdd};

use crate::rules::survey;
use crate::{Change, Survey};
use checks::check::request_refusal;
use lent_sessions::{LentAnswered, LentSession};
use planner::add::plans_alone;
use planner::ids::outside_ids;
use requests::{Answer, Entry, Refusal, Request, Setup};

// What the refusal table says of an add to n records, in which the pass has found t.
fn check_add(setup: Setup, n: usize, t: &Survey, id: u64, request: Request) -> Answer
    ensures { ChecksAdd setup n t.now id request result }
{
    if outside_ids(id) {
        return Err(Refusal::BadId);
    }
    if t.at.is_some() {
        return Err(Refusal::IdWaiting);
    }
    request_refusal(setup, request)?;
    if !plans_alone(setup, request) {
        return Err(Refusal::NoPlanAlone);
    }
    if n <= t.len {
        return Err(Refusal::QueueFull);
    }
    Ok(())
}

// The answer, with the records changed where it is accepted.
fn add_to(rows: &mut [Entry], session: LentSession, id: u64, request: Request) -> Answer
    ensures { Answers session rows.old (Add id request) result rows.new }
{
    let t = survey(rows, session.setup, id);
    t.check(session, rows.len())?;
    check_add(session.setup, rows.len(), &t, id, request)?;
    Change::shifted(t.len, t.len + 1, 1, Entry { id, request }).apply(rows);
    Ok(())
}

// Places a request with its id at the back of the lent queue.
pub fn add(rows: &mut [Entry], session: LentSession, id: u64, request: Request) -> LentAnswered
    ensures { (result ≡ lent_answered session rows.old (Add id request)) × (rows.new ≡ rows_after session rows.old (Add id request)) }
{
    let answer = add_to(rows, session, id, request);
    LentAnswered { answer, session }
}
