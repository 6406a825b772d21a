// drop: a request leaves the lent queue.
ghost use Rattle.std.specs.Prelude.{◌≡◌};
ghost use Rattle.sessions.specs.Calls.{Drop};
ghost use Rattle.lent_sessions.specs.Lent.{lent_answered, rows_after};
ghost use Rattle.lent_planner.specs.Decisions.{Answers};

use crate::Change;
use crate::rules::survey;
use lent_sessions::{LentAnswered, LentSession};
use planner::ids::outside_ids;
use planner::queue::vacant;
use requests::{Answer, Entry, Refusal};

// The answer, with the records changed where it is accepted.
fn drop_from(rows: &mut [Entry], session: LentSession, id: u64) -> Answer
    ensures { Answers session rows.old (Drop id) result rows.new }
{
    let t = survey(rows, session.setup, id);
    t.check(session, rows.len())?;
    if outside_ids(id) {
        return Err(Refusal::BadId);
    }
    let Some(at) = t.at else {
        return Err(Refusal::IdNotWaiting);
    };
    Change::shifted(at, t.len, 1, vacant()).apply(rows);
    Ok(())
}

// Takes the id out of the lent queue. The others keep their order.
pub fn drop_request(rows: &mut [Entry], session: LentSession, id: u64) -> LentAnswered
    ensures { (result ≡ lent_answered session rows.old (Drop id)) × (rows.new ≡ rows_after session rows.old (Drop id)) }
{
    let answer = drop_from(rows, session, id);
    LentAnswered { answer, session }
}
