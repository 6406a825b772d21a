// add: a request enters the queue at the back.
ghost use Rattle.std.specs.Prelude.{◌≡◌, ◌∷◌, [], ℕ};
ghost use Rattle.plans.specs.Search.{has_plan_lem};
ghost use Rattle.sessions.specs.Calls.{Add};
ghost use Rattle.sessions.specs.Sessions.{add_of};
ghost use Rattle.planner.specs.Answering.{AnswersFor};

use crate::ids::{bad_id_refusal, outside_ids};
use crate::queue::{bounded, place_of, vacate};
use checks::check::request_refusal;
use checks::rules::has_rules;
use requests::{Answer, Entry, Refusal, Request, Setup};
use search::extend::counter_alone;
use search::plan_rows::{plan_ruled, plan_unruled};
use search::rows::{ROW_NUMBERS, put_request};
use sessions::{Answered, QUEUE_LIMIT, Session};

// Whether the request has a plan alone.
pub fn plans_alone(setup: Setup, request: Request) -> bool
    ensures { result ≡ has_plan_lem setup (request ∷ []) }
{
    if counter_alone(setup, request) {
        return true;
    }
    let mut rows: [u64; ROW_NUMBERS] = [0; ROW_NUMBERS];
    put_request(&mut rows, 0, request);
    let device = setup.device;
    if has_rules(device) {
        let usable = setup.usable;
        return plan_ruled(device, usable, &rows, 1) != 0;
    }
    plan_unruled(setup, &rows, 1) != 0
}

// The answer to an add of an id, whichever it is, by the refusal table, told whether it is waiting.
#[tactic(auto, unfolding(requests::specs::Refusals::answer_for, sessions::specs::Sessions::queue_limit, sessions::specs::Sessions::queued))]
pub fn add_answer(opened: bool, setup: Setup, len: usize, waiting: bool, request: Request) -> Answer
    ensures { (id : ℕ) → AnswersFor opened setup len waiting id (Add id request) result }
{
    if !opened {
        return Err(Refusal::CallOrder);
    }
    if waiting {
        return Err(Refusal::IdWaiting);
    }
    request_refusal(setup, request)?;
    if !plans_alone(setup, request) {
        return Err(Refusal::NoPlanAlone);
    }
    if QUEUE_LIMIT <= len {
        return Err(Refusal::QueueFull);
    }
    Ok(())
}

// Places a request with its id at the back of the queue.
// The queue is looked through and changed here, in one copy.
// The setup is read first: behind the look it costs a call by itself some 100 instructions more.
#[tactic(auto, unfolding(sessions::specs::Sessions::add_of, sessions::specs::Sessions::queued))]
pub fn add(session: Session, id: u64, request: Request) -> Answered
    ensures { result ≡ add_of session id request }
{
    let opened = session.opened;
    if outside_ids(id) {
        let refusal = bad_id_refusal(opened);
        let answer = Err(refusal);
        return Answered { answer, session };
    }
    let setup = session.setup;
    let n = bounded(session.len);
    let mut queue = session.queue;
    let waiting = place_of(&queue[..n], id).is_some();
    let answer = add_answer(opened, setup, session.len, waiting, request);
    let mut len = session.len;
    if let Ok(()) = answer {
        queue[n] = Entry { id, request };
        len = n + 1;
        vacate(&mut queue[len..]);
    }
    let session = Session {
        opened,
        setup,
        queue,
        len,
    };
    Answered { answer, session }
}
