// drop: a request leaves the queue.
ghost use Rattle.std.specs.Prelude.{◌≡◌, ◌≤◌, ℕ, Some, IfOk, is_some, length, take};
ghost use Rattle.sessions.specs.Plain.{removed};
ghost use Rattle.sessions.specs.Sessions.{drop_of};
ghost use Rattle.planner.specs.Answering.{AnswersDrop, answer_in};

use crate::ids::{bad_id_refusal, outside_ids};
use crate::queue::{bounded, place_of, vacate, with_queue};
use requests::{Entry, Refusal};
use sessions::{Answered, Session};

// Where the entry stands that a drop of an id takes out, or why none does, by the refusal table, told the place of the id, whichever it is.
#[tactic(auto, unfolding(requests::specs::Refusals::answer_for))]
pub fn drop_place(opened: bool, place: Option<usize>) -> Result<usize, Refusal>
    ensures answer { (id : ℕ) → AnswersDrop opened (is_some place) id (answer_in result) }
    ensures place { IfOk result (λ at. place ≡ Some at) }
{
    if !opened {
        return Err(Refusal::CallOrder);
    }
    place.ok_or(Refusal::IdNotWaiting)
}

// Takes the entries with the id out, none of which is among the first `at`: the others keep their order, and close up in place. Answers how
// many they are.
fn close_up(queue: &mut [Entry], at: usize, id: u64) -> usize
    requires at_in_bounds { at ≤ length queue.old }
    requires kept { removed id (take at queue.old) ≡ take at queue.old }
    ensures len { length queue.new ≡ length queue.old }
    ensures count { result ≡ length (removed id queue.old) }
    ensures front { take result queue.new ≡ removed id queue.old }
{
    let mut len = at;
    for i in at..queue.len() {
        let entry = queue[i];
        if id != entry.id {
            queue[len] = entry;
            len += 1;
        }
    }
    len
}

// Takes the id out of the queue.
#[tactic(auto, unfolding(sessions::specs::Sessions::drop_of, sessions::specs::Sessions::queued))]
pub fn drop_request(session: Session, id: u64) -> Answered
    ensures { result ≡ drop_of session id }
{
    let opened = session.opened;
    if outside_ids(id) {
        let refusal = bad_id_refusal(opened);
        let answer = Err(refusal);
        return Answered { answer, session };
    }
    let n = bounded(session.len);
    let mut queue = session.queue;
    let mut len = session.len;
    let answer = match drop_place(opened, place_of(&queue[..n], id)) {
        Err(refusal) => Err(refusal),
        Ok(at) => {
            len = close_up(&mut queue[..n], at, id);
            vacate(&mut queue[len..]);
            Ok(())
        }
    };
    let session = with_queue(session, queue, len);
    Answered { answer, session }
}
