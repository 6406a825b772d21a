// add: a request enters the queue at the back.
ghost use Rattle.sessions.specs.Sessions.{add_of};
ghost use Rattle.queue_rows.specs.Rows.{Sized};
ghost use Rattle.queue_rows.specs.Heads.{session_in, AnswersIn};

use crate::rows::{place_of, put_entry};
use crate::{Head, HeadAnswered, QUEUE_NUMBERS};
use planner::add::add_answer;
use planner::ids::{bad_id_refusal, outside_ids};
use planner::queue::bounded;
use requests::{Answer, Request};
use sessions::QUEUE_LIMIT;

// Places a request with its id at the back of the queue.
pub fn add(
    head: Head,
    ids: &mut [u64; QUEUE_LIMIT],
    rows: &mut [u64; QUEUE_NUMBERS],
    id: u64,
    request: Request,
) -> HeadAnswered
    requires { Sized ids.old rows.old }
    ensures { AnswersIn (add_of (session_in head ids.old rows.old) id request) ids.new rows.new result }
{
    let opened = head.opened;
    if outside_ids(id) {
        let refusal = bad_id_refusal(opened);
        return HeadAnswered {
            answer: Err(refusal),
            head,
        };
    }
    let setup = head.setup;
    let n = bounded(head.len);
    let waiting = place_of(&ids[..n], id).is_some();
    let answer = add_answer(opened, setup, head.len, waiting, request);
    match answer {
        Err(_) => HeadAnswered { answer, head },
        Ok(()) => {
            put_entry(ids, rows, n, id, request);
            let next = Head {
                opened,
                setup,
                len: n + 1,
                trimmed: true,
            };
            HeadAnswered { answer, head: next }
        }
    }
}
