// drop: a request leaves the queue.
ghost use Rattle.std.specs.Prelude.{◌≡◌, ◌≤◌, take};
ghost use Rattle.sessions.specs.Plain.{removed};
ghost use Rattle.sessions.specs.Sessions.{drop_of};
ghost use Rattle.queue_rows.specs.Rows.{Sized, queue_in, ClosesUp};
ghost use Rattle.queue_rows.specs.Heads.{session_in, AnswersIn};

use crate::rows::{copy_entry, place_of};
use crate::{Head, HeadAnswered, QUEUE_NUMBERS};
use planner::drop::drop_place;
use planner::ids::{bad_id_refusal, outside_ids};
use planner::queue::bounded;
use sessions::QUEUE_LIMIT;

// The entries without the id, which none of the first `at` bears, close up in place. Answers how many they are.
fn close_up(
    ids: &mut [u64; QUEUE_LIMIT],
    rows: &mut [u64; QUEUE_NUMBERS],
    at: usize,
    n: usize,
    id: u64,
) -> usize
    requires n_bound { n ≤ 16 }
    requires sized { Sized ids.old rows.old }
    requires at_in_bounds { at ≤ n }
    requires kept { removed id (take at (queue_in ids.old rows.old)) ≡ take at (queue_in ids.old rows.old) }
    ensures { ClosesUp (removed id (take n (queue_in ids.old rows.old))) ids.new rows.new result }
{
    let mut len = at;
    for i in at..n {
        let here = ids[i];
        if id != here {
            copy_entry(ids, rows, i, len);
            len += 1;
        }
    }
    len
}

// Takes the id out of the queue. The others keep their order.
pub fn drop_request(
    head: Head,
    ids: &mut [u64; QUEUE_LIMIT],
    rows: &mut [u64; QUEUE_NUMBERS],
    id: u64,
) -> HeadAnswered
    requires { Sized ids.old rows.old }
    ensures { AnswersIn (drop_of (session_in head ids.old rows.old) id) ids.new rows.new result }
{
    let opened = head.opened;
    if outside_ids(id) {
        let refusal = bad_id_refusal(opened);
        return HeadAnswered {
            answer: Err(refusal),
            head,
        };
    }
    let setup = head.setup;
    let n = bounded(head.len);
    match drop_place(opened, place_of(&ids[..n], id)) {
        Err(refusal) => HeadAnswered {
            answer: Err(refusal),
            head,
        },
        Ok(at) => {
            let len = close_up(ids, rows, at, n, id);
            let next = Head {
                opened,
                setup,
                len,
                trimmed: true,
            };
            HeadAnswered {
                answer: Ok(()),
                head: next,
            }
        }
    }
}
