// turn: the next plan, and its write list.
ghost use Rattle.std.specs.Prelude.{◌≡◌, ◌*◌, ◌≤◌, length, take};
ghost use Rattle.sessions.specs.Turns.{taken, writes_of};
ghost use Rattle.sessions.specs.Sessions.{turn_slice};
ghost use Rattle.queue_rows.specs.Rows.{Sized, queue_in};
ghost use Rattle.queue_rows.specs.Heads.{session_in, closed_turn, taken_turn, TurnsIn};

use crate::part::{part, put_behind};
use crate::{Head, QUEUE_NUMBERS, TurnTaken};
use planner::Chosen;
use planner::queue::bounded;
use registers::plan_settings::settings_in;
use registers::writer::put_list;
use requests::{Answer, CAPACITY, Refusal, Setup};
use search::rows::ROW_NUMBERS;
use sessions::QUEUE_LIMIT;

// The answer before open.
fn closed_turn(head: Head) -> TurnTaken
    ensures { result ≡ closed_turn head }
{
    TurnTaken {
        answer: Err(Refusal::CallOrder),
        head,
        code: 0,
        front: 0,
        taken: 0,
        writes: 0,
    }
}

// The answer where these are taken of a queue of n, with so many writes.
fn taken_turn(setup: Setup, n: usize, chosen: Chosen, writes: usize) -> TurnTaken
    ensures { result ≡ taken_turn setup n chosen writes }
{
    let next = Head {
        opened: true,
        setup,
        len: n,
        trimmed: true,
    };
    TurnTaken {
        answer: Ok(()),
        head: next,
        code: chosen.code,
        front: chosen.rest,
        taken: chosen.count,
        writes,
    }
}

// Takes the requests that have a plan together, from the front of the queue, and writes their write list into the slice, which has room
// for it: the queue is changed before the list is written.
#[tactic(auto, unfolding(requests::specs::Devices::capacity))]
pub fn turn(
    head: Head,
    ids: &mut [u64; QUEUE_LIMIT],
    rows: &mut [u64; QUEUE_NUMBERS],
    out: &mut [u64],
) -> TurnTaken
    requires sized { Sized ids.old rows.old }
    requires rows_in_bounds { 2 * length (writes_of head.setup (taken head.setup (take head.len (queue_in ids.old rows.old)))) ≤ length out.old }
    ensures turns_in { TurnsIn (session_in head ids.old rows.old) (length out.old) ids.new rows.new result }
    ensures out_after { out.new ≡ turn_slice (session_in head ids.old rows.old) out.old }
{
    let opened = head.opened;
    if !opened {
        return closed_turn(head);
    }
    let setup = head.setup;
    let n = bounded(head.len);
    let mut taken_ids: [u64; CAPACITY] = [0; CAPACITY];
    let mut taken_rows: [u64; ROW_NUMBERS] = [0; ROW_NUMBERS];
    let chosen = part(setup, n, ids, rows, &mut taken_ids, &mut taken_rows);
    put_behind(
        ids,
        rows,
        chosen.rest,
        &taken_ids,
        &taken_rows,
        chosen.count,
    );
    let settings = settings_in(setup, chosen.code, &taken_rows, chosen.count);
    let numbers = put_list(out, setup, settings);
    taken_turn(setup, n, chosen, numbers / 2)
}
