// The reply to what a line is, in a lent slice.
ghost use Rattle.std.specs.Prelude.{◌≡◌, List, ℕ, ◌≤◌, length, replicate, Err};
ghost use Rattle.sessions.specs.Sessions.{turn_of, turn_slice};
ghost use Rattle.queue_rows.specs.Rows.{Sized};
ghost use Rattle.queue_rows.specs.Heads.{session_in, answered_in};
ghost use Rattle.answers.specs.Replies.{reply_at, turn_reply, record_reply, parsed_reply, turn_room};
ghost use Rattle.answers.specs.ReplyLength.{reply_room};
ghost use Rattle.responder.specs.Written.{left_in, replied_in, replied_out};
ghost use Rattle.responder.specs.Texts.{Delivered};

use crate::Replied;
use crate::answer_lines::put_answer;
use crate::reply_fields::{add_field, drop_field, open_field};
use crate::set_lines::put_sets;
use crate::take_lines::put_takes;
use checks::devices::opening_of;
use grammar::{Line, Parsed, Record};
use queue_rows::add::add;
use queue_rows::drop::drop_request;
use queue_rows::open::open;
use queue_rows::turn::turn;
use queue_rows::{Head, HeadAnswered, QUEUE_NUMBERS};
use requests::{Answer, Refusal, Setup};
use sessions::QUEUE_LIMIT;

// The numbers that a turn is lent: the room of 22 writes, as long as any list.
const TURN_ROOM: usize = 44;

// The room for any reply, in bytes.
pub const REPLY_ROOM: usize = 2048;

// The reply to an open, add or drop, or to a line that is none, given the field at fault.
#[tactic(auto, unfolding(answers::specs::ReplyLength::reply_room, answers::specs::Replies::reply_at, queue_rows::specs::Heads::answered_in, crate::specs::Written::left_in))]
fn call_reply(answered: HeadAnswered, field: usize, out: &mut [u8]) -> Replied
    requires { reply_room ≤ length out.old }
    ensures { (ids rows : List ℕ) → Delivered (reply_at (answered_in answered ids rows) field) out.old out.new (left_in result ids rows) }
{
    Replied {
        head: answered.head,
        written: put_answer(out, 0, answered.answer, field),
    }
}

// The reply to a turn: its `take` lines, its `set` lines, and its answer.
#[tactic(auto, unfolding(answers::specs::Replies::turn_room, answers::specs::ReplyLength::reply_room, crate::specs::Written::left_in))]
fn turn_reply(
    head: Head,
    ids: &mut [u64; QUEUE_LIMIT],
    rows: &mut [u64; QUEUE_NUMBERS],
    out: &mut [u8],
) -> Replied
    requires sized { Sized ids.old rows.old }
    requires reply_room_in_bounds { reply_room ≤ length out.old }
    ensures delivered { Delivered (turn_reply (turn_of (session_in head ids.old rows.old) turn_room) (turn_slice (session_in head ids.old rows.old) (replicate turn_room 0))) out.old out.new (left_in result ids.new rows.new) }
    ensures sized_2 { Sized ids.new rows.new }
{
    let mut list: [u64; TURN_ROOM] = [0; TURN_ROOM];
    let turned = turn(head, ids, rows, &mut list);
    let takes = put_takes(out, 0, turned.code, ids, rows, turned.front, turned.taken);
    let sets = put_sets(out, takes, &list, turned.writes);
    Replied {
        head: turned.head,
        written: put_answer(out, sets, turned.answer, 0),
    }
}

// The reply to a line that is neither a record nor a request by name, at the field that breaks the grammar.
#[tactic(auto, unfolding(answers::specs::Replies::parsed_reply, answers::specs::Replies::reply_at, queue_rows::specs::Heads::answered_in, requests::specs::Refusals::answer_for, grammar::specs::Parse::parsed_refusal))]
fn fault_reply(head: Head, k: usize, out: &mut [u8]) -> Replied
    requires { reply_room ≤ length out.old }
    ensures { (ids rows : List ℕ) → Delivered (parsed_reply (session_in head ids rows) (Err k)) out.old out.new (left_in result ids rows) }
{
    let answered = HeadAnswered {
        answer: Err(Refusal::NotInGrammar),
        head,
    };
    call_reply(answered, k, out)
}

// The reply to an open.
#[tactic(auto, unfolding(queue_rows::specs::Heads::answered_in))]
fn open_reply(head: Head, given: Setup, out: &mut [u8]) -> Replied
    requires { reply_room ≤ length out.old }
    ensures { (ids rows : List ℕ) → Delivered (record_reply (session_in head ids rows) (Record.Open given)) out.old out.new (left_in result ids rows) }
{
    let opening = opening_of(given);
    let opened = open(head, opening);
    let field = open_field(opened.answer, opening);
    call_reply(opened, field, out)
}

// The reply to a drop.
#[tactic(auto, unfolding(queue_rows::specs::Heads::answered_in))]
fn drop_reply(
    head: Head,
    ids: &mut [u64; QUEUE_LIMIT],
    rows: &mut [u64; QUEUE_NUMBERS],
    id: u64,
    out: &mut [u8],
) -> Replied
    requires sized { Sized ids.old rows.old }
    requires reply_room_in_bounds { reply_room ≤ length out.old }
    ensures delivered { Delivered (record_reply (session_in head ids.old rows.old) (Record.Drop id)) out.old out.new (left_in result ids.new rows.new) }
    ensures sized_2 { Sized ids.new rows.new }
{
    let dropped = drop_request(head, ids, rows, id);
    let field = drop_field(dropped.answer);
    call_reply(dropped, field, out)
}

// The reply to what a line is, at the start of a slice that has room for any reply; in a shorter one nothing is done.
// A request by name is made the add that it stands for. Adds are made here, since a function of their own would copy the head once more.
#[tactic(auto, unfolding(answers::specs::ReplyLength::reply_room, crate::specs::Written::left_in, crate::specs::Written::asked_reply, answers::specs::Replies::parsed_reply, answers::specs::Replies::record_reply, queue_rows::specs::Heads::answered_in, queue_rows::specs::Heads::session_in))]
pub fn reply(
    head: Head,
    ids: &mut [u64; QUEUE_LIMIT],
    rows: &mut [u64; QUEUE_NUMBERS],
    parsed: Parsed,
    out: &mut [u8],
) -> Replied
    requires { Sized ids.old rows.old }
    ensures rows_after { left_in result ids.new rows.new ≡ replied_in (session_in head ids.old rows.old) parsed (length out.old) }
    ensures out_after { out.new ≡ replied_out (session_in head ids.old rows.old) parsed out.old }
    ensures sized { Sized ids.new rows.new }
{
    if out.len() < REPLY_ROOM {
        return Replied { head, written: 0 };
    }
    let line = match parsed {
        Ok(line) => line,
        Err(k) => return fault_reply(head, k, out),
    };
    let (asked, named) = match line {
        Line::Named { id, request } => (Record::Add { id, request }, true),
        Line::Record(record) => (record, false),
    };
    match asked {
        Record::Turn => turn_reply(head, ids, rows, out),
        Record::Open(given) => open_reply(head, given, out),
        Record::Drop { id } => drop_reply(head, ids, rows, id, out),
        Record::Add { id, request } => {
            let added = add(head, ids, rows, id, request);
            let field = add_field(added, request, named);
            call_reply(added, field, out)
        }
    }
}
