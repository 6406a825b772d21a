// The calls of the lent session, with the first rows of an array as the records that are lent.
ghost use Rattle.std.specs.Prelude.{◌≤◌, ◌≡◌, ◌++◌, length, take, drop};
ghost use Rattle.sessions.specs.Calls.{Open, Add, Drop, Turn};
ghost use Rattle.lent_sessions.specs.Lent.{lent_answered, rows_after, lent_turned, lent_slice};

use lent_planner::add::add;
use lent_planner::drop::drop_request;
use lent_planner::open::open;
use lent_planner::turn::turn;
use lent_sessions::{LentAnswered, LentSession, LentTurned};
use requests::{Entry, Opening, Request};

// The most records of a script, more than a session takes.
pub const MOST_ROWS: usize = 512;

// open with the first rows.
pub fn open_rows(
    rows: &mut [Entry; MOST_ROWS],
    count: usize,
    session: LentSession,
    opening: Opening,
) -> LentAnswered
    requires { count ≤ 512 }
    ensures answered { result ≡ lent_answered session (take count rows.old) (Open opening) }
    ensures rows { rows.new ≡ rows_after session (take count rows.old) (Open opening) ++ drop count rows.old }
{
    open(&mut rows[..count], session, opening)
}

// add with the first rows.
pub fn add_rows(
    rows: &mut [Entry; MOST_ROWS],
    count: usize,
    session: LentSession,
    id: u64,
    request: Request,
) -> LentAnswered
    requires { count ≤ 512 }
    ensures answered { result ≡ lent_answered session (take count rows.old) (Add id request) }
    ensures rows { rows.new ≡ rows_after session (take count rows.old) (Add id request) ++ drop count rows.old }
{
    add(&mut rows[..count], session, id, request)
}

// drop with the first rows.
pub fn drop_rows(
    rows: &mut [Entry; MOST_ROWS],
    count: usize,
    session: LentSession,
    id: u64,
) -> LentAnswered
    requires { count ≤ 512 }
    ensures answered { result ≡ lent_answered session (take count rows.old) (Drop id) }
    ensures rows { rows.new ≡ rows_after session (take count rows.old) (Drop id) ++ drop count rows.old }
{
    drop_request(&mut rows[..count], session, id)
}

// turn with the first rows, and a slice for the write list.
pub fn turn_rows(
    rows: &mut [Entry; MOST_ROWS],
    count: usize,
    session: LentSession,
    out: &mut [u64],
) -> LentTurned
    requires { count ≤ 512 }
    ensures turned { result ≡ lent_turned session (take count rows.old) (length out.old) }
    ensures rows { rows.new ≡ rows_after session (take count rows.old) (Turn (length out.old)) ++ drop count rows.old }
    ensures list { out.new ≡ lent_slice session (take count rows.old) out.old }
{
    turn(&mut rows[..count], session, out)
}
