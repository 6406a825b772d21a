// A queue in two arrays: the ids of its entries, and their requests as rows of four numbers.
ghost use Rattle.std.specs.Prelude.{◌≡◌, ◌==◌, ◌<◌, position, set, get_or};
ghost use Rattle.search.specs.Rows.{request_of, request_at};
ghost use Rattle.sessions.specs.Sessions.{vacant};
ghost use Rattle.queue_rows.specs.Rows.{queue_in, Sized, Holding};

use crate::QUEUE_NUMBERS;
use requests::Request;
use search::rows::{request_of, row_of};
use sessions::QUEUE_LIMIT;

// The request of row `at`.
#[tactic(auto, unfolding(search::specs::Rows::request_at))]
pub fn request_in(rows: &[u64; QUEUE_NUMBERS], at: usize) -> Request
    requires { at < 16 }
    ensures { result ≡ request_at rows.now at }
{
    let kind = rows[at * 4];
    let a = rows[at * 4 + 1];
    let b = rows[at * 4 + 2];
    let c = rows[at * 4 + 3];
    request_of(kind, a, b, c)
}

// An id and four numbers become the entry at a place.
#[tactic(auto, unfolding(search::specs::Rows::set_row))]
pub fn put_numbers(
    ids: &mut [u64; QUEUE_LIMIT],
    rows: &mut [u64; QUEUE_NUMBERS],
    at: usize,
    id: u64,
    kind: u64,
    a: u64,
    b: u64,
    c: u64,
)
    requires at_bound { at < 16 }
    requires sized { Sized ids.old rows.old }
    ensures { Holding ids.new rows.new (set (queue_in ids.old rows.old) at (record { id = id; request = request_of kind a b c })) }
{
    ids[at] = id;
    rows[at * 4] = kind;
    rows[at * 4 + 1] = a;
    rows[at * 4 + 2] = b;
    rows[at * 4 + 3] = c;
}

// A request with its id becomes the entry at a place.
pub fn put_entry(
    ids: &mut [u64; QUEUE_LIMIT],
    rows: &mut [u64; QUEUE_NUMBERS],
    at: usize,
    id: u64,
    request: Request,
)
    requires at_bound { at < 16 }
    requires sized { Sized ids.old rows.old }
    ensures { Holding ids.new rows.new (set (queue_in ids.old rows.old) at (record { id = id; request = request })) }
{
    let row = row_of(request);
    put_numbers(ids, rows, at, id, row.kind, row.a, row.b, row.c);
}

// The entry at one place stands at another too.
#[tactic(auto, unfolding(crate::specs::Rows::entry_at, search::specs::Rows::request_at))]
pub fn copy_entry(
    ids: &mut [u64; QUEUE_LIMIT],
    rows: &mut [u64; QUEUE_NUMBERS],
    from: usize,
    to: usize,
)
    requires from_bound { (from < 16) × (to < 16) }
    requires sized { Sized ids.old rows.old }
    ensures { Holding ids.new rows.new (set (queue_in ids.old rows.old) to (get_or (queue_in ids.old rows.old) from vacant)) }
{
    let id = ids[from];
    let kind = rows[from * 4];
    let a = rows[from * 4 + 1];
    let b = rows[from * 4 + 2];
    let c = rows[from * 4 + 3];
    put_numbers(ids, rows, to, id, kind, a, b, c);
}

// Where the first of these ids stands that is the id.
// Form: a loop; `position` was tried, and costs a drop one or two instructions more for each id that it looks at.
pub fn place_of(ids: &[u64], id: u64) -> Option<usize>
    ensures { result ≡ position (λ x. id == x) ids.now }
{
    for (i, known) in ids.iter().enumerate() {
        if id == *known {
            return Some(i);
        }
    }
    None
}
