// Requests as rows of four numbers in one array: the form in which the search reads them.
// Form: (a) the C interface (`rattle_plan_rows` of bench) gives the rows as numbers, kinds too, in an array of fixed length with a count.
ghost use Rattle.std.specs.Prelude.{◌≡◌, List, ℕ, ◌<◌, length};
ghost use Rattle.search.specs.Rows.{request_of, request_at, set_row, set_request};

use crate::Row;
use requests::{CAPACITY, CounterSet, Request};

// The numbers of all rows: four for each request.
pub const ROW_NUMBERS: usize = 4 * CAPACITY;

// The kinds of request, as a row begins with them.
pub const EVENT: u64 = 0;

const PACKET: u64 = 1;

pub const OFFCORE: u64 = 2;

const LATENCY: u64 = 3;

// The request of four numbers.
#[tactic(auto, unfolding(crate::specs::Rows::request_of))]
pub fn request_of(kind: u64, a: u64, b: u64, c: u64) -> Request
    ensures { result ≡ request_of kind a b c }
{
    match kind {
        EVENT => Request::Event {
            code: (a % 256) as u8,
            mask: (b % 256) as u8,
            allowed: CounterSet(c),
        },
        PACKET => Request::Packet {
            match_word: a,
            mask_word: b,
            allowed: CounterSet(c),
        },
        OFFCORE => Request::Offcore {
            word: a,
            allowed: CounterSet(c),
        },
        _ => Request::Latency {
            types: (a % 65536) as u16,
            first: CounterSet(b),
            second: CounterSet(c),
        },
    }
}

// The request of row `at`.
#[tactic(auto, unfolding(crate::specs::Rows::request_at))]
pub fn request_at(rows: &[u64; ROW_NUMBERS], at: usize) -> Request
    requires { at < 8 }
    ensures { result ≡ request_at rows.now at }
{
    let row = at * 4;
    request_of(rows[row], rows[row + 1], rows[row + 2], rows[row + 3])
}

// The row of a request, which reads back as it.
#[tactic(auto, unfolding(crate::specs::Rows::set_request, crate::specs::Rows::request_of))]
pub fn row_of(request: Request) -> Row
    ensures c_value { request_of result.kind result.a result.b result.c ≡ request }
    ensures by_index { (rows : List ℕ) (at : ℕ) → set_row rows at result.kind result.a result.b result.c ≡ set_request rows at request }
{
    let (kind, a, b, c) = match request {
        Request::Event {
            code,
            mask,
            allowed,
        } => (EVENT, u64::from(code), u64::from(mask), allowed.0),
        Request::Packet {
            match_word,
            mask_word,
            allowed,
        } => (PACKET, match_word, mask_word, allowed.0),
        Request::Offcore { word, allowed } => (OFFCORE, word, 0, allowed.0),
        Request::Latency {
            types,
            first,
            second,
        } => (LATENCY, u64::from(types), first.0, second.0),
    };
    Row { kind, a, b, c }
}

// Row `at` becomes the request, and reads back as it.
#[tactic(auto, unfolding(crate::specs::Rows::set_row))]
pub fn put_request(rows: &mut [u64; ROW_NUMBERS], at: usize, request: Request)
    requires { (at < 8) × (length rows.old ≡ 32) }
    ensures rows_after { rows.new ≡ set_request rows.old at request }
    ensures at_after { request_at rows.new at ≡ request }
{
    let row = row_of(request);
    rows[at * 4] = row.kind;
    rows[at * 4 + 1] = row.a;
    rows[at * 4 + 2] = row.b;
    rows[at * 4 + 3] = row.c;
}
