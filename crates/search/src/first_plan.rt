// The first legal plan of a list of requests.
ghost use Rattle.std.specs.Prelude.{◌≡◌, ◌≤◌, length, take};
ghost use Rattle.plans.specs.Search.{first_plan};
ghost use Rattle.search.specs.Rows.{rows_from};
ghost use Rattle.search.specs.Found.{found_of};

use crate::packed::places_of;
use crate::plan_rows::plan_rows;
use crate::rows::{ROW_NUMBERS, put_request};
use plans::Place;
use requests::{CAPACITY, Request, Setup};

// The rows become the requests.
#[tactic(auto, unfolding(crate::specs::Rows::rows_from))]
fn put_requests(rows: &mut [u64; ROW_NUMBERS], requests: &[Request])
    requires { (length requests.now ≤ 8) × (length rows.old ≡ 32) }
    ensures { rows_from rows.new 0 (length requests.now) ≡ requests.now }
{
    for (i, request) in requests.iter().enumerate() {
        put_request(rows, i, *request);
    }
}

// The first plan of at most 8 requests.
fn plan_of(setup: Setup, requests: &[Request]) -> Option<[Place; CAPACITY]>
    requires { length requests.now ≤ 8 }
    ensures { result ≡ found_of (first_plan setup requests.now) }
{
    let mut rows = [0; ROW_NUMBERS];
    put_requests(&mut rows, requests);
    let code = plan_rows(setup, &rows, requests.len());
    if code == 0 {
        return None;
    }
    Some(places_of(code, &rows, requests.len()))
}

// The first plan of the first `count` requests.
pub fn first_plan(
    setup: Setup,
    requests: [Request; CAPACITY],
    count: usize,
) -> Option<[Place; CAPACITY]>
    ensures { result ≡ found_of (first_plan setup (take count requests)) }
{
    plan_of(setup, &requests[..count.min(CAPACITY)])
}
