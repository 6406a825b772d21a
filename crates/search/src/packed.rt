// Places read out of a packed plan.
ghost use Rattle.std.specs.Prelude.{◌≡◌, ◌<◌, ◌≤◌};
ghost use Rattle.plans.specs.Search.{place_of};
ghost use Rattle.search.specs.Rows.{rows_from};
ghost use Rattle.plans.specs.Packed.{place_at_lem, places_from};
ghost use Rattle.search.specs.Found.{given};

use crate::rows::{ROW_NUMBERS, request_at};
use plans::Place;
use requests::{CAPACITY, Request};

// The place of a request at counter k with register or second counter j.
#[tactic(auto, unfolding(plans::specs::Search::place_of))]
fn place_of(request: Request, k: u64, j: u64) -> Place
    ensures { result ≡ place_of request k j }
{
    match request {
        Request::Event { .. } | Request::Packet { .. } => Place::Counter(k),
        Request::Offcore { .. } => Place::WithRsp(k, j),
        Request::Latency { .. } => Place::Pair(k, j),
    }
}

// The place of the request whose number in the packed plan is i.
#[tactic(auto, unfolding(plans::specs::Packed::place_at_lem))]
pub fn place_at(code: u64, i: usize, request: Request) -> Place
    requires { i < 8 }
    ensures { result ≡ place_at_lem code i request }
{
    let digits = code >> (6 * i);
    place_of(request, digits / 8 % 8, digits % 8)
}

// The places of the requests in the first `count` rows, in their array.
#[tactic(auto, unfolding(crate::specs::Rows::rows_from, plans::specs::Packed::places_from, crate::specs::Found::given, crate::specs::Found::nothing, requests::specs::Devices::capacity))]
pub fn places_of(code: u64, rows: &[u64; ROW_NUMBERS], count: usize) -> [Place; CAPACITY]
    requires { count ≤ 8 }
    ensures { result ≡ given (places_from code 0 (rows_from rows.now 0 count)) }
{
    let mut places = [Place::Counter(0); CAPACITY];
    for i in 0..count {
        places[i] = place_at(code, i, request_at(rows, i));
    }
    places
}
