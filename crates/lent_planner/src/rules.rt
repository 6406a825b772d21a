// The rules of the lent records, tested in one pass.
ghost use Rattle.std.specs.Prelude.{◌≡◌, true, false, ◌∷◌, [], ◌+◌, ◌<◌, ◌^◌, length};
ghost use Rattle.requests.specs.Checks.{formed};
ghost use Rattle.plans.specs.Search.{has_plan_lem};
ghost use Rattle.lent_sessions.specs.Records.{is_count, all_zero, may_wait};
ghost use Rattle.lent_planner.specs.Surveys.{all_left_lem, is_left, taken_id, fresh, may_count, counted, survey_step, surveyed};
ghost use Rattle.lent_planner.specs.Decisions.{ChecksRows};

use crate::Survey;
use checks::catalogue::look_up;
use checks::check::request_refusal;
use checks::devices::all_counters;
use checks::set::has;
use lent_sessions::{LentSession, MOST_RECORDS};
use planner::add::plans_alone;
use planner::ids::outside_ids;
use requests::{Answer, CounterSet, Entry, Refusal, Request, Setup};
use search::extend::counter_alone;

// The words of a set of all ids below 65536.
const WORDS: usize = 1024;

// Whether so many records may be lent.
#[tactic(auto, unfolding(lent_sessions::specs::Records::is_count, requests::specs::Choice::both, lent_sessions::specs::Records::most_records))]
pub fn is_count(n: usize) -> bool
    ensures { result ≡ is_count n }
{
    1 <= n && n <= MOST_RECORDS
}

// Whether the request is an event with all numbers 0.
#[tactic(auto, unfolding(lent_sessions::specs::Records::all_zero, requests::specs::Choice::both))]
fn all_zero(request: Request) -> bool
    ensures { result ≡ all_zero request }
{
    matches!(
        request,
        Request::Event {
            code: 0,
            mask: 0,
            allowed: CounterSet(0)
        }
    )
}

// Whether the request is a listed event that asks for no counter but the device's, any of them, one of which is usable. Most requests are, and
// nothing else has to be asked of them.
#[tactic(auto, unfolding(requests::specs::Checks::too_wide))]
fn fits_at_once(setup: Setup, request: Request) -> bool
    ensures { result ≡ true → (formed setup request ≡ true) × (has_plan_lem setup (request ∷ []) ≡ true) }
{
    let Request::Event {
        code,
        mask,
        allowed,
    } = request
    else {
        return false;
    };
    allowed.0 <= all_counters(setup.device).0
        && counter_alone(setup, request)
        && look_up(setup.device, code, mask).pair
}

// Whether the record may wait: an id, and a well-formed request with a plan by itself.
#[tactic(auto, unfolding(lent_sessions::specs::Records::may_wait, requests::specs::Choice::both, requests::specs::Checks::formed))]
fn may_wait(setup: Setup, e: &Entry) -> bool
    ensures { result ≡ may_wait setup e.now }
{
    if outside_ids(e.id) {
        return false;
    }
    if fits_at_once(setup, e.request) {
        return true;
    }
    request_refusal(setup, e.request).is_ok() && plans_alone(setup, e.request)
}

// The ids below 65536 that no record has had, as bits.
#[derive(Drop)]
struct Ids {
    words: [u64; WORDS],
}

impl Ids {
    #[tactic(auto, unfolding(crate::specs::Surveys::all_left_lem))]
    fn all() -> Ids
        ensures { result.words ≡ all_left_lem }
    {
        Ids {
            words: [u64::MAX; WORDS],
        }
    }

    // Whether the id is left.
    #[tactic(auto, unfolding(crate::specs::Surveys::is_left, requests::specs::Devices::has))]
    fn contains(&self, id: u64) -> bool
        ensures { result ≡ is_left self.now.words id }
    {
        let word = (id / 64) as usize;
        word < WORDS && has(CounterSet(self.words[word]), id % 64)
    }

    // Takes an id that is left.
    #[tactic(auto, unfolding(crate::specs::Surveys::is_left, crate::specs::Surveys::taken_id))]
    fn take(&mut self, id: u64)
        requires { is_left self.old.words id ≡ true }
        ensures { self.new.words ≡ taken_id self.old.words id }
    {
        let word = (id / 64) as usize;
        self.words[word] -= 1 << (id % 64);
    }
}

impl Survey {
    // A pass that has not begun.
    #[tactic(auto, unfolding(crate::specs::Surveys::fresh))]
    fn fresh(setup: Setup, id: u64) -> Survey
        ensures { result ≡ fresh setup id }
    {
        Survey {
            setup,
            id,
            len: 0,
            at: None,
            ended: false,
            broken: false,
        }
    }

    // Whether the record is the next that waits.
    #[tactic(auto, unfolding(crate::specs::Surveys::may_count, requests::specs::Choice::both))]
    fn may_count(&self, left: &Ids, e: &Entry) -> bool
        ensures { result ≡ may_count left.now.words self.now e.now }
    {
        !self.ended && may_wait(self.setup, e) && left.contains(e.id)
    }

    // One more record waits.
    #[tactic(auto, unfolding(crate::specs::Surveys::counted))]
    fn count(&mut self, id: u64)
        requires { self.old.len + 1 < 2 ^ 64 }
        ensures { self.new ≡ counted self.old id }
    {
        if self.id == id {
            self.at = Some(self.len);
        }
        self.len += 1;
    }

    // The pass goes over one more record.
    #[tactic(auto, unfolding(crate::specs::Surveys::ended, crate::specs::Surveys::spoiled))]
    fn step(&mut self, left: &mut Ids, e: &Entry)
        requires { self.old.len + 1 < 2 ^ 64 }
        ensures { (self.new, left.new.words) ≡ survey_step left.old.words self.old e.now }
    {
        if self.broken {
            return;
        }
        if e.id == 0 {
            self.ended = true;
            self.broken = !all_zero(e.request);
        } else if self.may_count(left, e) {
            left.take(e.id);
            self.count(e.id);
        } else {
            self.broken = true;
        }
    }

    // What comes before the refusal table in a call on the queue, with n records in which this is found.
    pub fn check(&self, session: LentSession, n: usize) -> Answer
        ensures { ChecksRows session n self.now result }
    {
        if !session.opened {
            return Err(Refusal::CallOrder);
        }
        if !is_count(n) || self.broken {
            return Err(Refusal::BadOpening);
        }
        Ok(())
    }
}

// The pass over all records, in which the id is looked for.
pub fn survey(rows: &[Entry], setup: Setup, id: u64) -> Survey
    ensures { result ≡ surveyed (fresh setup id) rows.now }
{
    let mut left = Ids::all();
    let mut t = Survey::fresh(setup, id);
    for e in rows {
        t.step(&mut left, e);
    }
    t
}
