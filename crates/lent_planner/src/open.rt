// open, with lent records.
ghost use Rattle.std.specs.Prelude.{◌≡◌};
ghost use Rattle.sessions.specs.Calls.{Open};
ghost use Rattle.lent_sessions.specs.Lent.{new_lent, lent_answered, rows_after};
ghost use Rattle.lent_planner.specs.Decisions.{DecidesOpen};

pub use crate::rules::is_count;
use checks::askings::unasked;
use checks::devices::setup_of;
use lent_sessions::{LentAnswered, LentSession};
use planner::queue::vacant;
use requests::{CounterSet, Device, Entry, Opening, Refusal, Setup};

// The session before open.
#[tactic(auto, unfolding(lent_sessions::specs::Lent::new_lent))]
pub fn new_session() -> LentSession
    ensures { result ≡ new_lent }
{
    LentSession {
        opened: false,
        setup: Setup {
            device: Device::G,
            usable: CounterSet(0),
            fixed: 0,
            overflow: unasked(),
        },
    }
}

// The setup that an open with n records makes.
fn set_up(session: LentSession, n: usize, opening: Opening) -> Result<Setup, Refusal>
    ensures { DecidesOpen session n opening result }
{
    if session.opened {
        return Err(Refusal::CallOrder);
    }
    if !is_count(n) {
        return Err(Refusal::BadOpening);
    }
    setup_of(opening)
}

// Opens a session, once, and makes all records vacant.
pub fn open(rows: &mut [Entry], session: LentSession, opening: Opening) -> LentAnswered
    ensures { (result ≡ lent_answered session rows.old (Open opening)) × (rows.new ≡ rows_after session rows.old (Open opening)) }
{
    match set_up(session, rows.len(), opening) {
        Ok(setup) => {
            rows.fill(vacant());
            LentAnswered {
                answer: Ok(()),
                session: LentSession {
                    opened: true,
                    setup,
                },
            }
        }
        Err(refusal) => LentAnswered {
            answer: Err(refusal),
            session,
        },
    }
}
