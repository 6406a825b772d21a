// open: a session gets its setup.
ghost use Rattle.std.specs.Prelude.{List, ℕ, ◌≡◌};
ghost use Rattle.sessions.specs.Sessions.{open_of};
ghost use Rattle.queue_rows.specs.Heads.{session_in, answered_in};

use crate::{Head, HeadAnswered};
use checks::devices::setup_of;
use requests::{Answer, Opening, Refusal};

// Opens a session, once. The arrays stay as they are: of an opened session none of their places counts.
#[tactic(auto, unfolding(crate::specs::Heads::answered_in, crate::specs::Heads::session_in))]
pub fn open(head: Head, opening: Opening) -> HeadAnswered
    ensures { (ids rows : List ℕ) → answered_in result ids rows ≡ open_of (session_in head ids rows) opening }
{
    let opened = head.opened;
    if opened {
        return HeadAnswered {
            answer: Err(Refusal::CallOrder),
            head,
        };
    }
    match setup_of(opening) {
        Err(refusal) => HeadAnswered {
            answer: Err(refusal),
            head,
        },
        Ok(setup) => {
            let next = Head {
                opened: true,
                setup,
                len: 0,
                trimmed: true,
            };
            HeadAnswered {
                answer: Ok(()),
                head: next,
            }
        }
    }
}
