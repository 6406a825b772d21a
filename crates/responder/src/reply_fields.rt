// The field at fault of a call that is refused; 0 of one that is accepted.
ghost use Rattle.std.specs.Prelude.{◌≡◌};
ghost use Rattle.requests.specs.Faults.{opening_fields, request_fields, no_fields, answer_field};
ghost use Rattle.responder.specs.Written.{line_field};

use checks::faults::field_of;
use checks::fields::{no_fields, opening_fields, request_fields};
use names::named::named_field;
use queue_rows::HeadAnswered;
use requests::{Answer, Opening, Request};

// Of an open.
#[tactic(auto, unfolding(requests::specs::Faults::answer_field))]
pub fn open_field(answer: Answer, opening: Opening) -> usize
    ensures { result ≡ answer_field answer (opening_fields opening) }
{
    match answer {
        Ok(()) => 0,
        Err(refusal) => field_of(refusal, opening_fields(opening)),
    }
}

// Of an add, whose line has its numbers or a name.
#[tactic(auto, unfolding(requests::specs::Faults::answer_field, crate::specs::Written::line_field))]
pub fn add_field(added: HeadAnswered, request: Request, named: bool) -> usize
    ensures { result ≡ line_field named (answer_field added.answer (request_fields added.head.setup.device request)) }
{
    match added.answer {
        Ok(()) => 0,
        Err(refusal) => {
            let device = added.head.setup.device;
            let field = field_of(refusal, request_fields(device, request));
            if named { named_field(field) } else { field }
        }
    }
}

// Of a drop.
#[tactic(auto, unfolding(requests::specs::Faults::answer_field))]
pub fn drop_field(answer: Answer) -> usize
    ensures { result ≡ answer_field answer no_fields }
{
    match answer {
        Ok(()) => 0,
        Err(refusal) => field_of(refusal, no_fields()),
    }
}
