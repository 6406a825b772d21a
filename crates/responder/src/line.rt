// The reply to a line, in an array of its own.
ghost use Rattle.std.specs.Prelude.{◌≡◌};
ghost use Rattle.names.specs.Lists.{NameLists};
ghost use Rattle.answers.specs.Replies.{answer_line};
ghost use Rattle.responder.specs.Written.{in_array};

use crate::LineReply;
use crate::replies::{REPLY_ROOM, reply};
use parser::parse::parse_line;
use queue_rows::QUEUE_NUMBERS;
use queue_rows::packing::{pack, unpack};
use sessions::{QUEUE_LIMIT, Session};

// The reply to a line, its name looked up in the site's list and the house's.
#[tactic(auto, unfolding(answers::specs::ReplyLength::reply_room, crate::specs::Written::left_in))]
pub fn answer_line<'a>(session: Session, line: &[u8], site: &'a [u8], house: &'a [u8]) -> LineReply
    ensures { result ≡ in_array (answer_line (record { site = site.now; house = house.now }) session line.now) }
{
    let mut ids: [u64; QUEUE_LIMIT] = [0; QUEUE_LIMIT];
    let mut rows: [u64; QUEUE_NUMBERS] = [0; QUEUE_NUMBERS];
    let head = pack(session, &mut ids, &mut rows);
    let parsed = parse_line(line, session.setup.device, site, house);
    let mut text: [u8; REPLY_ROOM] = [0; REPLY_ROOM];
    let replied = reply(head, &mut ids, &mut rows, parsed, &mut text);
    LineReply {
        text,
        length: replied.written,
        session: unpack(replied.head, &ids, &rows),
    }
}
