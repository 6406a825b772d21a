// Pieces of a line: kept until the line ends, and parsed then.
ghost use Rattle.std.specs.Prelude.{◌≡◌, ltb, take};
ghost use Rattle.requests.specs.Choice.{either, pick};
ghost use Rattle.names.specs.Lists.{NameLists};
ghost use Rattle.streams.specs.Stream.{NewlineFree};
ghost use Rattle.lines.specs.Pieces.{KeptOn, EndedLine};

use crate::Extent;
use grammar::Parsed;
use parser::parse::parse_text;
use requests::Device;
use responder::texts::put_bytes;
use streams::LONGEST;

// Whether a line has begun.
#[tactic(auto, unfolding(requests::specs::Choice::either))]
pub fn begun(used: usize, long: bool) -> bool
    ensures { result ≡ either long (ltb 0 used) }
{
    long || 0 < used
}

// Keeps a piece of an unfinished line behind what is kept of it.
#[tactic(auto, unfolding(grammar::specs::Parse::longest, streams::specs::Stream::feed_state))]
pub fn keep(kept: &mut [u8; LONGEST], used: usize, long: bool, piece: &[u8]) -> Extent
    requires { NewlineFree piece.now }
    ensures { KeptOn kept.old used long piece.now kept.new result }
{
    let from = used.min(LONGEST);
    let n = piece.len().min(LONGEST - from);
    put_bytes(kept, from, &piece[..n]);
    Extent {
        used: used + n,
        long: long || n < piece.len(),
    }
}

// The line that a piece ends: what is kept of it where it began before, otherwise the piece.
fn line_of<'a>(carried: bool, kept: &'a [u8], piece: &'a [u8]) -> &'a [u8]
    ensures { result.now ≡ pick carried kept.now piece.now }
{
    if carried { kept } else { piece }
}

// The first bytes of a text, at most n.
fn start_of<'a>(text: &'a [u8], n: usize) -> &'a [u8]
    ensures { result.now ≡ take n text.now }
{
    &text[..n.min(text.len())]
}

// What a line asks for that ends with a piece.
// One call of `parse_text` serves a kept line and a whole one, so that it is compiled into the caller's loop.
#[tactic(auto, unfolding(grammar::specs::Parse::longest))]
pub fn parse_ended<'a>(
    kept: &mut [u8; LONGEST],
    used: usize,
    long: bool,
    piece: &[u8],
    device: Device,
    site: &'a [u8],
    house: &'a [u8],
) -> Parsed
    requires { NewlineFree piece.now }
    ensures { EndedLine (record { site = site.now; house = house.now }) device kept.old used long piece.now result }
{
    let carried = begun(used, long);
    let ended = if carried {
        keep(kept, used, long, piece)
    } else {
        Extent {
            used: LONGEST,
            long: LONGEST < piece.len(),
        }
    };
    let line = line_of(carried, kept, piece);
    parse_text(
        start_of(line, ended.used),
        true,
        ended.long,
        device,
        site,
        house,
    )
}
