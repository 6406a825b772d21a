// The search for the end of a line.
ghost use Rattle.lines.specs.Pieces.{FirstNewline};

// The place of the first newline of a block.
#[tactic(auto, unfolding(grammar::specs::Text::newline))]
pub fn newline_in(block: &[u8]) -> Option<usize>
    ensures { FirstNewline block.now result }
{
    block.iter().position(|byte| *byte == b'\n')
}
