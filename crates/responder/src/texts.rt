// Texts, put into a lent slice from a place on; each function answers the place after its text.
ghost use Rattle.std.specs.Prelude.{◌≡◌, [], ◌∷◌, ◌+◌, ◌≤◌, length};
ghost use Rattle.grammar.specs.Text.{hex_text, decimal_text};
ghost use Rattle.responder.specs.Texts.{Put};

// Puts a byte.
pub fn put_byte(out: &mut [u8], at: usize, byte: u8) -> usize
    requires { at + 1 ≤ length out.old }
    ensures { Put out.old at (byte ∷ []) out.new result }
{
    out[at] = byte;
    at + 1
}

// Puts bytes.
pub fn put_bytes(out: &mut [u8], at: usize, bytes: &[u8]) -> usize
    requires { at + length bytes.now ≤ length out.old }
    ensures { Put out.old at bytes.now out.new result }
{
    let end = at + bytes.len();
    out[at..end].copy_from_slice(bytes);
    end
}

// Puts the last `width` hex digits of n, from the last to the first.
#[tactic(auto, unfolding(grammar::specs::Text::bytes))]
pub fn put_hex(out: &mut [u8], at: usize, width: usize, n: u64) -> usize
    requires { at + width ≤ length out.old }
    ensures { Put out.old at (hex_text width n) out.new result }
{
    let digits = b"0123456789ABCDEF";
    let end = at + width;
    let mut rest = n;
    for i in 0..width {
        out[end - 1 - i] = digits[(rest % 16) as usize];
        rest /= 16;
    }
    end
}

// How many decimal digits n has.
// Form: the loop ends by the number that is left and counts no index to a bound, so a `for` is no plainer.
fn decimal_width(n: u64) -> usize
    ensures { result ≡ length (decimal_text n) }
{
    let mut rest = n;
    let mut width = 1;
    while 10 <= rest {
        rest /= 10;
        width += 1;
    }
    width
}

// Puts n in decimal, from the last digit to the first.
// Form: a `for` over the width, and one function for both bases, were tried: a run of mixed lines takes 5% more instructions.
pub fn put_decimal(out: &mut [u8], at: usize, n: u64) -> usize
    requires { at + 20 ≤ length out.old }
    ensures { Put out.old at (decimal_text n) out.new result }
{
    let width = decimal_width(n);
    let mut rest = n;
    let mut i = width;
    while 10 <= rest {
        i -= 1;
        out[at + i] = (rest % 10) as u8 + b'0';
        rest /= 10;
    }
    out[at] = rest as u8 + b'0';
    at + width
}
