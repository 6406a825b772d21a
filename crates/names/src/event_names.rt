// The names of events.
ghost use Rattle.std.specs.Prelude.{◌≡◌};
ghost use Rattle.names.specs.EventNames.{name_byte, is_name};

// The most bytes of a name.
const LONGEST_NAME: usize = 40;

// Whether the byte is an upper-case letter, a digit or an underscore.
#[tactic(auto, unfolding(crate::specs::EventNames::name_byte))]
fn name_byte(b: u8) -> bool
    ensures { result ≡ name_byte b }
{
    matches!(b, b'0'..=b'9' | b'A'..=b'Z' | b'_')
}

// Whether a field is a name: 1 to 40 such bytes.
pub fn is_name(field: &[u8]) -> bool
    ensures { result ≡ is_name field.now }
{
    if field.is_empty() || LONGEST_NAME < field.len() {
        return false;
    }
    field.iter().all(|b| name_byte(*b))
}
