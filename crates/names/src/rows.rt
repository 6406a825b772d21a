// A row: name, device letter, code(2), mask(2), parted by tabs.
ghost use Rattle.std.specs.Prelude.{◌≡◌};
ghost use Rattle.names.specs.Rows.{numbers_on, row_of, has_name, is_formed};

use crate::Row;
use crate::event_names::is_name;
use requests::Device;
use scanner::Format::Hex;
use scanner::fields::Fields;
use scanner::letters::device_at;

// How many fields a row has.
const ROW_FIELDS: usize = 4;

// What a row for a device says.
#[tactic(auto, unfolding(crate::specs::Rows::numbers_on))]
fn numbers_on(fields: &Fields, device: Device) -> Option<Row>
    ensures { result ≡ numbers_on fields.now.text.now device }
{
    let code = fields.number_at(2, Hex(2))?;
    let mask = fields.number_at(3, Hex(2))?;
    Some(Row {
        device,
        code: code as u8,
        mask: mask as u8,
    })
}

// What a row says, without its newline.
pub fn row_of(row: &[u8]) -> Option<Row>
    ensures { result ≡ row_of row.now }
{
    let fields = Fields::of(row);
    if fields.count != ROW_FIELDS {
        return None;
    }
    if !is_name(fields.field(0)) {
        return None;
    }
    let device = device_at(&fields, 1)?;
    numbers_on(&fields, device)
}

// Whether a row is formed.
pub fn is_formed(row: &[u8]) -> bool
    ensures { result ≡ is_formed (row_of row.now) }
{
    row_of(row).is_some()
}

// Whether a row has the name: its bytes before the first tab.
#[tactic(auto, unfolding(crate::specs::Rows::has_name))]
pub fn has_name(row: &[u8], name: &[u8]) -> bool
    ensures { result ≡ has_name name.now row.now }
{
    Fields::of(row).is_word(0, name)
}
