// The letters of devices.
ghost use Rattle.std.specs.Prelude.{◌≡◌, [], ◌∷◌, ◌<◌};
ghost use Rattle.requests.specs.Devices.{letter_of};
ghost use Rattle.grammar.specs.Fields.{field_at, same_bytes_lem};
ghost use Rattle.grammar.specs.Letters.{lettered};

use crate::fields::Fields;
use checks::devices::{devices, letter_of};
use requests::Device;

// Whether field k is the letter of the device.
fn is_letter(fields: &Fields, k: usize, device: Device) -> bool
    requires { k < 8 }
    ensures { result ≡ same_bytes_lem (field_at fields.now.text.now k) (letter_of device ∷ []) }
{
    let letter = letter_of(device) as u8;
    fields.is_word(k, &[letter])
}

// The device whose letter field k is.
pub fn device_at(fields: &Fields, k: usize) -> Option<Device>
    requires { k < 8 }
    ensures { result ≡ lettered (field_at fields.now.text.now k) }
{
    for device in devices(0) {
        if is_letter(fields, k, device) {
            return Some(device);
        }
    }
    None
}
