// What the rows of a list name of the catalogue of a device.
use crate::events::is_accepted;
use crate::rows::is_named;
use requests::Setup;
use std::{fmt, io};

// How many codes are accepted with some mask, and how many of these no row names; how many pairs of code and mask are accepted, and how many
// of these some row names.
#[derive(Clone, Copy, Default)]
pub struct Coverage {
    codes: u64,
    unnamed: u64,
    pairs: u64,
    named: u64,
}

impl Coverage {
    // What the rows name of the catalogue of the setup's device. A code that no row names is shown.
    pub fn of(rt: &impl Print, list: &[u8], setup: Setup) -> io::Result<Coverage> {
        let mut all = Coverage::default();
        for code in 0..=u8::MAX {
            let before = all;
            all.add_pairs(list, setup, code);
            if all.pairs != before.pairs {
                all.codes = all.codes.saturating_add(1);
                if all.named == before.named {
                    all.unnamed = all.unnamed.saturating_add(1);
                    println!(rt; "unnamed: {code:02x}")?;
                }
            }
        }
        Ok(all)
    }

    // Counts the pairs of a code.
    fn add_pairs(&mut self, list: &[u8], setup: Setup, code: u8) {
        for mask in 0..=u8::MAX {
            if is_accepted(setup, code, mask) {
                self.pairs = self.pairs.saturating_add(1);
                if is_named(list, setup.device, code, mask) {
                    self.named = self.named.saturating_add(1);
                }
            }
        }
    }
}

impl fmt::Display for Coverage {
    fn fmt<W: fmt::Write>(&self, f: &mut fmt::Formatter<W>) -> fmt::Result {
        write!(
            f,
            "codes {} unnamed {} pairs {} named {}",
            self.codes, self.unnamed, self.pairs, self.named
        )
    }
}
