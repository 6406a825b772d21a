// The rows of a device.
use crate::events::is_accepted;
use checks::devices::letter_of;
use names::look_up::look_up;
use names::rows::row_of;
use requests::{Device, Setup};
use std::{fmt, io};

// How many rows a device has, how many of them the planner refuses, and how many have a name that stands above them in the list.
#[derive(Clone, Copy, Default)]
pub struct Rows {
    count: u64,
    refused: u64,
    again: u64,
}

// Whether a row above has the name of this one.
fn is_again(above: &[u8], row: &[u8]) -> bool {
    let name = row.split(|byte| *byte == b'\t').next().unwrap_or(row);
    look_up(name, above, b"").is_some()
}

// Shows a row that should not be there.
fn show(rt: &impl Print, row: &[u8], why: &str) -> io::Result<()> {
    print!(rt; "{why}: ")?;
    rt.write_all(row)?;
    println!(rt)
}

impl Rows {
    // Counts one more row. It is shown where it should not be there.
    fn add(&mut self, rt: &impl Print, above: &[u8], row: &[u8], accepted: bool) -> io::Result<()> {
        self.count = self.count.saturating_add(1);
        if !accepted {
            self.refused = self.refused.saturating_add(1);
            show(rt, row, "refused")?;
        }
        if is_again(above, row) {
            self.again = self.again.saturating_add(1);
            show(rt, row, "again")?;
        }
        Ok(())
    }

    // The rows of the setup's device.
    pub fn of(rt: &impl Print, list: &[u8], setup: Setup) -> io::Result<Rows> {
        let mut rows = Rows::default();
        let mut at: usize = 0;
        for line in list.split_inclusive(|byte| *byte == b'\n') {
            let row = line.strip_suffix(b"\n").unwrap_or(line);
            if let Some(said) = row_of(row) {
                if letter_of(said.device) == letter_of(setup.device) {
                    let above = list.get(..at).unwrap_or(list);
                    rows.add(rt, above, row, is_accepted(setup, said.code, said.mask))?;
                }
            }
            at = at.saturating_add(line.len());
        }
        Ok(rows)
    }
}

impl fmt::Display for Rows {
    fn fmt<W: fmt::Write>(&self, f: &mut fmt::Formatter<W>) -> fmt::Result {
        write!(
            f,
            "rows {} refused {} again {}",
            self.count, self.refused, self.again
        )
    }
}

// Whether a row has the event.
fn is_row_of(row: &[u8], device: Device, code: u8, mask: u8) -> bool {
    row_of(row).is_some_and(|said| {
        letter_of(said.device) == letter_of(device) && said.code == code && said.mask == mask
    })
}

// Whether some row of the list has the event.
pub fn is_named(list: &[u8], device: Device, code: u8, mask: u8) -> bool {
    list.split(|byte| *byte == b'\n')
        .any(|row| is_row_of(row, device, code, mask))
}
