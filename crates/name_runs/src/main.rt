// Runs with lists of names. The house's list is held to the event catalogues: whether it is formed, and a line for each device.
// Then rows are looked up in two lists, in the same exchanged, and in two of which one is damaged. Then come transcripts: a technician's
// with the house's list, one for each device with the names of the papers, one with names of every kind, and one with a damaged list.
#![tactic(auto)]

mod coverage;
mod events;
mod look_ups;
mod rows;
mod transcripts;

use crate::coverage::Coverage;
use crate::events::all_usable;
use crate::look_ups::look_up_each;
use crate::rows::Rows;
use crate::transcripts::answer_named;
use descriptors::file::read_file;
use descriptors::told::Tell;
use names::lists::list_formed;
use requests::Device;
use std::io;
use std::rt::{Clock, Files};

// The room for a list of names.
const LIST_ROOM: usize = 65536;

// Whether the list is formed; and of each device its letter, its rows and what they name of its catalogue.
fn report(rt: &impl Print, list: &[u8]) -> io::Result<()> {
    let formed = if list_formed(list) {
        "formed"
    } else {
        "ill-formed"
    };
    println!(rt; "{formed}")?;
    let devices = [
        ("G", Device::G),
        ("S", Device::S),
        ("C", Device::C(0)),
        ("B", Device::B),
    ];
    for (letter, device) in devices {
        let setup = all_usable(device);
        let rows = Rows::of(rt, list, setup)?;
        let coverage = Coverage::of(rt, list, setup)?;
        println!(rt; "{letter} {rows} {coverage}")?;
    }
    Ok(())
}

// Holds the list of a file to the catalogues.
fn hold<H: Files + Clock + Tell + Print>(rt: &H, path: &[u8]) -> io::Result<()> {
    let mut room = [0u8; LIST_ROOM];
    let Ok(n) = read_file(rt, path, &mut room) else {
        return Ok(());
    };
    report(rt, &room[..n])
}

fn main(rt: HostRuntime) -> io::Result<()> {
    hold(&rt, b"house.txt")?;
    let one = b"BOTH\tG\t3C\t00\nSITE\tG\tC0\t00\n";
    let other = b"BOTH\tG\tC4\t00\nHOUSE\tG\tC5\t00\n";
    let damaged = b"BOTH\tG\tC4\t00\nHOUSE\tG\tC5\t00";
    look_up_each(&rt, one, other)?;
    look_up_each(&rt, other, one)?;
    look_up_each(&rt, one, damaged)?;
    let mut output = rt.stdout();
    for (path, site, house) in [
        ("technician.txt", "technician.site", "house.txt"),
        ("g.txt", "no_site.txt", "house.txt"),
        ("s.txt", "no_site.txt", "house.txt"),
        ("c.txt", "no_site.txt", "house.txt"),
        ("b.txt", "no_site.txt", "house.txt"),
        ("names.txt", "names.site", "names.house"),
        ("damaged.txt", "damaged.site", "damaged.house"),
    ] {
        answer_named(&rt, &mut output, path, site, house);
    }
    Ok(())
}
