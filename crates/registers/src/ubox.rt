// The U-Box's global control register, U_MSR_PMON_GLOBAL_CTL: the list of a session that asks something begins and ends with it.
ghost use Rattle.std.specs.Prelude.{◌≡◌, eqb, ◌^◌};
ghost use Rattle.requests.specs.Choice.{pick};
ghost use Rattle.layouts.specs.Layout.{frz_all};
ghost use Rattle.layouts.specs.Writes.{core_bit, ubox_value};
ghost use Rattle.layouts.specs.Read.{ubox_fits};

use checks::askings::{CORE_COUNT, asked};
use requests::Setup;

pub const U_GLOBAL_CTL: u64 = 0x0C00; // document 004, table 2-1

const FRZ_ALL: u64 = 0x8000_0000; // document 004, table 2-2: frz_all 31

const EN_ALL: u64 = 0x1000_0000; // kernel driver, uncore_nhmex.c: en_all 28

const CORE_SEL: u64 = 1; // kernel driver: the lowest bit of pmi_core_sel, which is that of core 0

// The bit of frz_all, where a freeze is asked.
#[tactic(auto, unfolding(layouts::specs::Layout::frz_all))]
fn freeze_bit(freeze: u64) -> u64
    ensures { result ≡ pick (eqb freeze 0) 0 (2 ^ frz_all) }
{
    if freeze == 0 { 0 } else { FRZ_ALL }
}

// The bit of a core in pmi_core_sel.
#[tactic(auto, unfolding(layouts::specs::Writes::core_bit))]
fn core_bit(core: Option<u64>) -> u64
    ensures { result ≡ core_bit core }
{
    match core {
        None => 0,
        Some(number) if number < CORE_COUNT => 1 << (CORE_SEL + number),
        Some(_) => 0,
    }
}

// The last value: en_all and what is asked.
#[tactic(auto, using(crate::proofs::UBoxValues::freeze_small, crate::proofs::UBoxValues::core_small), unfolding(layouts::specs::Writes::ubox_value, layouts::specs::Layout::en_all))]
pub fn ubox_value(setup: Setup) -> u64
    ensures { result ≡ ubox_value setup }
{
    EN_ALL + freeze_bit(setup.overflow.freeze) + core_bit(setup.overflow.core)
}

// Whether the register may hold the value.
#[tactic(auto, unfolding(layouts::specs::Read::ubox_fits, requests::specs::Choice::either))]
pub fn ubox_fits(setup: Setup, value: u64) -> bool
    ensures { result ≡ ubox_fits setup value }
{
    !asked(setup) || value == ubox_value(setup)
}
