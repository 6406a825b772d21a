// The registers that the reader is given, and their values.
ghost use Rattle.std.specs.Prelude.{◌<◌};

use checks::askings::asked;
use checks::devices::counter_count;
use checks::set::has;
use layouts::{FilterValues, RegisterValues};
use requests::{Device, Setup};

// A register that the reader is given, a control register by its counter.
#[derive(Clone, Copy)]
pub enum Register {
    Control(usize),
    Global,
    Rsp0,
    Rsp1,
    MmCfg,
    Match,
    Mask,
    Ubox,
    Pebs,
}

pub const REGISTERS: [Register; 14] = [
    Register::Control(0),
    Register::Control(1),
    Register::Control(2),
    Register::Control(3),
    Register::Control(4),
    Register::Control(5),
    Register::Global,
    Register::Rsp0,
    Register::Rsp1,
    Register::MmCfg,
    Register::Match,
    Register::Mask,
    Register::Ubox,
    Register::Pebs,
];

const ALL: u64 = u64::MAX;

// The values of registers with all bits set.
const ALL_SET: RegisterValues = RegisterValues {
    control: [ALL; 8],
    filters: FilterValues {
        rsp0: ALL,
        rsp1: ALL,
        mm_cfg: ALL,
        match_word: ALL,
        mask_word: ALL,
    },
    global: ALL,
    ubox: ALL,
    pebs: ALL,
};

impl Register {
    // The register at an address, if the reader is given it: of G and B, of S, and of C-Boxes 0, 1 and 7.
    fn at(address: u64) -> Option<Register> {
        match address {
            0x0186 | 0x0C50 | 0x0D10 | 0x0D90 | 0x0DF0 => Some(Register::Control(0)), // IA32_PERFEVTSEL0, S_MSR_PMON_CTL0, CBx_CR_C_MSR_PMON_EVT_SEL_0
            0x0187 | 0x0C52 | 0x0D12 | 0x0D92 | 0x0DF2 => Some(Register::Control(1)),
            0x0188 | 0x0C54 | 0x0D14 | 0x0D94 | 0x0DF4 => Some(Register::Control(2)),
            0x0189 | 0x0C56 | 0x0D16 | 0x0D96 | 0x0DF6 => Some(Register::Control(3)),
            0x0D18 | 0x0D98 | 0x0DF8 => Some(Register::Control(4)),
            0x0D1A | 0x0D9A | 0x0DFA => Some(Register::Control(5)),
            0x038F | 0x0C40 => Some(Register::Global), // IA32_PERF_GLOBAL_CTRL, S_MSR_PMON_GLOBAL_CTL
            0x0D00 | 0x0D80 | 0x0DE0 => Some(Register::Global), // CBx_CR_C_MSR_PMON_GLOBAL_CTL
            0x01A6 => Some(Register::Rsp0), // MSR_OFFCORE_RSP0
            0x01A7 => Some(Register::Rsp1), // MSR_OFFCORE_RSP1
            0x0E48 => Some(Register::MmCfg), // S_MSR_MM_CFG
            0x0E49 => Some(Register::Match), // S_MSR_MATCH
            0x0E4A => Some(Register::Mask), // S_MSR_MASK
            0x0C00 => Some(Register::Ubox), // U_MSR_PMON_GLOBAL_CTL
            0x03F1 => Some(Register::Pebs), // IA32_PEBS_ENABLE
            _ => None,
        }
    }

    // The register's value, for a change.
    fn of(self, values: &mut RegisterValues) -> Option<&mut u64> {
        match self {
            Register::Control(k) => values.control.get_mut(k),
            Register::Global => Some(&mut values.global),
            Register::Rsp0 => Some(&mut values.filters.rsp0),
            Register::Rsp1 => Some(&mut values.filters.rsp1),
            Register::MmCfg => Some(&mut values.filters.mm_cfg),
            Register::Match => Some(&mut values.filters.match_word),
            Register::Mask => Some(&mut values.filters.mask_word),
            Register::Ubox => Some(&mut values.ubox),
            Register::Pebs => Some(&mut values.pebs),
        }
    }

    // Whether the device has the register, or it is not a control register.
    pub fn is_on(self, device: Device) -> bool {
        match self {
            Register::Control(k) => (k as u64) < counter_count(device),
            _ => true,
        }
    }

    // Whether the reader looks at the register's value: MATCH and MASK count only where MM_CFG is not 0.
    pub fn looked_at(self, setup: Setup, values: RegisterValues) -> bool {
        match (self, setup.device) {
            (Register::Control(k), _) => has(setup.usable, k as u64),
            (Register::Global, _) => true,
            (Register::Ubox, _) => asked(setup),
            (Register::Rsp0 | Register::Rsp1, Device::G) => true,
            (Register::MmCfg, Device::S) => true,
            (Register::Match | Register::Mask, Device::S) => values.filters.mm_cfg != 0,
            (Register::Pebs, Device::B) => true,
            _ => false,
        }
    }
}

// The values after the writes of a list, from registers with all bits set.
pub fn after(writes: &[[u64; 2]]) -> RegisterValues {
    let mut values = ALL_SET;
    for [address, value] in writes {
        if let Some(register) = Register::at(*address) {
            if let Some(place) = register.of(&mut values) {
                *place = *value;
            }
        }
    }
    values
}

// The values with a bit of one of them changed.
pub fn changed(values: RegisterValues, register: Register, bit: u32) -> RegisterValues
    requires { bit < 64 }
{
    let mut others = values;
    if let Some(value) = register.of(&mut others) {
        *value ^= 1 << bit;
    }
    others
}
