// The register tables as data: addresses and field places, each with its name in the manual.
// G and B: SDM volume 3 (IA32_*) and documents 001, 002 (MSR_OFFCORE_RSP*). S and C: document 004, sections 2.5 and 2.3, and the kernel driver.
// The U-Box, which S and C share, is in ubox.rt, and B's IA32_PEBS_ENABLE in pebs.rt.
ghost use Rattle.std.specs.Prelude.{◌≡◌};
ghost use Rattle.layouts.specs.Layout.{cbox_global, layout_of, enabled_on, enabled, event_word, rsp_word, packet_word, code_of, mask_of};

use checks::askings::asked;
use layouts::Layout;
use requests::{Device, Setup};

// ---- addresses, G and B (SDM volume 3, architectural MSRs; document 001 for the RSP registers)

const PERF_GLOBAL_CTRL: u64 = 0x038F; // IA32_PERF_GLOBAL_CTRL

const PERFEVTSEL0: u64 = 0x0186; // IA32_PERFEVTSEL0

const PMC0: u64 = 0x00C1; // IA32_PMC0

const MSR_STEP: u64 = 1; // from IA32_PERFEVTSELk and IA32_PMCk to those of k + 1

pub const OFFCORE_RSP0: u64 = 0x01A6; // MSR_OFFCORE_RSP0

pub const OFFCORE_RSP1: u64 = 0x01A7; // MSR_OFFCORE_RSP1

// ---- addresses, S (document 004, 2.5: S-Box 0 Performance Monitoring MSRs)

const PMON_GLOBAL_CTL: u64 = 0x0C40; // S_MSR_PMON_GLOBAL_CTL

const PMON_CTL0: u64 = 0x0C50; // S_MSR_PMON_CTL0

const PMON_CTR0: u64 = 0x0C51; // S_MSR_PMON_CTR0

const PMON_STEP: u64 = 2; // from S_MSR_PMON_CTLk and S_MSR_PMON_CTRk to those of k + 1

// ---- addresses, S, match/mask facility (kernel driver, uncore_nhmex.c: our extract of 004 lacks these rows, docs/DECISIONS.md 1)

pub const MM_CFG: u64 = 0x0E48; // S_MSR_MM_CFG

pub const MATCH: u64 = 0x0E49; // S_MSR_MATCH

pub const MASK: u64 = 0x0E4A; // S_MSR_MASK

// ---- addresses, C (document 004, 2.3.3: C-Box Performance Monitoring MSRs)

// CBx_CR_C_MSR_PMON_GLOBAL_CTL of each C-Box.
const C_GLOBAL_CTL: [u64; 8] = [
    0x0D00, // box 0: document 004, 2.3.3
    0x0D80, // box 1: kernel driver, uncore_nhmex.c, as all that follow
    0x0D40, // box 2
    0x0DC0, // box 3
    0x0D20, // box 4
    0x0DA0, // box 5
    0x0D60, // box 6
    0x0DE0, // box 7
];

const C_EVT_SEL0: u64 = 0x10; // from GLOBAL_CTL to CBx_CR_C_MSR_PMON_EVT_SEL_0 (box 0: 0D10 in document 004)

const C_CTR0: u64 = 0x11; // from GLOBAL_CTL to CBx_CR_C_MSR_PMON_CTR_0 (kernel driver)

const C_STEP: u64 = 2; // from EVT_SEL_k and CTR_k to those of k + 1 (kernel driver)

// ---- fields

const PERFEVTSEL_ENABLED: u64 = 0x0043_0000; // G, B, IA32_PERFEVTSELk: USR 16, OS 17, EN 22

const PMON_CTL_ENABLED: u64 = 0x0040_0000; // S, table 2-30, S_MSR_PMON_CTLk: enable 22

const EVT_SEL_ENABLED: u64 = 0x0040_0000; // C, table 2-13, C_MSR_PMON_EVT_SELk: en 22

const PMI_EN: u64 = 0x0010_0000; // S, C, tables 2-30, 2-13: pmi_en 20

const UMASK: u64 = 0x0100; // G, B: event select 7:0, unit mask 15:8; S, C, tables 2-30, 2-13: ev_sel 7:0, umask 15:8

const OFFCORE_RESPONSE: u8 = 0xB7; // G, document 001: the event of the RSP registers

const RSP0_UMASK: u8 = 0x01; // G, document 001: its unit mask for MSR_OFFCORE_RSP0

const RSP1_UMASK: u8 = 0x02; // G, document 001: its unit mask for MSR_OFFCORE_RSP1

const PACKET: u8 = 0x00; // S, 2.5.2: the event of the match/mask register

const PACKET_UMASK: u8 = 0x00; // S, document 01: its unit mask

pub const MM_CFG_ENABLE: u64 = 0x8000_0000_0000_0000; // S, 2.5.3.4, S_MSR_MM_CFG: bit 63

// The global control register of a C-Box; open takes none above 7, for which the row of box 0 stands.
#[tactic(auto, unfolding(layouts::specs::Layout::cbox_globals))]
fn cbox_global(cbox: u64) -> u64
    ensures { result ≡ cbox_global cbox }
{
    C_GLOBAL_CTL
        .get(cbox as usize)
        .copied()
        .unwrap_or(C_GLOBAL_CTL[0])
}

// Where the registers of a C-Box's counters are.
#[tactic(auto, unfolding(layouts::specs::Layout::layout_of))]
fn cbox_layout(cbox: u64) -> Layout
    ensures { result ≡ layout_of (Device.C cbox) }
{
    let global = cbox_global(cbox);
    Layout {
        global: global,
        control: global + C_EVT_SEL0,
        counter: global + C_CTR0,
        step: C_STEP,
    }
}

// Where the registers of the device's counters are.
#[tactic(auto, unfolding(layouts::specs::Layout::layout_of))]
pub fn layout_of(device: Device) -> Layout
    ensures { result ≡ layout_of device }
{
    match device {
        Device::G | Device::B => Layout {
            global: PERF_GLOBAL_CTRL,
            control: PERFEVTSEL0,
            counter: PMC0,
            step: MSR_STEP,
        },
        Device::S => Layout {
            global: PMON_GLOBAL_CTL,
            control: PMON_CTL0,
            counter: PMON_CTR0,
            step: PMON_STEP,
        },
        Device::C(cbox) => cbox_layout(cbox),
    }
}

// The bits that every event word of the device has.
#[tactic(auto, unfolding(layouts::specs::Layout::enabled_on))]
fn enabled_on(device: Device) -> u64
    ensures { result ≡ enabled_on device }
{
    match device {
        Device::G | Device::B => PERFEVTSEL_ENABLED,
        Device::S => PMON_CTL_ENABLED,
        Device::C(_) => EVT_SEL_ENABLED,
    }
}

// The bits that every event word of the session has.
#[tactic(auto, unfolding(layouts::specs::Layout::enabled, layouts::specs::Layout::pmi_enable))]
fn enabled_bits(setup: Setup) -> u64
    ensures { result ≡ enabled setup }
{
    let bits = enabled_on(setup.device);
    if asked(setup) { bits + PMI_EN } else { bits }
}

// The control word of an event.
#[tactic(auto, unfolding(layouts::specs::Layout::event_word))]
pub fn event_word(setup: Setup, code: u8, mask: u8) -> u64
    ensures { result ≡ event_word setup code mask }
{
    enabled_bits(setup) + UMASK * (mask as u64) + code as u64
}

// The control word of a counter on an RSP register.
// Form: the register stays a number (a): plans::Place has it as one, and so do the clauses `rsp_word` and `words_of`.
#[tactic(auto, unfolding(layouts::specs::Layout::rsp_word, layouts::specs::Layout::rsp_mask, layouts::specs::Layout::offcore_code))]
pub fn rsp_word(setup: Setup, register: u64) -> u64
    ensures { result ≡ rsp_word setup register }
{
    let mask = if register == 0 {
        RSP0_UMASK
    } else {
        RSP1_UMASK
    };
    event_word(setup, OFFCORE_RESPONSE, mask)
}

// The control word of a counter on the match/mask register.
#[tactic(auto, unfolding(layouts::specs::Layout::packet_word))]
pub fn packet_word(setup: Setup) -> u64
    ensures { result ≡ packet_word setup }
{
    event_word(setup, PACKET, PACKET_UMASK)
}

// The event code in a control word.
#[tactic(auto, unfolding(layouts::specs::Layout::code_of))]
pub fn code_of(word: u64) -> u8
    ensures { result ≡ code_of word }
{
    (word % UMASK) as u8
}

// The unit mask in a control word.
#[tactic(auto, unfolding(layouts::specs::Layout::mask_of))]
pub fn mask_of(word: u64) -> u8
    ensures { result ≡ mask_of word }
{
    (word / UMASK % UMASK) as u8
}
