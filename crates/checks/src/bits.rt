// Bits of words, tested by masks: the bits of an offcore word by their roles, and those of the packet filters, each with the document that
// names them.
ghost use Rattle.std.specs.Prelude.{◌≡◌};
ghost use Rattle.requests.specs.Bits.{any_bit, latency_word, only_bits};
ghost use Rattle.requests.specs.Masks.{bits_of};

// Request types (002, Table 18-21): DEMAND_DATA_RD 0 to PF_L2_RFO 5, PARTIAL_READS 7 to ANY_REQUEST 15.
pub const TYPES: u64 = 0x0000_0000_0000_FFBF;

// ANY_RESPONSE (000, 18.6.3): 16.
pub const ANY_RESPONSE: u64 = 0x0000_0000_0001_0000;

// Answers: L2_HIT 18 (Table 18-16), and the snoop answers (002, Table 18-22): L2_MISS.SNOOP_MISS_OR_NO_SNOOP_NEEDED 33, HIT_OTHER_CORE_NO_FWD 34,
// HITM_OTHER_CORE 36, NON_DRAM 37.
pub const ANSWERS: u64 = 0x0000_0036_0004_0000;

// OUTSTANDING (002, Table 18-22): 38.
pub const OUTSTANDING: u64 = 0x0000_0040_0000_0000;

// A response bit or OUTSTANDING.
pub const RESPONSES_OR_OUTSTANDING: u64 = ANY_RESPONSE | ANSWERS | OUTSTANDING;

// All permitted bits.
pub const PERMITTED: u64 = TYPES | RESPONSES_OR_OUTSTANDING;

// The fields of S_MSR_MATCH: 004, Table 2-33, whose rows our extract has lost.
pub const MATCH: u64 = 0xFFFF_FFFF_FFFF_FFFF;

// The fields of S_MSR_MASK (004, Table 2-35): hnid 0, addr 38:1.
pub const MASK: u64 = 0x0000_007F_FFFF_FFFF;

// Whether the word has a bit of the mask.
#[tactic(auto, using(requests::proofs::MaskTests::any_by_mask))]
pub fn any_bit(mask: u64, word: u64) -> bool
    ensures { result ≡ any_bit (bits_of mask) word }
{
    word & mask != 0
}

// Whether the word has no bit outside the mask.
#[tactic(auto, using(requests::proofs::MaskTests::only_by_mask))]
pub fn only_bits(mask: u64, word: u64) -> bool
    ensures { result ≡ only_bits (bits_of mask) word }
{
    word & mask == word
}

// The word of a latency request in an RSP register.
#[tactic(auto, unfolding(requests::specs::Bits::latency_word, requests::specs::Bits::outstanding, requests::specs::Bits::any_response))]
pub fn latency_word(register: u64, types: u16) -> u64
    ensures { result ≡ latency_word register types }
{
    let answer = if register == 0 {
        OUTSTANDING
    } else {
        ANY_RESPONSE
    };
    u64::from(types) + answer
}
