// The fields of a text, as parts of it between tabs.
ghost use Rattle.std.specs.Prelude.{◌≡◌, ◌<◌};
ghost use Rattle.grammar.specs.Fields.{field_at, same_bytes_lem};
ghost use Rattle.grammar.specs.Numbers.{number_of};
ghost use Rattle.grammar.specs.Verbs.{is_whole};
ghost use Rattle.scanner.specs.Parts.{Parted};
ghost use Rattle.scanner.specs.Formats.{IsFormat, code_of};

use crate::Format;
use crate::numbers::{core_number, decimal, hex};
use crate::words::same;

// The most fields that are told apart; no record has as many.
const MOST_FIELDS: usize = 8;

// The fields of a text: where each ends, those past the last one at its end, and how many there are.
#[derive(Clone, Copy)]
pub struct Fields<'a> {
    pub text: &'a [u8],
    pub ends: [usize; MOST_FIELDS],
    pub count: usize,
    pub ghost parted: { Parted text.now ends count },
}

impl<'a> Fields<'a> {
    // Where the fields end, found in one pass.
    pub fn of(text: &'a [u8]) -> Self
        ensures { result.text.now ≡ text.now }
    {
        let mut ends = [text.len(); MOST_FIELDS];
        let mut tabs = 0;
        for (i, b) in text.iter().enumerate() {
            if *b == b'\t' {
                if tabs < MOST_FIELDS {
                    ends[tabs] = i;
                }
                tabs += 1;
            }
        }
        Fields {
            text,
            ends,
            count: tabs + 1,
        }
    }

    // Field k, counted from 0: the part of the text between two tabs. Where there is none, an empty part.
    pub fn field(&self, k: usize) -> &'a [u8]
        requires { k < 8 }
        ensures { result.now ≡ field_at self.now.text.now k }
    {
        if self.count <= k {
            return &self.text[..0];
        }
        let end = self.ends[k];
        if k == 0 {
            return &self.text[..end];
        }
        let begin = self.ends[k - 1] + 1;
        &self.text[begin..end]
    }

    // Whether there are n fields, and they are closed by a newline.
    #[tactic(auto, unfolding(requests::specs::Choice::both))]
    pub fn is_whole(&self, closed: bool, n: usize) -> bool
        ensures { result ≡ is_whole self.now.text.now closed n }
    {
        closed && self.count == n
    }

    // Whether field k is the word.
    pub fn is_word(&self, k: usize, word: &[u8]) -> bool
        requires { k < 8 }
        ensures { result ≡ same_bytes_lem (field_at self.now.text.now k) word.now }
    {
        same(self.field(k), word)
    }

    // Field k as the number of the format.
    pub fn number_at(&self, k: usize, format: Format) -> Option<u64>
        requires { (k < 8) × IsFormat format }
        ensures { result ≡ number_of (code_of format) (field_at self.now.text.now k) }
    {
        let field = self.field(k);
        match format {
            Format::Decimal => decimal(field),
            Format::Hex(width) => hex(field, width),
            Format::Core => core_number(field),
        }
    }
}
