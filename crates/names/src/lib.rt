// Names: the search for a name's entry, and making one. What is looked for is the name's bytes, which are lent; its words are made one
// at a time, so that a name of any length needs no room but the store's. They hash to what the entry's words hash to, and the search goes through
// the same chains of the index as that for any other entry. With `wrap`, the name is the lent text in brackets.
#![tactic(auto)]

ghost use Rattle.std.specs.Prelude.{◌≡◌, ◌++◌, ◌+◌, ◌≤◌, length, take, drop, get_or};
ghost use Rattle.words.specs.Words.{eqs};
ghost use Rattle.words.specs.Made.{make};
ghost use Rattle.words.specs.Ran.{Segments, Runs};
ghost use Rattle.index.specs.Covers.{Covers};
ghost use Rattle.source.specs.Packed.{of_bytes};
ghost use Rattle.names.specs.Name.{name_entry, wrapped, longest_text};

use words::{Interned, Wanted, kinds};

// The bytes of "[" and "]".
const OPEN_BRACKET: u8 = b'[';

const CLOSE_BRACKET: u8 = b']';

// A name that is looked for or made: a lent text, or, with `wrap`, the text in brackets.
#[derive(Clone, Copy)]
pub struct Name<'a> {
    pub text: &'a [u8],
    pub wrap: bool,
    ghost short: { length text.now ≤ longest_text },
}

// The byte of a text at a position, 0 past its end.
fn text_at(text: &[u8], i: usize) -> u8
    ensures { result ≡ get_or text.now i 0 }
{
    text.get(i).copied().unwrap_or(0)
}

impl Name<'_> {
    // How many bytes it has.
    #[tactic(auto, using(crate::proofs::Bytes::length_wrapped, crate::proofs::Bytes::length_plain))]
    fn len(&self) -> usize
        ensures { result ≡ length (wrapped self.now.wrap self.now.text.now) }
    {
        if self.wrap {
            return self.text.len() + 2;
        }
        self.text.len()
    }

    // Its byte at a position, 0 past its end.
    #[tactic(auto, using(crate::proofs::Bytes::plain, crate::proofs::Bytes::opens, crate::proofs::Bytes::closes, crate::proofs::Bytes::between))]
    fn byte_at(&self, i: usize) -> u8
        ensures { result ≡ get_or (wrapped self.now.wrap self.now.text.now) i 0 }
    {
        if !self.wrap {
            return text_at(self.text, i);
        }
        if i == 0 {
            return OPEN_BRACKET;
        }
        if i - 1 == self.text.len() {
            return CLOSE_BRACKET;
        }
        text_at(self.text, i - 1)
    }

    // Eight of its bytes, from a position on, as a word, one by one. Told to be rare, so that the search around it keeps its registers: it was slower without.
    #[cold]
    #[inline(never)]
    fn last_eight(&self, at: usize) -> u64
        requires { at ≤ longest_text + 1 }
        ensures { result ≡ of_bytes (take 8 (drop at (wrapped self.now.wrap self.now.text.now))) }
    {
        let mut w = 0;
        for k in 0..8 {
            w = u64::from(self.byte_at(at + 7 - k)) + 256 * w;
        }
        w
    }

    // The same, at once where the text has them.
    #[tactic(auto, using(crate::proofs::Bytes::plain_word))]
    fn eight(&self, at: usize) -> u64
        requires { at ≤ longest_text + 1 }
        ensures { result ≡ of_bytes (take 8 (drop at (wrapped self.now.wrap self.now.text.now))) }
    {
        if !self.wrap && at + 8 <= self.text.len() {
            return source::eight(self.text, at);
        }
        self.last_eight(at)
    }
}

impl Wanted for Name<'_> {
    ghost entry = { λ n. name_entry (wrapped n.wrap n.text.now) };

    #[tactic(auto, using(crate::proofs::Bytes::length_most, crate::proofs::NameEntry::name_length))]
    fn size(&self) -> usize {
        1 + (self.len() + 7) / 8
    }

    #[tactic(auto, using(crate::proofs::Bytes::length_most, crate::proofs::NameEntry::head_word))]
    fn head(&self) -> u64 {
        kinds::COUNT * self.len() as u64
    }

    #[tactic(auto, using(crate::proofs::NameEntry::name_most, crate::proofs::NameEntry::later_word))]
    fn word(&self, i: usize) -> u64 {
        if i == 0 {
            return self.head();
        }
        self.eight(8 * (i - 1))
    }
}

// Whether an entry is that of a name.
pub fn same_name(e: &[u64], text: &[u8], wrap: bool) -> bool
    requires { length text.now ≤ longest_text }
    ensures { result ≡ eqs e.now (name_entry (wrapped wrap text.now)) }
{
    Name { text, wrap }.same(e)
}

// Hands back the lowest handle of a name's entry, else appends it, where it fits.
pub fn intern_name(
    old: &[u64],
    new: &mut [u64],
    used: usize,
    text: &[u8],
    wrap: bool,
    index: &[u64],
) -> Option<Interned>
    requires segments { Segments old.now new.old used }
    requires text_len_bound { length text.now ≤ longest_text }
    requires covers { Covers (take used (old.now ++ new.old)) index.now }
    ensures { Runs (λ u. make u (name_entry (wrapped wrap text.now))) old.now new.old used new.new result }
{
    index::intern_wanted(old, new, used, Name { text, wrap }, index)
}
