// The file of a saved catalogue (specs/File.antt): its length, and writing it.
#![tactic(auto)]

ghost use Rattle.std.specs.Prelude.{◌≡◌, ◌++◌, ◌+◌, ◌-◌, ◌*◌, ◌≤◌, length, take, drop};
ghost use Rattle.wellformed.specs.Fresh.{fresh_length};
ghost use Rattle.wellformed.specs.Form.{longest_allowed};
ghost use Rattle.catalogue_file.specs.File.{longest_label, bytes_of, file_of, trailer_length};

use words::limits;

// "a label of 0 to 255 bytes"
pub const LONGEST_LABEL: usize = 255;

// the trailer's two words
pub const TRAILER: usize = 16;

// How long the file of a label of n bytes and a store of so many used words is.
pub fn file_length(n: usize, used: usize) -> usize
    requires { (n ≤ longest_label) × (fresh_length ≤ used) × (used ≤ longest_allowed) }
    ensures { result ≡ n + 8 * (used - fresh_length) + trailer_length }
{
    n + 8 * (used - limits::FRESH_LENGTH) + TRAILER
}

// Writes the eight bytes of a word, lowest first, at a position.
#[tactic(auto, using(crate::proofs::Written::word_put))]
fn put_word(out: &mut [u8], at: usize, w: u64)
    requires { at + 8 ≤ length out.old }
    ensures { out.new ≡ take at out.old ++ (bytes_of 8 w ++ drop (at + 8) out.old) }
{
    out[at..at + 8].copy_from_slice(&w.to_le_bytes());
}

// Writes the label's bytes at the front, one by one: words `write` says why.
fn put_label(out: &mut [u8], label: &[u8])
    requires { length label.now ≤ length out.old }
    ensures { out.new ≡ label.now ++ drop (length label.now) out.old }
{
    for i in 0..label.len() {
        out[i] = label[i];
    }
}

// Writes the file of a store's used words, and tells its length.
pub fn write_file(words: &[u64], used: usize, label: &[u8], out: &mut [u8]) -> usize
    requires fresh_length_le_used { (fresh_length ≤ used) × (used ≤ length words.now) × (used ≤ longest_allowed) × (length label.now ≤ longest_label) }
    requires trailer_length_in_bounds { length label.now + 8 * (used - fresh_length) + trailer_length ≤ length out.old }
    ensures { (result ≡ length (file_of label.now (take used words.now))) × (out.new ≡ file_of label.now (take used words.now) ++ drop result out.old) }
{
    put_label(out, label);
    let n = label.len();
    for (k, w) in words[limits::FRESH_LENGTH..used].iter().enumerate() {
        put_word(out, n + 8 * k, *w);
    }
    let end = n + 8 * (used - limits::FRESH_LENGTH);
    put_word(out, end, n as u64);
    put_word(out, end + 8, (used - limits::FRESH_LENGTH) as u64);
    end + TRAILER
}
