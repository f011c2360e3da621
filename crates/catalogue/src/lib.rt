// A saved catalogue: the writer, and the loader, which checks a file's bytes before it writes a word.
#![tactic(auto)]

ghost use Rattle.std.specs.Prelude.{◌≡◌, ◌++◌, ◌+◌, ◌-◌, ◌*◌, ◌/◌, ◌<◌, ◌≤◌, min, length, take, drop, replicate, eqb};
ghost use Rattle.bitset.specs.Bitset.{word_bits};
ghost use Rattle.source.specs.Source.{unpacked};
ghost use Rattle.wellformed.specs.Form.{longest_allowed, behind_fresh};
ghost use Rattle.call.specs.Call.{left, told};
ghost use Rattle.distinct.specs.Distinct.{most_bits};
ghost use Rattle.catalogue.specs.Catalogue.{save_call, save_output, forms_store, load_call, loaded_store};

use call::{Answer, Refusal};
use words::limits;

// ---- the writer

// Saves a store under a label, in an output of bytes.
#[tactic(auto, using(crate::proofs::Saving::saving))]
pub fn save(words: &[u64], label: &[u8], file: &mut [u8]) -> Result<Answer, Refusal>
    ensures words_value { left (told result) words.now ≡ save_call label.now (length file.old) words.now }
    ensures file_after { file.new ≡ save_output label.now words.now file.old }
{
    if !wellformed::well_formed(words) {
        return Err(Refusal::NoStore);
    }
    if label.len() > catalogue_file::LONGEST_LABEL {
        return Err(Refusal::TooMany);
    }
    let used = words[0] as usize;
    let n = catalogue_file::file_length(label.len(), used);
    if file.len() < n {
        return Err(Refusal::ShortOutput);
    }
    Ok(Answer::Number(catalogue_file::write_file(words, used, label, file) as u64))
}

// ---- the loader

// Whether a position and a number of words fit a file with so many bytes before its trailer. The sum could run over 64 bits: it is not formed.
#[tactic(auto, using(crate::proofs::Loading::too_many, crate::proofs::Loading::the_rest))]
fn trailer_fits(start: u64, count: u64, body: u64) -> bool
    ensures { result ≡ eqb (start + 8 * count) body }
{
    if count > body / 8 {
        return false;
    }
    start == body - 8 * count
}

// Whether the words in `tail` form a store behind the fresh ones, with no two equal entries.
#[tactic(auto, using(wellformed::proofs::Tail::tail_length, crate::proofs::Formed::few))]
fn stores(tail: &[u8], bits: &mut [u64]) -> bool
    requires { (min (length (behind_fresh (unpacked tail.now))) longest_allowed ≤ word_bits * length bits.old) × (length bits.old ≤ most_bits) }
    ensures { result ≡ forms_store (unpacked tail.now) }
{
    if !wellformed::verify_tail(tail, bits) {
        return false;
    }
    let used = limits::FRESH_LENGTH + tail.len() / 8;
    let mut first = [0u64; limits::FRESH_LENGTH];
    words::headed(&mut first, used as u64, &wellformed::FRESH);
    distinct::distinct(&first, tail, used, bits)
}

// How many words of bits the two tests are lent: for a store of up to 4,096 words sixteen bits a word, so that the second test is quick.
const SMALL_BITS: usize = 1024;

const SMALL_TAIL: usize = 8 * 4002;

const LARGE_BITS: usize = 16384;

// The same with so many words of bits, which stand in this frame. It is put into no other function, so that a small file needs little stack.
#[tactic(auto, using(wellformed::proofs::Tail::tail_length))]
#[inline(never)]
fn stores_with<const BITS: usize>(tail: &[u8]) -> bool
    requires enough { min (length (behind_fresh (unpacked tail.now))) longest_allowed ≤ word_bits * BITS }
    requires few { BITS ≤ most_bits }
    ensures { result ≡ forms_store (unpacked tail.now) }
{
    let mut bits = [0u64; BITS];
    stores(tail, &mut bits)
}

// The same.
#[tactic(auto, using(wellformed::proofs::Tail::tail_length))]
fn stores_for(tail: &[u8]) -> bool
    ensures { result ≡ forms_store (unpacked tail.now) }
{
    if tail.len() <= SMALL_TAIL {
        stores_with::<SMALL_BITS>(tail)
    } else {
        stores_with::<LARGE_BITS>(tail)
    }
}

// Fills a list with the store whose words behind the fresh ones are in `tail`, and zeroes its rest. It is put into no other function, so that its array is gone
// where `load` tests the words.
#[tactic(auto, using(wellformed::proofs::Tail::tail_length))]
#[inline(never)]
fn fill(words: &mut [u64], tail: &[u8])
    requires { (length (behind_fresh (unpacked tail.now)) ≤ length words.old) × (length words.old ≤ longest_allowed) }
    ensures { words.new ≡ loaded_store (unpacked tail.now) (length words.old) }
{
    let used = limits::FRESH_LENGTH + tail.len() / 8;
    let mut first = [0u64; limits::FRESH_LENGTH];
    words::headed(&mut first, used as u64, &wellformed::FRESH);
    source::gather(&first, tail, 0, used, words);
    words::clear(&mut words[used..]);
}

// Loads a file into a lent list. All is checked before the first word is written.
#[tactic(auto, using(crate::proofs::Loading::loading))]
pub fn load(words: &mut [u64], file: &[u8]) -> Result<Answer, Refusal>
    ensures { left (told result) words.new ≡ load_call file.now words.old }
{
    if words.len() < limits::FRESH_LENGTH {
        return Err(Refusal::NoStore);
    }
    if words.len() > limits::LONGEST {
        return Err(Refusal::NoStore);
    }
    let n = file.len();
    if n < catalogue_file::TRAILER {
        return Err(Refusal::NoTrailer);
    }
    let end = n - catalogue_file::TRAILER;
    let start = source::eight(file, end);
    let count = source::eight(file, n - 8);
    if !trailer_fits(start, count, end as u64) {
        return Err(Refusal::NoTrailer);
    }
    let from = start as usize;
    if !stores_for(&file[from..end]) {
        return Err(Refusal::WrongWords);
    }
    if start > catalogue_file::LONGEST_LABEL as u64 {
        return Err(Refusal::TooMany);
    }
    if (words.len() as u64) < limits::FRESH_LENGTH as u64 + count {
        return Err(Refusal::NoRoom);
    }
    fill(words, &file[from..end]);
    Ok(Answer::Number(start))
}
