// The lines about a saved catalogue: the list is saved as a file or loaded from one, and the file that a script keeps is shown and changed. What stands behind a line's
// name is `rest`.
#![tactic(auto)]

ghost use Rattle.std.specs.Prelude.{◌≡◌, ℕ, ◌≤◌, ◌↔◌, [], ◌∷◌, ◌++◌, length, take, set, replicate, vec_len, vec_capacity, IsSome, OnSome, IfNone, IfOk};
ghost use Rattle.catalogue.specs.Catalogue.{load_call, save_output};

use replies::Reply;
use script::Answer;
use std::alloc::{AllocError, Global};

// How many bytes a file has at most, and an output that a list is saved in.
pub const FILE: usize = 65536;

// What each byte of an output is before the list is saved in it.
const BLANK: u8 = 0x77;

// The file that a script keeps, and the output that a list was saved in last.
#[derive(Drop)]
pub struct Files {
    pub kept: Vec<u8>,
    pub saved: Vec<u8>,
}

impl Files {
    // The empty file, with room for the longest.
    pub fn new(alloc: Global) -> Result<Files, AllocError>
        ensures empty { IfOk result (λ f. (f.kept.items ≡ []) × (f.saved.items ≡ [])) }
        ensures room { IfOk result (λ f. (FILE ≤ vec_capacity f.kept) × (FILE ≤ vec_capacity f.saved)) }
    {
        Ok(Files {
            kept: Vec::with_capacity(alloc, FILE)?,
            saved: Vec::with_capacity(alloc, FILE)?,
        })
    }

    // ---- lines that load a file into the list

    // Loads the bytes that the line says.
    pub fn load(rest: &[u8], words: &mut [u64], text: &mut Vec<u8>) -> Option<Reply>
        ensures loaded { OnSome result (words.new ≡ (load_call text.new.items words.old).words) }
        ensures unchanged { IfNone result (words.new ≡ words.old) }
    {
        script::text(rest, text)?;
        if text.len() > FILE {
            return None;
        }
        Some(catalogue::load(words, text).into())
    }

    // Loads the kept file.
    pub fn reload(&self, rest: &[u8], words: &mut [u64]) -> Option<Reply>
        ensures loaded { OnSome result (words.new ≡ (load_call self.now.kept.items words.old).words) }
        ensures unchanged { IfNone result (words.new ≡ words.old) }
        ensures variant { IsSome result ↔ (length rest.now ≡ 0) }
    {
        if !rest.is_empty() {
            return None;
        }
        Some(catalogue::load(words, &self.kept).into())
    }

    // ---- saving

    // Saves the list under the label that the line says, in an output of as many bytes as it says behind that, and keeps the file. A lone word is no label.
    pub fn save(
        &mut self,
        rest: &[u8],
        words: &[u64],
        text: &mut Vec<u8>,
        numbers: &mut Vec<u64>,
    ) -> Option<Reply>
        ensures saved { OnSome result ((n : ℕ) × (numbers.new.items ≡ n ∷ []) × (self.new.saved.items ≡ save_output text.new.items words.now (replicate n BLANK))) }
        ensures most { vec_len self.old.kept ≤ FILE → vec_len self.new.kept ≤ FILE }
    {
        let label_and_more = script::after_words(rest, 1);
        let room = if label_and_more.is_empty() {
            rest
        } else {
            label_and_more
        };
        script::text(&rest[..rest.len() - room.len()], text)?;
        script::numbers(room, numbers)?;
        let &[n] = numbers.as_slice() else {
            return None;
        };
        let n = usize::try_from(n).ok()?;
        if n > FILE {
            return None;
        }
        self.save_in(words, text, n)
    }

    // Saves the list in an output of n bytes that all hold the same before, and keeps the file.
    fn save_in(&mut self, words: &[u64], label: &[u8], n: usize) -> Option<Reply>
        requires { n ≤ FILE }
        ensures saved { OnSome result (self.new.saved.items ≡ save_output label.now words.now (replicate n BLANK)) }
        ensures most { vec_len self.old.kept ≤ FILE → vec_len self.new.kept ≤ FILE }
    {
        self.saved.clear();
        self.saved.resize(n, BLANK).ok()?;
        let answer = catalogue::save(words, label, &mut self.saved);
        if let Ok(call::Answer::Number(used)) = answer {
            self.keep(used as usize)?;
            return Some(Reply::Saved(used));
        }
        Some(answer.into())
    }

    // Keeps the first n bytes of the output.
    fn keep(&mut self, n: usize) -> Option<()>
        ensures kept { OnSome result (self.new.kept.items ≡ take n self.old.saved.items) }
        ensures saved { self.new.saved.items ≡ self.old.saved.items }
        ensures most { vec_len self.new.kept ≤ vec_len self.old.saved }
    {
        self.kept.clear();
        let n = n.min(self.saved.len());
        self.kept.extend_from_slice(&self.saved[..n]).ok()
    }

    // ---- the kept file

    // Shows the kept file.
    pub fn show(rest: &[u8]) -> Option<Reply>
        ensures { IsSome result ↔ (length rest.now ≡ 0) }
    {
        rest.is_empty().then_some(Reply::File)
    }

    // Sets a byte.
    pub fn poke(&mut self, rest: &[u8], numbers: &mut Vec<u64>) -> Option<Reply>
        ensures set { OnSome result ((i value : ℕ) × (numbers.new.items ≡ i ∷ value ∷ []) × (self.new.kept.items ≡ set self.old.kept.items i value)) }
        ensures unchanged { IfNone result (self.new.kept.items ≡ self.old.kept.items) }
    {
        script::numbers(rest, numbers)?;
        let &[i, value] = numbers.as_slice() else {
            return None;
        };
        let byte = self.kept.get_mut(usize::try_from(i).ok()?)?;
        *byte = u8::try_from(value).ok()?;
        Some(Answer::Accepted.into())
    }

    // Cuts it to at most so many bytes.
    pub fn cut(&mut self, rest: &[u8], numbers: &mut Vec<u64>) -> Option<Reply>
        ensures cut { OnSome result ((n : ℕ) × (numbers.new.items ≡ n ∷ []) × (self.new.kept.items ≡ take n self.old.kept.items)) }
        ensures unchanged { IfNone result (self.new.kept.items ≡ self.old.kept.items) }
    {
        script::numbers(rest, numbers)?;
        let &[n] = numbers.as_slice() else {
            return None;
        };
        self.kept.truncate(usize::try_from(n).ok()?);
        Some(Answer::Accepted.into())
    }

    // Puts the bytes that the line says behind it. A file that would be too long is left as it is.
    pub fn add(&mut self, rest: &[u8], text: &mut Vec<u8>) -> Option<Reply>
        ensures added { OnSome result (self.new.kept.items ≡ self.old.kept.items ++ text.new.items) }
        ensures unchanged { IfNone result (self.new.kept.items ≡ self.old.kept.items) }
        ensures most { vec_len self.old.kept ≤ FILE → vec_len self.new.kept ≤ FILE }
    {
        script::text(rest, text)?;
        if text.len() > FILE.saturating_sub(self.kept.len()) {
            return None;
        }
        self.kept.extend_from_slice(text).ok()?;
        Some(Answer::Accepted.into())
    }
}

#[cfg(test)]
mod tests {
    use super::*;
    use std::test::Fail;

    // No contract can say that there is memory.
    #[test]
    fn a_file_is_kept(rt: HostRuntime) -> Result<(), Fail> {
        let mut files = Files::new(rt.alloc())?;
        let (mut text, mut numbers) = (Vec::new(rt.alloc()), Vec::new(rt.alloc()));
        assert!(rt; files.add(b" 010203", &mut text).is_some());
        assert!(rt; files.poke(b" 1 9", &mut numbers).is_some());
        assert!(rt; files.cut(b" 2", &mut numbers).is_some());
        assert_eq!(rt; files.kept.as_slice(), [1u8, 9].as_slice());
        assert!(rt; files.save(b" 4", &[], &mut text, &mut numbers).is_some());
        assert_eq!(rt; files.saved.as_slice(), [BLANK; 4].as_slice());
        Ok(())
    }
}
