// The lines of a script: each is read, and the call that it names is made.
#![tactic(auto)]

ghost use Rattle.std.specs.Prelude.{◌≡◌, ◌≤◌, false, [], length, vec_len, vec_capacity, IfOk};

use call_lines::{OUTPUT, Store};
use file_lines::{FILE, Files};
use list_lines::{Order, WORDS};
use replies::Reply;
use script::Answer;
use std::alloc::{AllocError, Global};

// How many words of index and of memory a list has beside it where it is an opened store (opened/specs/OpenStore.antt).
const INDEX: usize = 2 * WORDS + WORDS / 64 + 1;

const MEMORY: usize = 98304;

// How many bytes a text has at most.
const TEXT: usize = 131072;

// What is kept from line to line: the list, and the file; a list that a line remembered; and room for a line's numbers, its text and the output that it fills.
#[derive(Drop)]
pub struct Session {
    pub store: Store,
    pub files: Files,
    pub output: Vec<u64>,
    kept: Vec<u64>,
    numbers: Vec<u64>,
    text: Vec<u8>,
}

impl Session {
    // The empty list and the empty file. All room that lines take is made here, so that no line runs out of memory.
    pub fn new(alloc: Global) -> Result<Session, AllocError>
        ensures list { IfOk result (λ s. s.store ≡ ([], false)) }
        ensures file { IfOk result (λ s. s.files.kept.items ≡ []) }
        ensures output { IfOk result (λ s. (s.output.items ≡ []) × (OUTPUT ≤ vec_capacity s.output)) }
    {
        Ok(Session {
            store: Store::new(alloc, WORDS, INDEX, MEMORY)?,
            files: Files::new(alloc)?,
            output: Vec::with_capacity(alloc, OUTPUT)?,
            kept: Vec::with_capacity(alloc, WORDS)?,
            numbers: Vec::with_capacity(alloc, call_lines::NUMBERS)?,
            text: Vec::with_capacity(alloc, TEXT)?,
        })
    }

    // What a line answers: `None` where it is no call.
    pub fn line(&mut self, line: &[u8]) -> Option<Reply>
        ensures list { length self.old.store.0 ≤ WORDS → length self.new.store.0 ≤ WORDS }
        ensures file { vec_len self.old.files.kept ≤ FILE → vec_len self.new.files.kept ≤ FILE }
        ensures output { vec_len self.old.output ≤ OUTPUT → vec_len self.new.output ≤ OUTPUT }
    {
        let said = script::cut(line);
        if said.is_empty() {
            return Some(Reply::Nothing);
        }
        let (name, rest) = script::split_word(said);
        match name {
            b"load" => {
                let text = &mut self.text;
                self.store.close(|words| Files::load(rest, words, text))
            }
            b"reload" => {
                let files = &self.files;
                self.store.close(|words| files.reload(rest, words))
            }
            b"save" => {
                let (text, numbers) = (&mut self.text, &mut self.numbers);
                self.files.save(rest, self.store.words(), text, numbers)
            }
            b"file" => Files::show(rest),
            b"fpoke" => self.files.poke(rest, &mut self.numbers),
            b"fcut" => self.files.cut(rest, &mut self.numbers),
            b"fadd" => self.files.add(rest, &mut self.text),
            _ => self.named(name, rest),
        }
    }

    // A line of a name with numbers behind it, or with numbers and a text.
    fn named(&mut self, name: &[u8], rest: &[u8]) -> Option<Reply>
        ensures list { length self.old.store.0 ≤ WORDS → length self.new.store.0 ≤ WORDS }
        ensures file { self.new.files ≡ self.old.files }
        ensures output { vec_len self.old.output ≤ OUTPUT → vec_len self.new.output ≤ OUTPUT }
    {
        if let Some(k) = call_lines::numbers_before_text(name) {
            let text = script::after_words(rest, k);
            script::numbers(&rest[..rest.len() - text.len()], &mut self.numbers)?;
            script::text(text, &mut self.text)?;
            return self.call(name);
        }
        script::numbers(rest, &mut self.numbers)?;
        call_lines::repeated(name, &mut self.numbers)?;
        self.text.clear();
        match list_lines::order_of(name, &self.numbers) {
            Order::Close(closing) => self.store.close(|words| list_lines::change(closing, words)),
            Order::Read(reading) => {
                list_lines::read(reading, &self.numbers, self.store.words(), &mut self.kept)
            }
            Order::Open => Some(self.store.open().into()),
            Order::Call => self.call(name),
        }
    }

    // A call, which leaves an opened store open.
    fn call(&mut self, name: &[u8]) -> Option<Reply>
        ensures list { length self.new.store.0 ≡ length self.old.store.0 }
        ensures file { self.new.files ≡ self.old.files }
        ensures output { vec_len self.old.output ≤ OUTPUT → vec_len self.new.output ≤ OUTPUT }
    {
        self.store
            .call(name, &self.numbers, &self.text, &mut self.output)
    }
}

#[cfg(test)]
mod tests {
    use super::*;
    use std::test::Fail;

    // No contract can say that there is memory.
    #[test]
    fn lines_are_answered(rt: HostRuntime) -> Result<(), Fail> {
        let mut session = Session::new(rt.alloc())?;
        for line in [
            b"fresh 4096".as_slice(),
            b"open",
            b"int 7",
            b"save 400",
            b"fcut 3",
        ] {
            assert!(rt; session.line(line).is_some());
        }
        assert_eq!(rt; session.store.words().len(), 4096);
        assert_eq!(rt; session.files.kept.len(), 3);
        Ok(())
    }
}
