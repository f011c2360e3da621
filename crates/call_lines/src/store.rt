// The list that a script works on.
ghost use Rattle.std.specs.Prelude.{◌≡◌, List, [], ℕ, Bool, false, ◌≤◌, ◌⊎◌, length, replicate, vec_len, vec_capacity, IfOk, OnSome};
ghost use Rattle.std.specs.Fn.{FnOnceReturnsAtMut};
ghost use Rattle.call.specs.Call.{left, made, told};
ghost use Rattle.every_call.specs.Run.{run, meet_list};
ghost use Rattle.making.specs.Making.{appended};
ghost use Rattle.asking.specs.Asking.{asked, output_of};
ghost use Rattle.std.specs.Result.{is_ok};
ghost use Rattle.call_lines.specs.OpenIf.{OpenIf};

use crate::{Line, OUTPUT, line_of, list_of};
use asking::Asking;
use call::{Answer, Refusal};
use making::Making;
use replies::Reply;
use std::alloc::{AllocError, Global};
use std::marker::Model;
use struct_calls::Filling;

// What each word of an output holds before a call.
const BLANK: u64 = 7777;

// A list, and whether it is an opened store: then with its index and its memory beside it.
#[derive(Drop)]
pub struct Store {
    words: Vec<u64>,
    index: Vec<u64>,
    memory: Vec<u64>,
    opened: bool,
}

impl Model for Store {
    // the list, and whether it is an opened store
    ghost Value = { List ℕ × Bool };

    ghost view = { λ s. (s.words.items, s.opened) };

    ghost invariant = { λ s. OpenIf s.opened s.words.items s.index.items s.memory.items };
}

impl Store {
    // The empty list, with room for so many words, an index and a memory of so many.
    pub fn new(
        alloc: Global,
        words: usize,
        index: usize,
        memory: usize,
    ) -> Result<Store, AllocError>
        ensures { IfOk result (λ s. s ≡ ([], false)) }
    {
        Ok(Store {
            words: Vec::with_capacity(alloc, words)?,
            index: vec![in alloc; 0; index]?,
            memory: vec![in alloc; 0; memory]?,
            opened: false,
        })
    }

    pub fn words(&self) -> &[u64]
        ensures { result.now ≡ self.now.0 }
    {
        self.words.as_slice()
    }

    // Closes the store, and changes the list.
    pub fn close<F: FnOnce(&mut Vec<u64>) -> Option<Reply>>(&mut self, change: F) -> Option<Reply>
        requires { F.IsAlwaysCallable change }
        ensures changed { (v w : _) × (v.items ≡ self.old.0) × (w.items ≡ self.new.0) × FnOnceReturnsAtMut F.FnOnce change v result w }
        ensures closed { self.new.1 ≡ false }
    {
        self.opened = false;
        change(&mut self.words)
    }

    // Opens the list, or closes it where that is refused.
    pub fn open(&mut self) -> Result<(), Refusal>
        ensures same { self.new.0 ≡ self.old.0 }
        ensures opened { self.new.1 ≡ is_ok result }
    {
        let answer = opened::open(&self.words, &mut self.index, &mut self.memory);
        self.opened = answer.is_ok();
        answer
    }

    // Makes the call that a line of this name and these numbers is, where it is one: the list is then as one call leaves it. What fills an output fills the lent one.
    pub fn call(
        &mut self,
        name: &[u8],
        a: &[u64],
        text: &[u8],
        output: &mut Vec<u64>,
    ) -> Option<Reply>
        ensures same_length { length self.new.0 ≡ length self.old.0 }
        ensures same_way { self.new.1 ≡ self.old.1 }
        ensures words_after { (self.new.0 ≡ self.old.0) ⊎ ((c : _) × (r : _) × (left r self.new.0 ≡ run c self.old.0)) }
        ensures most { vec_len output.old ≤ OUTPUT → vec_len output.new ≤ OUTPUT }
        ensures room { vec_capacity output.old ≤ vec_capacity output.new }
    {
        let list = list_of(name, a);
        match line_of(name, a)? {
            Line::Append(making) => Some(self.append(making, list, text).into()),
            Line::Merge => Some(self.meet_list(list).into()),
            Line::Ask(asking) => Some(self.ask(asking).into()),
            Line::Fill(filling, s, n) => self.fill(filling, s, n, output),
        }
    }

    fn append(&mut self, making: Making, list: &[u64], text: &[u8]) -> Result<u64, Refusal>
        ensures same_length { length self.new.0 ≡ length self.old.0 }
        ensures same_way { self.new.1 ≡ self.old.1 }
        ensures words_after { left (made result) self.new.0 ≡ run (appended making list.now text.now) self.old.0 }
    {
        if self.opened {
            let (index, memory) = (&mut self.index, &mut self.memory);
            opened::append(&mut self.words, index, memory, making, list, text)
        } else {
            plain::append(&mut self.words, making, list, text)
        }
    }

    fn meet_list(&mut self, list: &[u64]) -> Result<u64, Refusal>
        ensures same_length { length self.new.0 ≡ length self.old.0 }
        ensures same_way { self.new.1 ≡ self.old.1 }
        ensures words_after { left (made result) self.new.0 ≡ run (meet_list list.now) self.old.0 }
    {
        if self.opened {
            let (index, memory) = (&mut self.index, &mut self.memory);
            opened_lists::meet_list(&mut self.words, index, memory, list)
        } else {
            plain::append(&mut self.words, Making::MeetList, list, b"")
        }
    }

    fn ask(&mut self, asking: Asking) -> Result<Answer, Refusal>
        ensures same { self.new ≡ self.old }
        ensures words_value { left (told result) self.new.0 ≡ run (asked asking) self.old.0 }
    {
        if self.opened {
            opened::ask(&self.words, &self.index, &mut self.memory, asking)
        } else {
            plain::ask(&self.words, asking)
        }
    }

    // An output that is longer than the program's is no call.
    fn fill(&mut self, filling: Filling, s: u64, n: u64, output: &mut Vec<u64>) -> Option<Reply>
        ensures same { self.new ≡ self.old }
        ensures filled { OnSome result (output.new.items ≡ output_of filling s self.old.0 (replicate n BLANK)) }
        ensures most { vec_len output.old ≤ OUTPUT → vec_len output.new ≤ OUTPUT }
        ensures room { vec_capacity output.old ≤ vec_capacity output.new }
    {
        let n = usize::try_from(n).ok()?;
        if n > OUTPUT {
            return None;
        }
        output.clear();
        output.resize(n, BLANK).ok()?;
        let answer = if self.opened {
            let memory = &mut self.memory;
            opened::fill(&self.words, &self.index, memory, filling, s, output)
        } else {
            plain::fill(&self.words, filling, s, output)
        };
        Some(match answer {
            Ok(Answer::Number(k)) => Reply::Output(k),
            _ => answer.into(),
        })
    }
}
