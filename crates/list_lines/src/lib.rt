// The lines about the list itself.
#![tactic(auto)]

ghost use Rattle.std.specs.Prelude.{◌≡◌, ◌≤◌, length, replicate, vec_len, vec_capacity, OnSome, IfNone};
ghost use Rattle.list_lines.specs.Changes.{IsBy, Tells, changed, remembered, remembers};

use replies::Reply;
use script::Answer;

// How many words a list has at most.
pub const WORDS: usize = 65536;

// A line of a name and numbers.
#[derive(Clone, Copy)]
pub enum Order {
    Close(Closing),
    Read(Reading),
    Open,
    // no line about the list
    Call,
}

// A line that closes the list: those that write it by themselves do.
#[derive(Clone, Copy)]
pub enum Closing {
    // a list of so many words, each the value
    List(u64, u64),
    // a fresh store in the list as it is
    Fresh,
    // a fresh store in a list of so many words
    FreshIn(u64),
    Poke(u64, u64),
    // nothing else
    Close,
}

// A line that reads it, and leaves it open where it is.
#[derive(Clone, Copy)]
pub enum Reading {
    Peek(u64),
    Dump,
    DumpAll,
    Check,
    // remembers it
    Keep,
    // tells whether it is as it was then
    Kept,
    // looks for the entry that the line's numbers are
    FindEntry,
}

// The line of a name and of the numbers behind it.
pub fn order_of(name: &[u8], a: &[u64]) -> Order
    ensures { IsBy result (length a.now) }
{
    match (name, a) {
        (b"list", &[n]) => Order::Close(Closing::List(n, 0)),
        (b"list", &[n, value]) => Order::Close(Closing::List(n, value)),
        (b"fresh", []) => Order::Close(Closing::Fresh),
        (b"fresh", &[n]) => Order::Close(Closing::FreshIn(n)),
        (b"poke", &[i, value]) => Order::Close(Closing::Poke(i, value)),
        (b"close", []) => Order::Close(Closing::Close),
        (b"open", []) => Order::Open,
        (b"peek", &[i]) => Order::Read(Reading::Peek(i)),
        (b"dump", []) => Order::Read(Reading::Dump),
        (b"dumpall", []) => Order::Read(Reading::DumpAll),
        (b"check", []) => Order::Read(Reading::Check),
        (b"keep", []) => Order::Read(Reading::Keep),
        (b"kept", []) => Order::Read(Reading::Kept),
        // an entry has a word at least, its head
        (b"find_entry", [_, ..]) => Order::Read(Reading::FindEntry),
        _ => Order::Call,
    }
}

// ---- lines that close

// Changes the list. One that has room for the most words is left as it is where the line is refused.
pub fn change(closing: Closing, words: &mut Vec<u64>) -> Option<Reply>
    ensures changed { OnSome result (words.new.items ≡ changed closing words.old.items) }
    ensures unchanged { WORDS ≤ vec_capacity words.old → IfNone result (words.new.items ≡ words.old.items) }
    ensures most { vec_len words.old ≤ WORDS → vec_len words.new ≤ WORDS }
    ensures room { vec_capacity words.old ≤ vec_capacity words.new }
{
    match closing {
        Closing::List(n, value) => {
            renew(words, n, value)?;
            Some(Answer::Accepted.into())
        }
        Closing::Fresh => Some(fresh_store::fresh(words).into()),
        Closing::FreshIn(n) => {
            renew(words, n, 0)?;
            Some(fresh_store::fresh(words).into())
        }
        Closing::Poke(i, value) => {
            *words.get_mut(usize::try_from(i).ok()?)? = value;
            Some(Answer::Accepted.into())
        }
        Closing::Close => Some(Answer::Accepted.into()),
    }
}

// Makes the list one of n words, each the value. One that is too long leaves it as it is.
fn renew(words: &mut Vec<u64>, n: u64, value: u64) -> Option<()>
    ensures renewed { OnSome result (words.new.items ≡ replicate n value) }
    ensures unchanged { WORDS ≤ vec_capacity words.old → IfNone result (words.new.items ≡ words.old.items) }
    ensures most { vec_len words.old ≤ WORDS → vec_len words.new ≤ WORDS }
    ensures room { vec_capacity words.old ≤ vec_capacity words.new }
{
    let n = usize::try_from(n).ok()?;
    if n > WORDS {
        return None;
    }
    words.clear();
    words.resize(n, value).ok()
}

// ---- lines that read

// The line's numbers are `a`. What is remembered is `kept`: before the first `keep` the empty list.
pub fn read(reading: Reading, a: &[u64], words: &[u64], kept: &mut Vec<u64>) -> Option<Reply>
    ensures told { Tells reading words.now kept.old.items result }
    ensures remembered { OnSome result (kept.new.items ≡ remembered reading words.now kept.old.items) }
    ensures unchanged { length words.now ≤ vec_capacity kept.old → IfNone result (kept.new.items ≡ kept.old.items) }
    ensures room { vec_capacity kept.old ≤ vec_capacity kept.new }
{
    match reading {
        Reading::Peek(i) => {
            let word = *words.get(usize::try_from(i).ok()?)?;
            Some(Answer::Number(word).into())
        }
        Reading::Dump => Some(Reply::Used),
        Reading::DumpAll => Some(Reply::All),
        Reading::Check => Some(wellformed::well_formed(words).into()),
        Reading::Keep => {
            kept.clear();
            kept.extend_from_slice(words).ok()?;
            Some(Answer::Accepted.into())
        }
        Reading::Kept => Some(is_kept(words, kept).into()),
        Reading::FindEntry => Some(entry_search::find_entry(words, a).into()),
    }
}

// Whether a list is the one that is remembered: as long, and the same words.
fn is_kept(words: &[u64], kept: &[u64]) -> bool
    ensures { result ≡ remembers kept.now words.now }
{
    words::same(words, kept)
}

#[cfg(test)]
mod tests {
    use super::*;
    use std::test::Fail;

    // Lists without room get it: no contract can say that there is memory.
    #[test]
    fn lists_are_made_and_remembered(rt: HostRuntime) -> Result<(), Fail> {
        let mut words = Vec::new(rt.alloc());
        assert!(rt; change(Closing::List(3, 7), &mut words).is_some());
        assert_eq!(rt; words.as_slice(), [7, 7, 7].as_slice());
        let mut kept = Vec::new(rt.alloc());
        assert!(rt; read(Reading::Keep, &[], &words, &mut kept).is_some());
        assert_eq!(rt; kept.as_slice(), words.as_slice());
        Ok(())
    }
}
