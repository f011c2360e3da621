// The search for an entry that is given by its words, on any words whatever: row 1, and then the search, with the number of entries that it did not pass over. It is no call
// of document 01, and refuses nothing but row 1.
#![tactic(auto)]

ghost use Rattle.std.specs.Prelude.{◌≡◌};
ghost use Rattle.entry_search.specs.EntrySearch.{entry_search};
ghost use Rattle.entry_search.specs.CodedSearch.{CodedSearch};

use call::Refusal;

// What a search found.
#[derive(Clone, Copy)]
pub struct EntrySearch {
    // its handle, if there is such an entry
    pub found: Option<u64>,
    // how many entries were not passed over
    pub count: u64,
}

pub fn find_entry(words: &[u64], entry: &[u64]) -> Result<EntrySearch, Refusal>
    ensures { result ≡ entry_search words.now entry.now }
{
    if !wellformed::well_formed(words) {
        return Err(Refusal::NoStore);
    }
    let used = words[0] as usize;
    let s = words::find(&[], words, used, 1, entry);
    let count = s.count as u64;
    match s.found {
        Some(h) => Ok(EntrySearch {
            found: Some(h as u64),
            count,
        }),
        None => Ok(EntrySearch { found: None, count }),
    }
}

// ---- for callers in C and Rust

// Returns 0, or the number of a refusal. What is told goes to three lent words: whether there is such an entry, 1 or 0; how many entries were not passed over; and its
// handle, whose word keeps where there is none. Where it is refused all three keep.
fn tell(s: Result<EntrySearch, Refusal>, which: &mut u64, count: &mut u64, answer: &mut u64) -> u32
    ensures { CodedSearch s result which.old which.new count.old count.new answer.old answer.new }
{
    match s {
        Ok(s) => {
            *count = s.count;
            let Some(h) = s.found else {
                *which = 0;
                return 0;
            };
            *which = 1;
            *answer = h;
            0
        }
        Err(e) => e.into(),
    }
}

// The same search, told so.
pub fn find_entry_coded(
    words: &[u64],
    entry: &[u64],
    which: &mut u64,
    count: &mut u64,
    answer: &mut u64,
) -> u32
    ensures { CodedSearch (entry_search words.now entry.now) result which.old which.new count.old count.new answer.old answer.new }
{
    tell(find_entry(words, entry), which, count, answer)
}
