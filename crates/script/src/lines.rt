// A line and its words, which one space separates.
ghost use Rattle.std.specs.Prelude.{◌≡◌, ◌≤◌, ◌-◌, [], ◌++◌, length, take, drop, vec_len, vec_capacity, IsSome};

use crate::values::number;

// A line without its comment and the spaces before that.
pub fn cut(line: &[u8]) -> &[u8]
    ensures size { length result.now ≤ length line.now }
    ensures beginning { result.now ≡ take (length result.now) line.now }
{
    let Some(comment) = line.iter().position(|b| *b == b';') else {
        return line;
    };
    let mut said = &line[..comment];
    while let [left @ .., b' '] = said {
        said = left;
    }
    said
}

// A line's first word, and what stands behind it: nothing, or a space and the other words.
pub fn split_word(line: &[u8]) -> (&[u8], &[u8])
    ensures { result.0.now ++ result.1.now ≡ line.now }
{
    let end = line.iter().position(|b| *b == b' ').unwrap_or(line.len());
    line.split_at(end)
}

// What stands behind the first k words of what stands behind a word: nothing where there are no more.
pub fn after_words(rest: &[u8], k: usize) -> &[u8]
    ensures size { length result.now ≤ length rest.now }
    ensures end { result.now ≡ drop (length rest.now - length result.now) rest.now }
{
    let mut left = rest;
    for _ in 0..k {
        if let [b' ', words @ ..] = left {
            left = split_word(words).1;
        }
    }
    left
}

// Puts the numbers that the words behind a word say into `out`, and nothing else: `None` where a word says no number.
pub fn numbers(rest: &[u8], out: &mut Vec<u64>) -> Option<()>
    ensures empty { length rest.now ≡ 0 → IsSome result × (out.new.items ≡ []) }
    ensures size { vec_len out.new ≤ length rest.now }
    ensures room { vec_capacity out.old ≤ vec_capacity out.new }
{
    out.clear();
    if let [b' ', words @ ..] = rest {
        for word in words.split(|b| *b == b' ') {
            out.push(number(word)?).ok()?;
        }
    }
    Some(())
}
