// What the program writes: a line for each line of the script.
#![tactic(auto)]

ghost use Rattle.std.specs.Prelude.{◌≡◌, ◌≤◌, ◌+◌, ◌∷◌, ◌++◌, length, drop, decimal};

use dispatch::Session;
use entry_search::EntrySearch;
use itoa::{Buffer, write_digits};
use replies::Reply;
use std::io;
use std::io::Write;

// Writes what a line answers, where it answers something. A line that is no call is written itself. A write that fails is let go: the run goes on without what was not written.
pub fn put<W: Write>(out: &mut W, reply: Option<Reply>, line: &[u8], session: &Session) {
    let Some(reply) = reply else {
        return echo(out, script::cut(line));
    };
    let _ = write_reply(out, reply, session);
}

fn write_reply<W: Write>(out: &mut W, reply: Reply, session: &Session) -> io::Result<()> {
    let words = session.store.words();
    match reply {
        Reply::Nothing => Ok(()),
        Reply::Short(answer) => writeln!(out, "{answer}"),
        Reply::Used => write_line(out, used(words)),
        Reply::All => write_line(out, words),
        Reply::Output(n) => {
            write!(out, "{n} :")?;
            write_words(out, &session.output)?;
            out.write_all(b"\n")
        }
        Reply::Search(
            EntrySearch {
                found: Some(h),
                count,
            },
        ) => writeln!(out, "{h} {count}"),
        Reply::Search(EntrySearch { found: None, count }) => writeln!(out, "absent {count}"),
        Reply::Saved(n) => {
            let saved = session.files.saved.as_slice();
            write!(out, "{n} :{}", if saved.is_empty() { "" } else { " " })?;
            write_bytes(out, saved)
        }
        Reply::File => write_bytes(out, session.files.kept.as_slice()),
    }
}

// How many bytes are spelled at a time, and how many words: room for more would be cleared for nothing where a line is short.
const SPELLED: usize = 32;

const SPELLED_WORDS: usize = 8;

// How many bytes a word takes at most: a space and 20 digits.
const WORD: usize = 21;

// Words on a line, one space between two.
fn write_line<W: Write>(out: &mut W, words: &[u64]) -> io::Result<()> {
    if let [first, others @ ..] = words {
        let mut digits = Buffer::new();
        out.write_all(digits.format(*first).as_bytes())?;
        write_words(out, others)?;
    }
    out.write_all(b"\n")
}

// Words, a space before each. The digits go to the writer as bytes, and many at a time: as formatted text each word of a long list cost two to six times as much.
fn write_words<W: Write>(out: &mut W, words: &[u64]) -> io::Result<()> {
    for part in words.chunks(SPELLED_WORDS) {
        write_few_words(out, part)?;
    }
    Ok(())
}

// From the last word to the first, so that no digits have to be counted.
fn write_few_words<W: Write>(out: &mut W, part: &[u64]) -> io::Result<()>
    requires { length part.now ≤ SPELLED_WORDS }
{
    let mut text = [0u8; WORD * SPELLED_WORDS];
    let mut at = text.len();
    for i in (0..part.len()).rev() {
        at = spell(part[i], &mut text, at);
    }
    out.write_all(&text[at..])
}

// A space and the digits of a word, so that they end at `end`; answers where they start.
#[inline]
fn spell(word: u64, text: &mut [u8], end: usize) -> usize
    requires { (WORD ≤ end) × (end ≤ length text.old) }
    ensures short { end ≤ result + WORD }
    ensures written { drop result text.new ≡ 32 ∷ decimal word ++ drop end text.old }
{
    let start = write_digits(word, text, end) - 1;
    text[start] = b' ';
    start
}

// Bytes on a line, two hex digits for each. The digits go to the writer as bytes, and many at a time: as formatted text each byte cost six times as much.
fn write_bytes<W: Write>(out: &mut W, bytes: &[u8]) -> io::Result<()> {
    for part in bytes.chunks(SPELLED) {
        write_part(out, part)?;
    }
    out.write_all(b"\n")
}

fn write_part<W: Write>(out: &mut W, part: &[u8]) -> io::Result<()>
    requires { length part.now ≤ SPELLED }
{
    let mut text = [0u8; 2 * SPELLED];
    for i in 0..part.len() {
        text[2 * i] = script::hex(part[i] / 16);
        text[2 * i + 1] = script::hex(part[i] % 16);
    }
    out.write_all(&text[..2 * part.len()])
}

// A line that is no call, or the part of one that was read, after a question mark. A write that fails is let go.
pub fn echo<W: Write>(out: &mut W, line: &[u8]) {
    let _ = write_echo(out, line);
}

fn write_echo<W: Write>(out: &mut W, line: &[u8]) -> io::Result<()> {
    out.write_all(b"? ")?;
    out.write_all(line)?;
    out.write_all(b"\n")
}

// The words of a list that are in use: as many as its first word says, and no more than it has.
fn used(words: &[u64]) -> &[u64] {
    let [n, ..] = words else {
        return words;
    };
    match usize::try_from(*n) {
        Ok(n) if n < words.len() => &words[..n],
        _ => words,
    }
}
