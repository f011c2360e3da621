// Runs a script of calls of the store library, read from standard input: a call a line, and a line out for each.
#![tactic(auto)]

use dispatch::Session;
use std::io;
use std::io::{BufRead, BufReader, BufWriter, Read, Write};

// How many bytes a line has at most, its end included, and how many bytes of answers wait to be written.
const LINE: usize = 262144;

const OUT: usize = 65536;

// Where what was read at once ends.
#[derive(Clone, Copy, Debug, PartialEq, Eq)]
enum End {
    // at the end of a line
    Line,
    // in a line that is too long
    Part,
    // at the end of the input, or where a read fails
    Input,
}

// A writer by which a write that fails is let go: the run goes on without what was not written. It stands behind the buffer, which else would keep that, and try it again with each line.
#[derive(Drop)]
struct LetGo<W>(W);

impl<W: Write> Write for LetGo<W> {
    fn write(&mut self, text: &[u8]) -> io::Result<usize> {
        let _ = self.0.write_all(text);
        Ok(text.len())
    }

    fn flush(&mut self) -> io::Result<()> {
        let _ = self.0.flush();
        Ok(())
    }
}

fn main(rt: HostRuntime) -> io::Result<()> {
    let alloc = rt.alloc();
    let mut input = BufReader::with_capacity(alloc, LINE, rt.stdin())?;
    let mut out = BufWriter::with_capacity(alloc, OUT, LetGo(rt.stdout()))?;
    let mut line = Vec::with_capacity(alloc, LINE)?;
    let mut session = Session::new(alloc)?;
    let mut before = End::Line;
    // Nothing says that the input ends, so the loop counts its turns, up to a number that no run uses up.
    for _ in 0..u64::MAX {
        before = turn(&mut input, &mut out, &mut line, &mut session, before);
        if before == End::Input {
            break;
        }
    }
    let _ = out.flush();
    Ok(())
}

// Reads a line, its end included, or as much of it as a line may have, and writes what it answers. A line that is too long is no call: its first part is written, and those behind it, as what was read `before` tells, are passed over.
// The end of the input, or a read that fails, ends the run, whatever was read before it: nothing is read behind it. A line that was read whole with others before it is answered where it stands; one of which a part waits is gathered in `line`.
fn turn<R: BufRead, W: Write>(
    input: &mut R,
    out: &mut W,
    line: &mut Vec<u8>,
    session: &mut Session,
    before: End,
) -> End {
    let Ok(waiting) = input.fill_buf() else {
        return End::Input;
    };
    if waiting.is_empty() {
        return End::Input;
    }
    if before != End::Part {
        if let Some(n) = waiting.iter().position(|b| *b == b'\n') {
            answer(out, &waiting[..n], session);
            input.consume(n + 1);
            return End::Line;
        }
    }
    line.clear();
    let read = input.take(LINE as u64).read_until(b'\n', line);
    let (said, end) = match line.as_slice() {
        [said @ .., b'\n'] => (said, End::Line),
        part if part.len() == LINE => (part, End::Part),
        said => (said, End::Input),
    };
    if before == End::Part {
        return end;
    }
    if end == End::Part {
        output::echo(out, said);
        return end;
    }
    answer(out, said, session);
    if read.is_err() {
        return End::Input;
    }
    end
}

fn answer<W: Write>(out: &mut W, said: &[u8], session: &mut Session) {
    let reply = session.line(said);
    output::put(out, reply, said, session);
}
