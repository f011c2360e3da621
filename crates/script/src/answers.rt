// Answers as text.
use std::fmt;

// What a call answers, where it is short.
#[derive(Clone, Copy)]
pub enum Answer {
    // a handle, or a number that is not negative
    Number(u64),
    // a two's complement word
    Signed(u64),
    // the number of the refusal
    Refused(u8),
    Yes,
    No,
    Absent,
    Accepted,
    // a constant's bits
    Constant(u64),
    // a size alone, as a two's complement word
    Size(u64),
}

impl fmt::Display for Answer {
    fn fmt<W: fmt::Write>(&self, f: &mut fmt::Formatter<W>) -> fmt::Result {
        match *self {
            Answer::Number(n) => write!(f, "{n}"),
            Answer::Signed(w) => write!(f, "={}", w.cast_signed()),
            Answer::Refused(n) => write!(f, "-{n}"),
            Answer::Yes => write!(f, "1"),
            Answer::No => write!(f, "0"),
            Answer::Absent => write!(f, "absent"),
            Answer::Accepted => write!(f, "ok"),
            Answer::Constant(bits) => write!(f, "constant {bits}"),
            Answer::Size(w) => write!(f, "size ={}", w.cast_signed()),
        }
    }
}
