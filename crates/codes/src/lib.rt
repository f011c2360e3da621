// Replies for callers in C or Rust: a function returns 0 or the number of a refusal, and its answer goes to a lent word, which keeps where the call is refused. A call that
// answers in one of two ways has a second lent word, which tells the way.
#![tactic(auto)]

ghost use Rattle.std.specs.Prelude.{◌≡◌, cond};
ghost use Rattle.call.specs.Call.{made, told, done};
ghost use Rattle.codes.specs.Code.{status, answer_after, which_after};

use call::{Answer, Refusal};

fn tell(word: u64, answer: &mut u64) -> u32
    ensures { (result ≡ 0) × (answer.new ≡ word) }
{
    *answer = word;
    0
}

fn tell_which(way: u64, word: u64, which: &mut u64, answer: &mut u64) -> u32
    ensures { (result ≡ 0) × (which.new ≡ way) × (answer.new ≡ word) }
{
    *which = way;
    *answer = word;
    0
}

pub fn of_done(m: Result<(), Refusal>) -> u32
    ensures { result ≡ status (done m) }
{
    match m {
        Ok(_) => 0,
        Err(e) => e.into(),
    }
}

pub fn of_made(m: Result<u64, Refusal>, answer: &mut u64) -> u32
    ensures { (result ≡ status (made m)) × (answer.new ≡ answer_after (made m) answer.old) }
{
    match m {
        Ok(h) => tell(h, answer),
        Err(e) => e.into(),
    }
}

pub fn of_answer(m: Result<Answer, Refusal>, answer: &mut u64) -> u32
    ensures { (result ≡ status (told m)) × (answer.new ≡ answer_after (told m) answer.old) }
{
    match m {
        Ok(Answer::Handle(h)) => tell(h, answer),
        Ok(Answer::Number(n)) => tell(n, answer),
        Ok(Answer::Flag(yes)) => tell(u64::from(yes), answer),
        Ok(Answer::Signed(w)) => tell(w, answer),
        Ok(Answer::Absent) => 0,
        Ok(Answer::Constant(bits)) => tell(bits, answer),
        Ok(Answer::Size(w)) => tell(w, answer),
        Err(e) => e.into(),
    }
}

pub fn of_answer_which(m: Result<Answer, Refusal>, which: &mut u64, answer: &mut u64) -> u32
    ensures { (result ≡ status (told m)) × (which.new ≡ which_after (told m) which.old) × (answer.new ≡ answer_after (told m) answer.old) }
{
    match m {
        Ok(Answer::Handle(h)) => tell_which(1, h, which, answer),
        Ok(Answer::Number(n)) => tell_which(1, n, which, answer),
        Ok(Answer::Flag(yes)) => tell_which(1, u64::from(yes), which, answer),
        Ok(Answer::Signed(w)) => tell_which(1, w, which, answer),
        Ok(Answer::Absent) => tell(0, which),
        Ok(Answer::Constant(bits)) => tell_which(1, bits, which, answer),
        Ok(Answer::Size(w)) => tell_which(0, w, which, answer),
        Err(e) => e.into(),
    }
}
