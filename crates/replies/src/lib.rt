// What lines answer, and how the answers of calls are told.
#![tactic(auto)]

ghost use Rattle.std.specs.Prelude.{◌≡◌};
ghost use Rattle.replies.specs.Told.{told};

use call::Refusal;
use entry_search::EntrySearch;
use script::Answer;

// What a line of the script answers. A line that is no call answers none.
#[derive(Clone, Copy)]
pub enum Reply {
    // no line
    Nothing,
    Short(Answer),
    // the used words of the list
    Used,
    // all words of the list
    All,
    // a count, and the output
    Output(u64),
    // the search for an entry, and how many entries it did not pass over
    Search(EntrySearch),
    // a file's length, and the output that it was saved in
    Saved(u64),
    // the kept file
    File,
}

impl From<Answer> for Reply {
    fn from(answer: Answer) -> Reply {
        Reply::Short(answer)
    }
}

impl From<bool> for Reply {
    ghost from_gives = { λ yes reply. reply ≡ told yes };

    fn from(yes: bool) -> Reply {
        Reply::Short(if yes { Answer::Yes } else { Answer::No })
    }
}

impl From<()> for Reply {
    fn from(_accepted: ()) -> Reply {
        Reply::Short(Answer::Accepted)
    }
}

impl From<u64> for Reply {
    fn from(n: u64) -> Reply {
        Reply::Short(Answer::Number(n))
    }
}

impl From<EntrySearch> for Reply {
    fn from(search: EntrySearch) -> Reply {
        Reply::Search(search)
    }
}

impl From<call::Answer> for Reply {
    fn from(answer: call::Answer) -> Reply {
        match answer {
            call::Answer::Handle(n) | call::Answer::Number(n) => n.into(),
            call::Answer::Flag(yes) => yes.into(),
            call::Answer::Signed(w) => Answer::Signed(w).into(),
            call::Answer::Absent => Answer::Absent.into(),
            call::Answer::Constant(bits) => Answer::Constant(bits).into(),
            call::Answer::Size(w) => Answer::Size(w).into(),
        }
    }
}

impl From<Refusal> for Reply {
    fn from(e: Refusal) -> Reply {
        Reply::Short(Answer::Refused(e.into()))
    }
}

impl<T: Into<Reply>> From<Result<T, Refusal>> for Reply {
    fn from(answer: Result<T, Refusal>) -> Reply {
        match answer {
            Ok(told) => told.into(),
            Err(e) => e.into(),
        }
    }
}
