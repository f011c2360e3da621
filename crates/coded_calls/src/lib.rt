// The ways of a call, plain and on an opened store, with their answers told as callers in C or Rust read them.
#![tactic(auto)]

ghost use Rattle.std.specs.Prelude.{◌≡◌, [], length};
ghost use Rattle.makers.specs.Makers.{fresh_call};
ghost use Rattle.every_call.specs.Run.{run, meet_list, save};
ghost use Rattle.catalogue.specs.Catalogue.{save_output, load_call};
ghost use Rattle.making.specs.Making.{appended};
ghost use Rattle.asking.specs.Asking.{asked_filling, asked, output_of};
ghost use Rattle.opened.specs.OpenStore.{OpenStore, open_reply};
ghost use Rattle.codes.specs.Code.{status, CodedDone, Coded, CodedWhich, CodedOpening};

use asking::Asking;
use making::Making;
use struct_calls::Filling;

// ---- plain calls

pub fn append(words: &mut [u64], making: Making, list: &[u64], text: &[u8], answer: &mut u64) -> u32
    ensures { Coded (run (appended making list.now text.now) words.old) result words.new answer.old answer.new }
{
    codes::of_made(plain::append(words, making, list, text), answer)
}

// A call that has neither a list nor a text.
pub fn make(words: &mut [u64], making: Making, answer: &mut u64) -> u32
    ensures { Coded (run (appended making [] []) words.old) result words.new answer.old answer.new }
{
    append(words, making, &[], b"", answer)
}

pub fn ask(words: &[u64], asking: Asking, answer: &mut u64) -> u32
    ensures { Coded (run (asked asking) words.now) result words.now answer.old answer.new }
{
    codes::of_answer(plain::ask(words, asking), answer)
}

// A call that answers in one of two ways.
pub fn ask_which(words: &[u64], asking: Asking, which: &mut u64, answer: &mut u64) -> u32
    ensures { CodedWhich (run (asked asking) words.now) result words.now which.old which.new answer.old answer.new }
{
    codes::of_answer_which(plain::ask(words, asking), which, answer)
}

// A call that fills a lent output; its answer is how many words.
pub fn fill(words: &[u64], filling: Filling, s: u64, output: &mut [u64], answer: &mut u64) -> u32
    ensures coded { Coded (run (asked_filling filling s (length output.old)) words.now) result words.now answer.old answer.new }
    ensures output_after { output.new ≡ output_of filling s words.now output.old }
{
    codes::of_answer(plain::fill(words, filling, s, output), answer)
}

// The writer of a saved catalogue; its answer is the file's length.
pub fn save(words: &[u64], label: &[u8], file: &mut [u8], answer: &mut u64) -> u32
    ensures coded { Coded (run (save label.now (length file.old)) words.now) result words.now answer.old answer.new }
    ensures file_after { file.new ≡ save_output label.now words.now file.old }
{
    codes::of_answer(catalogue::save(words, label, file), answer)
}

// The loader; its answer is the label's length.
pub fn load(words: &mut [u64], file: &[u8], answer: &mut u64) -> u32
    ensures { Coded (load_call file.now words.old) result words.new answer.old answer.new }
{
    codes::of_answer(catalogue::load(words, file), answer)
}

pub fn fresh(words: &mut [u64]) -> u32
    ensures { CodedDone (fresh_call words.old) result words.new }
{
    codes::of_done(types::fresh(words))
}

// ---- an opened store

pub fn open(words: &[u64], index: &mut [u64], memory: &mut [u64]) -> u32
    ensures value { result ≡ status (open_reply words.now (length index.old)) }
    ensures coded_opening { CodedOpening words.now index.old memory.old index.new memory.new result }
{
    codes::of_done(opened::open(words, index, memory))
}

pub fn opened_append(
    words: &mut [u64],
    index: &mut [u64],
    memory: &mut [u64],
    making: Making,
    list: &[u64],
    text: &[u8],
    answer: &mut u64,
) -> u32
    requires { OpenStore words.old index.old memory.old }
    ensures coded { Coded (run (appended making list.now text.now) words.old) result words.new answer.old answer.new }
    ensures open_store { OpenStore words.new index.new memory.new }
{
    codes::of_made(
        opened::append(words, index, memory, making, list, text),
        answer,
    )
}

// The merge of a list.
pub fn opened_meet_list(
    words: &mut [u64],
    index: &mut [u64],
    memory: &mut [u64],
    types: &[u64],
    answer: &mut u64,
) -> u32
    requires { OpenStore words.old index.old memory.old }
    ensures coded { Coded (run (meet_list types.now) words.old) result words.new answer.old answer.new }
    ensures open_store { OpenStore words.new index.new memory.new }
{
    codes::of_made(opened_lists::meet_list(words, index, memory, types), answer)
}

pub fn opened_ask(
    words: &[u64],
    index: &[u64],
    memory: &mut [u64],
    asking: Asking,
    answer: &mut u64,
) -> u32
    requires { OpenStore words.now index.now memory.old }
    ensures coded { Coded (run (asked asking) words.now) result words.now answer.old answer.new }
    ensures open_store { OpenStore words.now index.now memory.new }
{
    codes::of_answer(opened::ask(words, index, memory, asking), answer)
}

// A call that answers in one of two ways.
pub fn opened_ask_which(
    words: &[u64],
    index: &[u64],
    memory: &mut [u64],
    asking: Asking,
    which: &mut u64,
    answer: &mut u64,
) -> u32
    requires { OpenStore words.now index.now memory.old }
    ensures coded_which { CodedWhich (run (asked asking) words.now) result words.now which.old which.new answer.old answer.new }
    ensures open_store { OpenStore words.now index.now memory.new }
{
    codes::of_answer_which(opened::ask(words, index, memory, asking), which, answer)
}

// A call that fills a lent output.
pub fn opened_fill(
    words: &[u64],
    index: &[u64],
    memory: &mut [u64],
    filling: Filling,
    s: u64,
    output: &mut [u64],
    answer: &mut u64,
) -> u32
    requires { OpenStore words.now index.now memory.old }
    ensures coded { Coded (run (asked_filling filling s (length output.old)) words.now) result words.now answer.old answer.new }
    ensures output_after { output.new ≡ output_of filling s words.now output.old }
    ensures open_store { OpenStore words.now index.now memory.new }
{
    codes::of_answer(
        opened::fill(words, index, memory, filling, s, output),
        answer,
    )
}
