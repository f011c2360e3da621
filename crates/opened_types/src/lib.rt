// The makers of `Types` on an opened store: words that `opened::open` has taken, with their index and memory, and that nobody else has written since. Row 1 is not tested
// again. What a call answers and leaves of the words is what the plain call of the same name does, and the store is open again, also where the call was refused.
#![tactic(auto)]

ghost use Rattle.std.specs.Prelude.{◌≡◌};
ghost use Rattle.call.specs.Call.{left, made, told};
ghost use Rattle.every_call.specs.Run.{run, kind, get_bool, get_int, make_int, get_float, make_float, get_tuple, get_str, get_struct, make_ary_is, make_struct_fref, get_mem_ptr, get_mem};
ghost use Rattle.opened.specs.OpenStore.{OpenStore};

use asking::Asking;
use call::{Answer, Refusal};
use making::Making;

// The kind of a type, which stands for the Rust's casts.
pub fn kind(words: &[u64], index: &[u64], memory: &mut [u64], h: u64) -> Result<Answer, Refusal>
    requires { OpenStore words.now index.now memory.old }
    ensures words_value { left (told result) words.now ≡ run (kind h) words.now }
    ensures open_store { OpenStore words.now index.now memory.new }
{
    opened::ask(words, index, memory, Asking::Kind(h))
}

// The Int 0..0 or 1..1, for a flag.
pub fn get_bool(
    words: &[u64],
    index: &[u64],
    memory: &mut [u64],
    value: u64,
) -> Result<Answer, Refusal>
    requires { OpenStore words.now index.now memory.old }
    ensures words_value { left (told result) words.now ≡ run (get_bool value) words.now }
    ensures open_store { OpenStore words.now index.now memory.new }
{
    opened::ask(words, index, memory, Asking::GetBool(value))
}

// The Int of one value.
pub fn get_int(
    words: &mut [u64],
    index: &mut [u64],
    memory: &mut [u64],
    value: u64,
) -> Result<u64, Refusal>
    requires { OpenStore words.old index.old memory.old }
    ensures words_after { left (made result) words.new ≡ run (get_int value) words.old }
    ensures open_store { OpenStore words.new index.new memory.new }
{
    opened::make(words, index, memory, Making::MakeInt(value, value))
}

// The Int of a range, high ones included.
pub fn make_int(
    words: &mut [u64],
    index: &mut [u64],
    memory: &mut [u64],
    min: u64,
    max: u64,
) -> Result<u64, Refusal>
    requires { OpenStore words.old index.old memory.old }
    ensures words_after { left (made result) words.new ≡ run (make_int min max) words.old }
    ensures open_store { OpenStore words.new index.new memory.new }
{
    opened::make(words, index, memory, Making::MakeInt(min, max))
}

// The Float of a constant, by its bits.
pub fn get_float(
    words: &mut [u64],
    index: &mut [u64],
    memory: &mut [u64],
    bits: u64,
) -> Result<u64, Refusal>
    requires { OpenStore words.old index.old memory.old }
    ensures words_after { left (made result) words.new ≡ run (get_float bits) words.old }
    ensures open_store { OpenStore words.new index.new memory.new }
{
    opened::make(words, index, memory, Making::MakeFloat(0, bits))
}

// The Float of a size, or of a constant (size 0), by its bits.
pub fn make_float(
    words: &mut [u64],
    index: &mut [u64],
    memory: &mut [u64],
    sz: u64,
    bits: u64,
) -> Result<u64, Refusal>
    requires { OpenStore words.old index.old memory.old }
    ensures words_after { left (made result) words.new ≡ run (make_float sz bits) words.old }
    ensures open_store { OpenStore words.new index.new memory.new }
{
    opened::make(words, index, memory, Making::MakeFloat(sz, bits))
}

// A tuple of the types whose handles are lent.
pub fn get_tuple(
    words: &mut [u64],
    index: &mut [u64],
    memory: &mut [u64],
    types: &[u64],
) -> Result<u64, Refusal>
    requires { OpenStore words.old index.old memory.old }
    ensures words_after { left (made result) words.new ≡ run (get_tuple types.now) words.old }
    ensures open_store { OpenStore words.new index.new memory.new }
{
    opened::append(words, index, memory, Making::GetTuple, types, b"")
}

// A name of lent bytes.
pub fn get_str(
    words: &mut [u64],
    index: &mut [u64],
    memory: &mut [u64],
    name: &[u8],
) -> Result<u64, Refusal>
    requires { OpenStore words.old index.old memory.old }
    ensures words_after { left (made result) words.new ≡ run (get_str name.now) words.old }
    ensures open_store { OpenStore words.new index.new memory.new }
{
    opened::append(words, index, memory, Making::GetStr, &[], name)
}

// A struct of a name and lent fields, four words a field: name, type, alias, final.
pub fn get_struct(
    words: &mut [u64],
    index: &mut [u64],
    memory: &mut [u64],
    name: u64,
    fields: &[u64],
) -> Result<u64, Refusal>
    requires { OpenStore words.old index.old memory.old }
    ensures words_after { left (made result) words.new ≡ run (get_struct name fields.now) words.old }
    ensures open_store { OpenStore words.new index.new memory.new }
{
    opened::append(words, index, memory, Making::GetStruct(name), fields, b"")
}

// An array struct, whose name is the lent text in brackets.
pub fn make_ary(
    words: &mut [u64],
    index: &mut [u64],
    memory: &mut [u64],
    len: u64,
    len_alias: u64,
    body: u64,
    body_alias: u64,
    text: &[u8],
) -> Result<u64, Refusal>
    requires { OpenStore words.old index.old memory.old }
    ensures words_after { left (made result) words.new ≡ run (make_ary_is len len_alias body body_alias text.now) words.old }
    ensures open_store { OpenStore words.new index.new memory.new }
{
    opened::append(
        words,
        index,
        memory,
        Making::MakeAry(len, len_alias, body, body_alias),
        &[],
        text,
    )
}

// The forward reference of a name.
pub fn make_struct_fref(
    words: &mut [u64],
    index: &mut [u64],
    memory: &mut [u64],
    name: u64,
) -> Result<u64, Refusal>
    requires { OpenStore words.old index.old memory.old }
    ensures words_after { left (made result) words.new ≡ run (make_struct_fref name) words.old }
    ensures open_store { OpenStore words.new index.new memory.new }
{
    opened::make(words, index, memory, Making::MakeStructFref(name))
}

// A pointer to a struct or a forward reference; `nil` is a flag.
pub fn get_mem_ptr(
    words: &mut [u64],
    index: &mut [u64],
    memory: &mut [u64],
    to: u64,
    nil: u64,
) -> Result<u64, Refusal>
    requires { OpenStore words.old index.old memory.old }
    ensures words_after { left (made result) words.new ≡ run (get_mem_ptr to nil) words.old }
    ensures open_store { OpenStore words.new index.new memory.new }
{
    opened::make(words, index, memory, Making::GetMemPtr(to, nil))
}

// A memory of an alias and a type.
pub fn get_mem(
    words: &mut [u64],
    index: &mut [u64],
    memory: &mut [u64],
    alias: u64,
    t: u64,
) -> Result<u64, Refusal>
    requires { OpenStore words.old index.old memory.old }
    ensures words_after { left (made result) words.new ≡ run (get_mem alias t) words.old }
    ensures open_store { OpenStore words.new index.new memory.new }
{
    opened::make(words, index, memory, Making::GetMem(alias, t))
}
