// Where the fields of a struct lie, for any rule of a field's width: the widths come as logs, 0, 1, 2 or 3 for 1, 2, 4 or 8 bytes.
#![tactic(auto)]

ghost use Rattle.std.specs.Prelude.{◌≡◌, ◌+◌, ◌-◌, ◌<◌, ◌≤◌, [], length, take, get_or, replicate};
ghost use Rattle.layout.specs.Layout.{widest, most_fields, EightAtMost, offsets_from, offsets};
ghost use Rattle.layout.specs.Passes.{most_bytes, Added, Sums, Starts};

// Adds the bytes of a field of log k to word k.
#[tactic(auto, using(crate::proofs::Pass::eight, crate::proofs::Pass::added))]
fn add(sums: &mut [u64; 4], k: usize)
    requires { (k ≤ widest) × (get_or sums.old k 0 ≤ most_bytes) }
    ensures { Added k sums.old sums.new }
{
    sums[k] += 1 << k;
}

// Adds up the bytes of the fields of each log.
#[tactic(auto, using(crate::proofs::Pass::all_summed))]
fn add_up(logs: &[u64]) -> [u64; 4]
    requires { (length logs.now ≤ most_fields) × EightAtMost logs.now }
    ensures sums { Sums logs.now result }
    ensures few { get_or result 3 0 + get_or result 2 0 + get_or result 1 0 + get_or result 0 0 ≤ most_bytes }
{
    let mut sums = [0; 4];
    for log in logs {
        add(&mut sums, *log as usize);
    }
    sums
}

// Replaces the log of each field by its offset. `next` has the offset of the next field of each log.
fn place(list: &mut [u64], mut next: [u64; 4])
    requires { (length list.old ≤ most_fields) × EightAtMost list.old × Starts list.old next }
    ensures { list.new ≡ offsets_from list.old [] list.old }
{
    for x in list.iter_mut() {
        let log = *x as usize;
        *x = next[log];
        add(&mut next, log);
    }
}

// All words but the last are the logs of the fields, in field order; they become the fields' offsets, and the last word the end.
#[tactic(auto, using(crate::proofs::Pass::front_length, crate::proofs::Pass::few_fields))]
pub fn lay_out(list: &mut [u64])
    requires { (0 < length list.old) × (length list.old ≤ most_fields + 1) × EightAtMost (take (length list.old - 1) list.old) }
    ensures { list.new ≡ offsets (take (length list.old - 1) list.old) }
{
    let n = list.len() - 1;
    let sums = add_up(&list[..n]);
    // 8-byte fields start at 0, then those of 4, 2 and 1
    let four = sums[3];
    let two = four + sums[2];
    let one = two + sums[1];
    let end = one + sums[0];
    let next = [one, two, four, 0];
    place(&mut list[..n], next);
    list[n] = end.next_multiple_of(8);
}
