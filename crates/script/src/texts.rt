// A text in hex: a pair of digits for each byte.
ghost use Rattle.std.specs.Prelude.{◌≡◌, ◌≤◌, ◌*◌, [], length, vec_len, vec_capacity, IsSome};

// Puts the text that the one word behind a word says into `out`, and nothing else: the empty one where there is no word, and `None` where the word says none.
pub fn text(rest: &[u8], out: &mut Vec<u8>) -> Option<()>
    ensures empty { length rest.now ≡ 0 → IsSome result × (out.new.items ≡ []) }
    ensures size { 2 * vec_len out.new ≤ length rest.now }
    ensures room { vec_capacity out.old ≤ vec_capacity out.new }
{
    out.clear();
    let [b' ', word @ ..] = rest else {
        return Some(());
    };
    if word.is_empty() || word.len() % 2 != 0 {
        return None;
    }
    for pair in word.chunks_exact(2) {
        let high = char::from(pair[0]).to_digit(16)?;
        let low = char::from(pair[1]).to_digit(16)?;
        out.push((16 * high + low) as u8).ok()?;
    }
    Some(())
}
