// The words of a script of calls: lines, words, numbers and texts in, answers out.
#![tactic(auto)]

mod answers;
mod lines;
mod texts;
mod values;

pub use answers::Answer;
pub use lines::{after_words, cut, numbers, split_word};
pub use texts::text;
pub use values::{hex, number};

#[cfg(test)]
mod tests {
    use super::*;
    use std::test::Fail;

    // Lists without room get it: no contract can say that there is memory.
    #[test]
    fn words_are_read(rt: HostRuntime) -> Result<(), Fail> {
        let mut said = Vec::new(rt.alloc());
        assert_eq!(rt; numbers(b" 7 -1 0xff", &mut said), Some(()));
        assert_eq!(rt; said.as_slice(), [7, u64::MAX, 255].as_slice());
        let mut bytes = Vec::new(rt.alloc());
        assert_eq!(rt; text(b" 00fE", &mut bytes), Some(()));
        assert_eq!(rt; bytes.as_slice(), [0u8, 254].as_slice());
        Ok(())
    }
}
