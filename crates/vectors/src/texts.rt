// The test of a text alone.
use crate::{case, print};

// The refusal.
const NO_TEXT: u64 = 28;

fn refusal_of(text: bool) -> u64 {
    if text {
        return 0;
    }
    NO_TEXT
}

// Part 1 is the text. Answers: the refusal.
pub fn test(c: &[u8]) {
    let answer = [refusal_of(utf8::is_text(case::part(c, 1)))];
    print::numbers(&answer);
}
