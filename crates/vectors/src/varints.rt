// The calls that read and write a Varint of 32 bits.
use crate::{case, print};
use varint::ReadError;

// The refusals.
const ENDS_INSIDE: u64 = 6;

const NO_VARINT: u64 = 10;

const TOO_SHORT: u64 = 21;

const TOO_WIDE: u64 = 22;

fn found_numbers(found: Result<(u64, usize), ReadError>) -> [u64; 3] {
    match found {
        Ok((v, next)) => [0, v, next as u64],
        Err(ReadError::Ends) => [ENDS_INSIDE, 0, 0],
        Err(ReadError::Bad) => [NO_VARINT, 0, 0],
    }
}

// Number 1 is the place in part 1. Answers: the refusal, the value and the place after it.
pub fn read(c: &[u8]) {
    let at = case::number(c, 1) as usize;
    let answer = found_numbers(varint::read32(case::part(c, 1), at));
    print::numbers(&answer);
}

fn wrote_numbers(wrote: Option<usize>) -> [u64; 2] {
    match wrote {
        Some(n) => [0, n as u64],
        None => [TOO_SHORT, 0],
    }
}

// A value that fits is written at the start of the output.
fn written(v: u64, out: &mut [u8]) -> [u64; 2] {
    if varint::MOST_32 < v {
        return [TOO_WIDE, 0];
    }
    wrote_numbers(varint::put(out, 0, v))
}

// Number 1 is the value. Answers: the refusal and how many octets it took.
pub fn write(c: &[u8], out: &mut [u8]) {
    let answer = written(case::number(c, 1), out);
    print::numbers(&answer);
}
