// What a run counts: a list of numbers, each at its own place.
//
// Places 0 to 63 count what was not carried, by the number of its refusal, 0 for what is longer than the program's window. Beside each
// stand which one was the first, counted from 1, and its place in the file.
pub const COUNTS: usize = 197;

pub const NUMBERS: usize = 64;

const FIRST: usize = 64;

const PLACE: usize = 128;

// What the findings tell, in this order: messages or PDUs seen, those that were carried; the octets written, those read, and those of
// them that were used up.
pub const SEEN: usize = 192;

pub const CARRIED: usize = 193;

pub const WRITTEN: usize = 194;

pub const READ: usize = 195;

pub const USED: usize = 196;

// Counts one that was not carried, and notes the first of its number.
pub fn refused(counts: &mut [u64; COUNTS], number: u8) {
    let k = number as usize;
    if k < NUMBERS {
        if counts[k] == 0 {
            counts[FIRST + k] = counts[SEEN];
            counts[PLACE + k] = counts[USED];
        }
        files::add(counts, k, 1);
    }
}

// Which one was the first of a number, and its place.
pub fn first(counts: &[u64; COUNTS], k: usize) -> u64 {
    if k < NUMBERS {
        return counts[FIRST + k];
    }
    0
}

pub fn place(counts: &[u64; COUNTS], k: usize) -> u64 {
    if k < NUMBERS {
        return counts[PLACE + k];
    }
    0
}
