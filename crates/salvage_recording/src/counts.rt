// What a run counts: a list of numbers, each at its own place. A number that would pass 64 bits stays at the largest.
pub const COUNTS: usize = 7;

// What the findings tell, in this order: packets kept and their octets, marks counted; stretches skipped and their octets; the octets of
// the list and of the packets that were written; the octets read.
pub const PACKETS: usize = 0;

pub const KEPT: usize = 1;

pub const STRETCHES: usize = 2;

pub const SKIPPED: usize = 3;

pub const LISTED: usize = 4;

pub const WRITTEN: usize = 5;

pub const READ: usize = 6;

// The number at a place; 0 if there is none.
pub fn at(counts: &[u64; COUNTS], k: usize) -> u64 {
    if k < COUNTS {
        return counts[k];
    }
    0
}

// Adds to the number at a place.
pub fn add(counts: &mut [u64; COUNTS], k: usize, n: u64) {
    if k < COUNTS {
        counts[k] = files::sum(counts[k], n);
    }
}
