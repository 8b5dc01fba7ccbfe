// What a run counts: a list of numbers, each at its own place.
//
// Places 1 to 63 count the packets refused with that number; from `BEGAN` on those refused with 6 are counted by where in the secondary
// header the unfinished field began. A number that would pass 64 bits stays at the largest.
use steps::{Became, Done};
use walk::{REFUSED_HEADER_ENDS, Refusal};

pub const COUNTS: usize = 333;

// What the findings tell, in this order: packets seen; those that came whole, that completed a message, that were stored or held
// already, that were too long; the segments left in the store and their keys; the octets written; the packets refused; the octets read,
// and those of them that packets used up; the packets that came late, and the joined messages that were forgotten.
pub const SEEN: usize = 64;

pub const WHOLE: usize = 65;

pub const JOINED: usize = 66;

pub const KEPT: usize = 67;

pub const PASSED: usize = 68;

pub const SEGMENTS: usize = 69;

pub const KEYS: usize = 70;

pub const WRITTEN: usize = 71;

pub const REFUSED: usize = 72;

pub const READ: usize = 73;

pub const USED: usize = 74;

pub const LATE: usize = 75;

pub const FORGOT: usize = 76;

pub const TOLD: usize = 13;

// The places of a secondary header, which has at most 256 octets.
const BEGAN: usize = 77;

const PLACES: usize = 256;

// The largest refusal number that has a place: more than there are.
pub const NUMBERS: usize = 63;

// The number at a place; 0 if there is none.
pub fn at(counts: &[u64; COUNTS], k: usize) -> u64 {
    if k < COUNTS {
        return counts[k];
    }
    0
}

// Adds to the number at a place.
pub fn add(counts: &mut [u64; COUNTS], k: usize, n: u64) {
    if k < COUNTS {
        counts[k] = files::sum(counts[k], n);
    }
}

// Where a packet is counted, by what it came to.
fn place(became: Became) -> usize {
    match became {
        Became::Passed => PASSED,
        Became::Refused(refusal) => refusal.number as usize,
        Became::Kept => KEPT,
        Became::Late => LATE,
        Became::Whole { .. } => WHOLE,
        Became::Joined { .. } => JOINED,
    }
}

// Counts the joined messages that were forgotten, of which no record is left. Each message that is joined makes one record, and only forgetting
// takes one away.
pub fn note_forgot(counts: &mut [u64; COUNTS], records: u64) {
    let joined = at(counts, JOINED);
    if records < joined {
        add(counts, FORGOT, joined - records);
    }
}

// How many packets refused with 6 end in a field that began at a place of the secondary header.
pub fn began(counts: &[u64; COUNTS], k: usize) -> u64 {
    if k < PLACES {
        return at(counts, BEGAN + k);
    }
    0
}

// The one of two places at which more fields began; the first if there are as many.
fn more_began(counts: &[u64; COUNTS], a: usize, b: usize) -> usize {
    if began(counts, a) < began(counts, b) {
        return b;
    }
    a
}

// The place at which most fields began, the lowest of several.
pub fn most_began(counts: &[u64; COUNTS]) -> usize {
    let mut most: usize = 0;
    let mut k: usize = 1;
    while k < PLACES {
        most = more_began(counts, most, k);
        k += 1;
    }
    most
}

// Counts where the unfinished field began, of a packet refused with 6.
fn note_began(counts: &mut [u64; COUNTS], refusal: Refusal) {
    let k = refusal.place;
    if refusal.number == REFUSED_HEADER_ENDS {
        if k < PLACES {
            add(counts, BEGAN + k, 1);
        }
    }
}

// Counts a packet.
pub fn note(counts: &mut [u64; COUNTS], done: Done) {
    if let Done::Packet { used, became } = done {
        add(counts, SEEN, 1);
        add(counts, USED, used as u64);
        add(counts, place(became), 1);
        if let Became::Refused(refusal) = became {
            note_began(counts, refusal);
            add(counts, REFUSED, 1);
        }
    }
}
