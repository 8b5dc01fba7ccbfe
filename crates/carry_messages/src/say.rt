// What the program tells. On standard error: progress at a terminal, and failures. At the end its findings, for whoever started it: a
// line each of words and numbers with one space between them, the last one `done`.
//
//   NAME N                       a number of the run, by its name in `label`
//   refusal NUMBER N FIRST PLACE
//                                N were refused with this number, 0 for those longer than the program's window; the first of them is
//                                number FIRST in the file, counted from 1, and begins at octet PLACE
//   stop WHY                     why it stopped: 1 the file ends, 2 no message or PDU begins there, 3 a torn one, 4 reading failed,
//                                5 writing failed
//   done
use crate::counts;
use counts::COUNTS;
use files::Sink;

// Why a run stops.
pub const ENDED: u8 = 1;

pub const UNMARKED: u8 = 2;

pub const TORN: u8 = 3;

pub const NOT_READ: u8 = 4;

pub const NOT_WRITTEN: u8 = 5;

// A space and a number.
fn next(to: &mut Sink, n: u64) {
    files::tell(to, b" ", n);
}

// In the order of their places.
fn label(to: &mut Sink, k: usize) {
    if k == counts::SEEN {
        files::write(to, b"seen");
    } else if k == counts::CARRIED {
        files::write(to, b"carried");
    } else if k == counts::WRITTEN {
        files::write(to, b"written");
    } else if k == counts::READ {
        files::write(to, b"read");
    } else {
        files::write(to, b"used");
    }
}

fn told(to: &mut Sink, k: usize, n: u64) {
    label(to, k);
    next(to, n);
    files::write(to, b"\n");
}

fn numbers(to: &mut Sink, counts: &[u64; COUNTS]) {
    let mut k: usize = counts::SEEN;
    while k < COUNTS {
        told(to, k, files::at(counts, k));
        k += 1;
    }
}

// The line of a refusal number that occurred.
fn refused(to: &mut Sink, counts: &[u64; COUNTS], k: usize) {
    let n = files::at(counts, k);
    if n == 0 {
        return;
    }
    files::write(to, b"refusal");
    next(to, k as u64);
    next(to, n);
    next(to, counts::first(counts, k));
    next(to, counts::place(counts, k));
    files::write(to, b"\n");
}

fn refusals(to: &mut Sink, counts: &[u64; COUNTS]) {
    let mut k: usize = 0;
    while k < counts::NUMBERS {
        refused(to, counts, k);
        k += 1;
    }
}

// All of them: the numbers, what was not carried, and why it stopped.
pub fn findings(to: &mut Sink, counts: &[u64; COUNTS], stop: u8) {
    numbers(to, counts);
    refusals(to, counts);
    files::write(to, b"stop");
    next(to, stop as u64);
    files::write(to, b"\n");
    files::write(to, b"done");
    files::write(to, b"\n");
}
