// What the program tells. On standard error: progress at a terminal, and failures. At the end its findings, for whoever started it: a
// line each of words and numbers with one space between them, the last one `done`.
//
//   NAME N          a number of the run, by its name in `label`
//   stop WHY        why it stopped: 1 the recording ends, 4 reading failed, 5 writing the packets failed, 6 writing the list failed, 7 nobody
//                   reads the pipe any more, 15 T or the profile is out of range
//   done
ghost use Rattle.std.specs.Prelude.{◌≤◌, length};

use crate::counts;
use counts::COUNTS;
use files::Sink;

// Why a run stops.
pub const ENDED: u8 = 1;

pub const NOT_READ: u8 = 4;

pub const NOT_WRITTEN: u8 = 5;

pub const NOT_LISTED: u8 = 6;

pub const NOT_PIPED: u8 = 7;

// In the order of their places.
fn label(to: &mut Sink, k: usize) {
    if k == counts::PACKETS {
        files::write(to, b"packets ");
    } else if k == counts::KEPT {
        files::write(to, b"kept ");
    } else if k == counts::STRETCHES {
        files::write(to, b"stretches ");
    } else if k == counts::SKIPPED {
        files::write(to, b"skipped ");
    } else if k == counts::LISTED {
        files::write(to, b"listed ");
    } else if k == counts::WRITTEN {
        files::write(to, b"written ");
    } else {
        files::write(to, b"read ");
    }
}

// The line of a number.
fn told(to: &mut Sink, k: usize, n: u64) {
    label(to, k);
    files::tell(to, b"", n);
    files::write(to, b"\n");
}

fn numbers(to: &mut Sink, counts: &[u64; COUNTS]) {
    let mut k: usize = 0;
    while k < COUNTS {
        told(to, k, counts::at(counts, k));
        k += 1;
    }
}

// All of them: the numbers, and why it stopped.
pub fn findings(to: &mut Sink, counts: &[u64; COUNTS], stop: u8) {
    numbers(to, counts);
    files::tell(to, b"stop ", stop as u64);
    files::write(to, b"\ndone\n");
}
