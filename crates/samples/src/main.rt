// Makes the sample recordings: messages that the cutter cuts, their packets in a chosen order, each after its mark.
//
//   samples [clean | mixed | torn]
//
// Without an argument all three are written, one after another. A sample is a list of acts; an act is a message, the number of one of
// its packets, and what befalls the packet on the way. Proved here: the program is safe and ends.
#![tactic(auto)]

mod messages;

use Fate::{Changed, Torn, Well};
use std::env::{Env, FillError};

const OUTPUT: i32 = 1;

// What befalls a packet: nothing; the octet at a place changes; or it ends after so many octets.
#[derive(Clone, Copy)]
enum Fate {
    Well,
    Changed(usize, u8),
    Torn(usize),
}

// A message, the number of one of its packets, and what befalls this.
type Act = (u8, u8, Fate);

// All in order.
const CLEAN: [Act; 17] = [
    (0, 0, Well),
    (1, 0, Well),
    (2, 0, Well),
    (2, 1, Well),
    (2, 2, Well),
    (4, 0, Well),
    (5, 0, Well),
    (5, 1, Well),
    (5, 2, Well),
    (5, 3, Well),
    (5, 4, Well),
    (6, 0, Well),
    (6, 1, Well),
    (3, 0, Well),
    (3, 1, Well),
    (3, 2, Well),
    (3, 3, Well),
];

// Out of order, repeated, late and interleaved, with packets that are refused: by 2, 3, 7, 8, 18, 6, 13 and 17. One segment of message
// 3 is lost, so three segments of it are left; and one of message 5 comes again when the message was taken, so it is late.
const MIXED: [Act; 27] = [
    (5, 4, Well),
    (2, 2, Well),
    (5, 0, Well),
    (2, 0, Well),
    (1, 0, Changed(0, 0x38)),
    (1, 0, Well),
    (5, 2, Well),
    (5, 2, Well),
    (4, 0, Changed(0, 0x10)),
    (2, 1, Well),
    (5, 1, Well),
    (0, 0, Changed(6, 0x20)),
    (0, 0, Changed(6, 0x1f)),
    (5, 3, Well),
    (5, 3, Well),
    (6, 0, Well),
    (6, 0, Changed(100, 0)),
    (6, 0, Well),
    (0, 0, Changed(26, 2)),
    (4, 0, Changed(26, 2)),
    (7, 0, Well),
    (6, 1, Well),
    (3, 0, Well),
    (3, 3, Well),
    (3, 2, Well),
    (4, 0, Well),
    (0, 0, Well),
];

// The recording ends inside the last segment of message 2.
const ENDED: [Act; 4] = [(4, 0, Well), (2, 0, Well), (2, 1, Well), (2, 2, Torn(200))];

// What is asked for.
#[derive(Clone, Copy, PartialEq, Eq)]
enum Asked {
    All,
    Clean,
    Mixed,
    Torn,
    Nothing,
}

// The mark and the packet of so many octets as it arrives.
fn put(out: &mut [u8], size: usize, fate: Fate) {
    let shown = match fate {
        Well => size,
        Changed(place, value) => {
            octets::put_octet(out, place, value);
            size
        }
        Torn(shown) => shown,
    };
    io::write_all(OUTPUT, b"MP");
    io::write_all(OUTPUT, &out[..shown.min(out.len())]);
}

// An act: packet i of message m.
fn act(m: u8, i: u8, fate: Fate, body: &mut [u8], out: &mut [u8]) {
    messages::fill(body, m);
    let n = messages::length(m).min(body.len());
    let size = messages::packet(m, i, &body[..n], out);
    put(out, size, fate);
}

// The acts of a list.
fn acts(list: &[Act], body: &mut [u8], out: &mut [u8]) {
    for &(m, i, fate) in list {
        act(m, i, fate, body, out);
    }
}

// The sample of a name.
fn named(name: &[u8]) -> Asked {
    if name == b"clean".as_slice() {
        Asked::Clean
    } else if name == b"mixed".as_slice() {
        Asked::Mixed
    } else if name == b"torn".as_slice() {
        Asked::Torn
    } else {
        Asked::Nothing
    }
}

// The sample that the argument asks for.
fn choice(rt: HostRuntime) -> Asked {
    let mut name = io::buffer();
    match rt.arg(1, &mut name) {
        Ok(n) => named(&name[..n]),
        Err(FillError::NotPresent) => Asked::All,
        Err(FillError::TooLong) => Asked::Nothing,
    }
}

fn main(rt: HostRuntime) {
    let asked = choice(rt);
    let mut body = [0u8; 4096];
    let mut out = [0u8; 2048];
    if asked == Asked::All || asked == Asked::Clean {
        acts(&CLEAN, &mut body, &mut out);
    }
    if asked == Asked::All || asked == Asked::Mixed {
        acts(&MIXED, &mut body, &mut out);
    }
    if asked == Asked::All || asked == Asked::Torn {
        acts(&ENDED, &mut body, &mut out);
    }
}
