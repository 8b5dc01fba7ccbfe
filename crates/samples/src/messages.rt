// The messages of the samples, by number: a header, a body of some octets, and where the sender stands.
//
// Odd ones carry every kind of optional field, a network zone among them: the old cutter makes them all. Message 7 is cut into packets too
// long for a cell.
use packet::{Apid, Present, SecondaryApid, SegmentCounter, SequenceCount};
use sender::Sender;
use walk::Settings;
use write::{HeaderValues, LentTexts, Writer};

const MESSAGES: usize = 8;

// The octets of each body.
const LENGTHS: [usize; MESSAGES] = [0, 37, 2400, 3000, 900, 4000, 1500, 2000];

// The packet limit that fits a cell, and one that does not.
const LIMIT: usize = 1022;

const LONG_LIMIT: usize = 1100;

const LONG: u8 = 7;

// How many octets the body of a message has.
pub fn length(m: u8) -> usize {
    LENGTHS.get(m as usize).copied().unwrap_or(0)
}

// An octet of a body.
fn tone(i: usize, m: u8) -> u8 {
    ((i % 256 * 7 + m as usize * 31) % 256) as u8
}

// The body of a message, as far as the buffer goes.
pub fn fill(body: &mut [u8], m: u8) {
    for (i, x) in body.iter_mut().enumerate() {
        *x = tone(i, m);
    }
}

fn limit(m: u8) -> usize {
    if m == LONG { LONG_LIMIT } else { LIMIT }
}

// Whether a message carries the optional fields.
fn rich(m: u8) -> bool {
    m % 2 == 1
}

// Every text, or none.
fn texts(all: bool) -> LentTexts<'static> {
    if all {
        LentTexts {
            timestamp: b"20261115",
            zone: b"north",
            session_name: b"LIVE",
            domain: b"pipeline",
            lengths: &[4, 4],
            authentication: b"pilot",
        }
    } else {
        LentTexts {
            timestamp: &[],
            zone: &[],
            session_name: &[],
            domain: &[],
            lengths: &[],
            authentication: &[],
        }
    }
}

fn present(all: bool) -> Present {
    Present {
        source: all,
        destination: all,
        priority: all,
        timestamp: all,
        zone: all,
        session_name: all,
        domain: all,
        authentication: all,
    }
}

fn header(m: u8) -> HeaderValues {
    let all = rich(m);
    HeaderValues {
        packet_type: 1,
        apid: Apid(m as u16 + 5),
        sdu: 0,
        area: 1,
        service: 2,
        operation: 3,
        version: 1,
        error: 0,
        qos: 1,
        session: 0,
        secondary_apid: SecondaryApid(6),
        qualifier: 7,
        transaction: m as u64 + 9,
        has: present(all),
        source: if all { 1 } else { 0 },
        destination: if all { 2 } else { 0 },
        priority: if all { 300 } else { 0 },
    }
}

// Sequence counts and counters of different messages lie apart.
fn sender(m: u8) -> Sender {
    Sender {
        sequence_count: SequenceCount(m as u16 * 6 + 16341),
        counter: SegmentCounter(m as u32 * 1000),
    }
}

// Packet i of a message with this body. How many octets it has.
pub fn packet(m: u8, i: u8, body: &[u8], out: &mut [u8]) -> usize {
    let s = Settings {
        t: 8,
        profile: walk::PROFILE_VARINT,
    };
    cut::packet_by(
        Writer::Old,
        s,
        limit(m),
        header(m),
        texts(rich(m)),
        body,
        sender(m),
        i as usize,
        out,
    )
    .length
}
