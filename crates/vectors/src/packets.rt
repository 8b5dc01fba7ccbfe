// The calls that read, write and cut, over plain numbers: crate `flat` has them in order.
//
// Number 1 is T, number 2 the profile, and part 1 of reading is the packet. Those of the others: the header's numbers, the sender's,
// timestamp, zone, session name, domain, the lengths of its parts, authentication id, body. The sender's numbers: the sequence
// count and the counter.
use crate::{case, print};

// Answers: the refusal, then the header from left to right, H and the body, what the refusal tells, and whether a zone is there.
pub fn read(c: &[u8]) {
    let answer = flat::read(case::number(c, 1), case::number(c, 2), case::part(c, 1));
    print::numbers(&answer);
}

// Numbers 3 to 5: sequence flags, sequence count, counter. Answers: the refusal and the octets written.
pub fn write(c: &[u8], lengths: &[u64], out: &mut [u8]) {
    let header = case::header(c);
    let answer = flat::write(
        case::number(c, 1),
        case::number(c, 2),
        &header,
        case::texts(c, lengths),
        case::number(c, 3),
        case::number(c, 4),
        case::number(c, 5),
        case::part(c, 9),
        out,
    );
    print::numbers(&answer);
}

// Numbers 3 and 4: P and the body's length. Answers: the refusal, the count of packets, the sender's numbers.
pub fn count(c: &[u8], lengths: &[u64]) {
    let header = case::header(c);
    let sender = case::sender(c);
    let answer = flat::cut_count(
        case::number(c, 1),
        case::number(c, 2),
        case::number(c, 3),
        &header,
        case::texts(c, lengths),
        case::number(c, 4),
        &sender,
    );
    print::numbers(&answer);
}

// Numbers 3 and 4: P and i. Answers: the refusal, the octets written, the sender's numbers.
pub fn packet(c: &[u8], lengths: &[u64], out: &mut [u8]) {
    let header = case::header(c);
    let sender = case::sender(c);
    let answer = flat::cut_packet(
        case::number(c, 1),
        case::number(c, 2),
        case::number(c, 3),
        &header,
        case::texts(c, lengths),
        case::part(c, 9),
        &sender,
        case::number(c, 4),
        out,
    );
    print::numbers(&answer);
}
