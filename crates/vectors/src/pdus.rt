// The survey office's PDU, read and written over plain numbers: crate `flat_pdu` has them in order.
//
// Part 1 of reading is the PDU. Those of writing: the header's numbers, source id, timestamp, zone, session name, domain, the lengths of its
// parts, authentication id, body, destination id.
use crate::{case, print};

// Answers: the refusal, then the header from left to right, the variable length and the body, and what the refusal tells.
pub fn read(c: &[u8]) {
    let answer = flat_pdu::pdu_read(case::part(c, 1));
    print::numbers(&answer);
}

// Answers: the refusal, the octets written and those before the body.
pub fn write(c: &[u8], lengths: &[u64], out: &mut [u8]) {
    let values = case::pdu_values(c);
    let answer = flat_pdu::pdu_write(
        &values,
        case::part(c, 2),
        case::part(c, 10),
        case::texts(c, lengths),
        case::part(c, 9),
        out,
    );
    print::numbers(&answer);
}
