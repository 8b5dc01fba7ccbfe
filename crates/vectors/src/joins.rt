// Joining, and the view of a body. The buffer as a number: 0 nothing, 1 packet, 2 joined.
use crate::{case, print};
use join::Which;

// Number 1 is T, number 2 the profile, part 1 the packet. Answers: the refusal, the buffer, place and length, H, the octets of the body,
// the first's counter, what the refusal tells.
pub fn join(c: &[u8], store: &mut [u8], out: &mut [u8]) {
    let answer = flat_store::join(
        case::number(c, 1),
        case::number(c, 2),
        store,
        case::part(c, 1),
        out,
    );
    print::numbers(&answer);
}

fn which_of(n: u64) -> Which {
    match n {
        1 => Which::Packet,
        2 => Which::Joined,
        _ => Which::Nothing,
    }
}

// Numbers: the buffer, place and length. Parts 1 and 2 are the packet and the joined buffer. Answers: the length of the part that is
// seen, and its octets.
pub fn view(c: &[u8]) {
    let part = join::view(
        case::part(c, 1),
        case::part(c, 2),
        which_of(case::number(c, 1)),
        case::number(c, 2) as usize,
        case::number(c, 3) as usize,
    );
    print::numbers(&[part.len() as u64]);
    print::buffer(part, print::BLANK);
}
