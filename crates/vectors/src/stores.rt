// The store: the check of its order inside arrival and taking, a packet's arrival, taking, and forgetting.
//
// Number 1 is T, number 2 the profile, part 1 of an arrival is the packet, and number 3 of forgetting the cell.
use crate::{case, print};

// Answers: the refusal, 15 or 16, and the number of cells of a store in order.
pub fn order(c: &[u8], store: &[u8]) {
    let answer = flat_store::in_order(case::number(c, 1), case::number(c, 2), store);
    print::numbers(&answer);
}

// Answers: the refusal; 1 whole, 2 stored, 3 held or 4 taken; what the refusal tells.
pub fn arrive(c: &[u8], store: &mut [u8]) {
    let answer = flat_store::arrive(
        case::number(c, 1),
        case::number(c, 2),
        store,
        case::part(c, 1),
    );
    print::numbers(&answer);
}

// Answers: the refusal.
pub fn forget(c: &[u8], store: &mut [u8]) {
    let answer = flat_store::forget(
        case::number(c, 1),
        case::number(c, 2),
        store,
        case::number(c, 3),
    );
    print::numbers(&answer);
}

// Answers: the refusal, H, the octets of the body, the first's counter.
pub fn take(c: &[u8], store: &mut [u8], out: &mut [u8]) {
    let answer = flat_store::take(case::number(c, 1), case::number(c, 2), store, out);
    print::numbers(&answer);
}
