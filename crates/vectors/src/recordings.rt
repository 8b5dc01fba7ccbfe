// A whole recording, part 1 of its case, joined or salvaged; number 1 is T, number 2 the profile. Why joining stopped as a number: 0 not said,
// 1 ended, 2 unmarked, 3 torn.
ghost use Rattle.std.specs.Prelude.{◌≤◌};

use crate::{case, print};

// The most numbers of a list, and what stands in each before a call.
const LIST: usize = 768;

const UNTOUCHED: u64 = 77;

// Answers: the refusal, the octets written, the place where it stopped, and why.
pub fn join(c: &[u8], out: &mut [u8]) {
    let answer = flat_store::recordings::join_recording(
        case::number(c, 1),
        case::number(c, 2),
        case::part(c, 1),
        out,
    );
    print::numbers(&answer);
}

fn at_most(n: usize) -> usize
    ensures { result ≤ 768 }
{
    if LIST < n {
        return LIST;
    }
    n
}

// Numbers: T, the profile, begin, place, the grant, and how many numbers the list has. Answers: the refusal, the places tested, the entries, begin and
// place, whether it is done; and all of the list.
pub fn salvage(c: &[u8]) {
    let mut list = [UNTOUCHED; LIST];
    let n = at_most(case::number(c, 6) as usize);
    let lent = &mut list[0..n];
    let answer = flat_store::recordings::salvage(
        case::number(c, 1),
        case::number(c, 2),
        case::part(c, 1),
        case::number(c, 3),
        case::number(c, 4),
        case::number(c, 5),
        lent,
    );
    print::numbers(&answer);
    print::numbers(lent);
}
