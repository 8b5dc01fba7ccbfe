// Whether octets are well-formed text, as RFC 3629 writes it.
//
//   first octet   00..7F   C2..DF   E0..EF   F0..F4
//   octets           1        2        3        4       each after the first is 80..BF; right after E0, ED, F0 and F4 fewer are
//
// The call takes any slice and answers for the whole of it. Whether an octet may stand at a place depends on the three before it and on
// nothing else, so that places are tested many at a time: the loops carry a flag and do not leave early. Blocks of single octets,
// which most texts have, are known by a shorter test.
#![tactic(auto)]

ghost use Rattle.std.specs.Prelude.{◌≡◌, ◌+◌, ◌≤◌, ◌<◌, length};
ghost use Rattle.utf8.specs.Test.{is_text, ended as ended_test, begins as begins_test, continues as continues_test, follows as follows_test};
ghost use Rattle.utf8.specs.Test.{both as both_of, lowest as lowest_of, highest as highest_of, all_single};
ghost use Rattle.utf8.specs.Places.{octet_before, ended_at, follows_at, single_at, all};

use octets::{both, either};

// How many octets are tested as one block: so few that a character of several octets now and then costs little beside the blocks of
// single octets about it.
const BLOCK: usize = 32;

// No character is unfinished after three octets.
fn ended(a: u8, b: u8, c: u8) -> bool
    ensures { result ≡ ended_test a b c }
{
    both(a < 0xf0, both(b < 0xe0, c < 0xc0))
}

// A character begins with this octet.
fn begins(d: u8) -> bool
    ensures { result ≡ begins_test d }
{
    either(d < 0x80, both(0xc2 <= d, d <= 0xf4))
}

// The least octet after another inside a character.
fn lowest(c: u8) -> u8
    ensures { result ≡ lowest_of c }
{
    if c == 0xe0 {
        return 0xa0;
    }
    if c == 0xf0 {
        return 0x90;
    }
    0x80
}

// The largest one.
fn highest(c: u8) -> u8
    ensures { result ≡ highest_of c }
{
    if c == 0xed {
        return 0x9f;
    }
    if c == 0xf4 {
        return 0x8f;
    }
    0xbf
}

fn continues(c: u8, d: u8) -> bool
    ensures { result ≡ continues_test c d }
{
    both(lowest(c) <= d, d <= highest(c))
}

// Whether d may stand after a, b, c. Both answers are there before the choice, so that the loops have no branch.
fn follows(a: u8, b: u8, c: u8, d: u8) -> bool
    ensures { result ≡ follows_test a b c d }
{
    let first = begins(d);
    let next = continues(c, d);
    if ended(a, b, c) { first } else { next }
}

// The octet k places before a place, 0 before the first.
fn octet_before(x: &[u8], at: usize, k: usize) -> u8
    requires at_in_bounds { at ≤ length x.now }
    requires k_nonzero { 0 < k }
    ensures { result ≡ octet_before x.now at k }
{
    if k <= at {
        return x[at - k];
    }
    0
}

// No character is unfinished at a place.
fn ended_at(x: &[u8], at: usize) -> bool
    requires { at ≤ length x.now }
    ensures { result ≡ ended_at x.now at }
{
    ended(
        octet_before(x, at, 3),
        octet_before(x, at, 2),
        octet_before(x, at, 1),
    )
}

// The octet at a place may stand there.
fn follows_at(x: &[u8], at: usize) -> bool
    requires { at < length x.now }
    ensures { result ≡ follows_at x.now at }
{
    follows(
        octet_before(x, at, 3),
        octet_before(x, at, 2),
        octet_before(x, at, 1),
        x[at],
    )
}

// Each of n octets is a character by itself.
fn singles(x: &[u8], at: usize, n: usize) -> bool
    requires { at + n ≤ length x.now }
    ensures { result ≡ all (single_at x.now) at n }
{
    let mut so_far = true;
    for i in 0..n {
        so_far &= x[at + i] < 0x80;
    }
    so_far
}

// Each of n octets may stand where it does. For the start: there may be fewer than three before it.
fn first_follow(x: &[u8], at: usize, n: usize) -> bool
    requires { at + n ≤ length x.now }
    ensures { result ≡ all (follows_at x.now) at n }
{
    let mut so_far = true;
    for i in 0..n {
        so_far &= follows_at(x, at + i);
    }
    so_far
}

// The same from the third octet after a place on: the three before each are there.
fn later_follow(x: &[u8], at: usize, n: usize) -> bool
    requires { at + 3 + n ≤ length x.now }
    ensures { result ≡ all (follows_at x.now) (at + 3) n }
{
    let mut so_far = true;
    for i in 0..n {
        let k = at + i;
        so_far &= follows(x[k], x[k + 1], x[k + 2], x[k + 3]);
    }
    so_far
}

// The same anywhere.
fn all_follow(x: &[u8], at: usize, n: usize) -> bool
    requires { at + n ≤ length x.now }
    ensures { result ≡ all (follows_at x.now) at n }
{
    if 3 <= at {
        return later_follow(x, at - 3, n);
    }
    if n <= 3 {
        return first_follow(x, at, n);
    }
    both(first_follow(x, at, 3), later_follow(x, at, n - 3))
}

// The same for the last octets, and no character is unfinished at the end.
fn rest_ends(x: &[u8], at: usize, n: usize) -> bool
    requires { at + n ≤ length x.now }
    ensures { result ≡ both_of (all (follows_at x.now) at n) (ended_at x.now (at + n)) }
{
    if singles(x, at, n) {
        return ended_at(x, at);
    }
    both(all_follow(x, at, n), ended_at(x, at + n))
}

// Whether octets are text.
pub fn is_text(x: &[u8]) -> bool
    ensures { result ≡ is_text x.now }
{
    let mut so_far = true;
    let mut ended = true;
    let mut at: usize = 0;
    while BLOCK <= x.len() - at {
        if singles(x, at, BLOCK) {
            so_far = both(so_far, ended);
            ended = true;
        } else {
            so_far = both(so_far, all_follow(x, at, BLOCK));
            ended = ended_at(x, at + BLOCK);
        }
        at += BLOCK;
    }
    both(so_far, rest_ends(x, at, x.len() - at))
}

// Whether every octet is a character by itself: then all of it is text, and so is each part.
pub fn all_single(x: &[u8]) -> bool
    ensures { result ≡ all_single x.now }
{
    singles(x, 0, x.len())
}
