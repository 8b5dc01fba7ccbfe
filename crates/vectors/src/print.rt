// Text to standard output: the numbers of an answer in decimal, and octets in hex with runs.
//
// Each call makes its text from the front of a buffer of its own: `used` is how much of it is taken, and what does not fit is dropped.
ghost use Rattle.std.specs.Prelude.{◌≤◌, ◌<◌, length};

pub const BLANK: u8 = 32;

const COMMA: u8 = 44;

const STAR: u8 = 42;

// The size of a buffer.
const TEXT: usize = 16384;

// An octet.
fn put(text: &mut [u8], used: usize, x: u8) -> usize {
    if used < text.len() {
        text[used] = x;
        return used + 1;
    }
    used
}

// A number in decimal, and a mark after it.
fn decimal(text: &mut [u8], used: usize, v: u64, mark: u8) -> usize {
    let mut digits = [0u8; 20];
    let k = io::decimal(v, &mut digits);
    let to = octets::lay(text, used, &digits[..k]);
    put(text, to, mark)
}

// An octet as two hex digits.
fn hex(text: &mut [u8], used: usize, x: u8) -> usize {
    let mut digits = [0u8; 16];
    let k = io::hex(x as u64, 2, &mut digits);
    octets::lay(text, used, &digits[..k])
}

// Writes out what was made.
fn write(text: &[u8], used: usize) {
    if used <= text.len() {
        io::write_all(1, &text[0..used]);
    }
}

// Numbers, each with a blank after it.
fn listed(text: &mut [u8], list: &[u64]) -> usize {
    let mut used: usize = 0;
    let mut i: usize = 0;
    while i < list.len() {
        used = decimal(text, used, list[i], BLANK);
        i += 1;
    }
    used
}

// The numbers of an answer.
pub fn numbers(list: &[u64]) {
    let mut text = [0u8; TEXT];
    let used = listed(&mut text, list);
    write(&text, used);
}

// Where the equal octets from a place on end.
fn run_end(s: &[u8], at: usize) -> usize
    requires { at < length s.now }
    ensures { (at < result) × (result ≤ length s.now) }
{
    let x = s[at];
    let mut i = at + 1;
    while i < s.len() {
        if s[i] != x {
            return i;
        }
        i += 1;
    }
    i
}

// n equal octets.
fn run(text: &mut [u8], used: usize, x: u8, n: usize) -> usize {
    let one = hex(text, used, x);
    if n == 1 {
        return one;
    }
    let star = put(text, one, STAR);
    decimal(text, star, n as u64, COMMA)
}

// All octets of a slice, run by run.
fn runs(text: &mut [u8], s: &[u8]) -> usize {
    let mut used: usize = 0;
    let mut i: usize = 0;
    while i < s.len() {
        let end = run_end(s, i);
        used = run(text, used, s[i], end - i);
        i = end;
    }
    used
}

// The octets of a buffer, and a mark after them.
pub fn buffer(s: &[u8], mark: u8) {
    let mut text = [0u8; TEXT];
    let used = runs(&mut text, s);
    let all = put(&mut text, used, mark);
    write(&text, all);
}
