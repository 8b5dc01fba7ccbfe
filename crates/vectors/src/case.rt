// A case: its octets out of standard input, and what stands in them. Every call takes any octets and any place.
ghost use Rattle.std.specs.Prelude.{◌≤◌, length};

use write::LentTexts;

// The octets of the next case to the front of a buffer. At the input's end, and if they are too many, the buffer stays as it is.
pub fn next(buf: &mut [u8]) {
    let mut long = [0u8; 4];
    io::read_full(0, &mut long);
    let n = octets::be32(&long, 0) as usize;
    if n <= buf.len() {
        io::read_full(0, &mut buf[0..n]);
    }
}

// Part k of the octets, none if there is no such part.
pub fn part(s: &[u8], k: u8) -> &[u8] {
    let at = 4 * (k as usize);
    let from = octets::be32(s, at) as usize;
    let to = octets::be32(s, at + 4) as usize;
    if from <= to {
        if to <= s.len() {
            return &s[from..to];
        }
    }
    &s[0..0]
}

// An octet n times from a place on, as far as there is room, and the place after it.
fn repeated(to: &mut [u8], at: usize, n: u8, x: u8) -> usize
    requires { at ≤ length to.old }
    ensures { result ≤ length to.old }
{
    let mut end = at;
    let mut left = n;
    while end < to.len() && 0 < left {
        to[end] = x;
        end += 1;
        left -= 1;
    }
    end
}

// The octets that pairs stand for, to the front of a buffer, and how many there are.
fn paired(pairs: &[u8], to: &mut [u8]) -> usize
    ensures { result ≤ length to.old }
{
    let mut end: usize = 0;
    let mut i: usize = 0;
    while i < pairs.len() / 2 {
        end = repeated(to, end, pairs[2 * i], pairs[2 * i + 1]);
        i += 1;
    }
    end
}

// The same of part k.
pub fn unpacked(s: &[u8], k: u8, to: &mut [u8]) -> usize
    ensures { result ≤ length to.old }
{
    paired(part(s, k), to)
}

// The numbers that octets stand for, to the front of a list, and how many there are.
fn listed(from: &[u8], to: &mut [u64]) -> usize
    ensures { result ≤ length to.old }
{
    let mut i: usize = 0;
    while i < to.len() && i < from.len() / 8 {
        to[i] = octets::be64(from, 8 * i);
        i += 1;
    }
    i
}

// The same of part k.
pub fn list(s: &[u8], k: u8, to: &mut [u64]) -> usize
    ensures { result ≤ length to.old }
{
    listed(part(s, k), to)
}

// The numbers of a header.
pub fn header(s: &[u8]) -> [u64; flat::HEADER] {
    let mut n = [0u64; flat::HEADER];
    list(s, 1, &mut n);
    n
}

// The numbers of a sender.
pub fn sender(s: &[u8]) -> [u64; flat::SENDER] {
    let mut n = [0u64; flat::SENDER];
    list(s, 2, &mut n);
    n
}

// The numbers of a PDU's header.
pub fn pdu_values(s: &[u8]) -> [u64; flat_pdu::VALUES] {
    let mut n = [0u64; flat_pdu::VALUES];
    list(s, 1, &mut n);
    n
}

// Number k.
pub fn number(s: &[u8], k: u8) -> u64 {
    octets::be64(part(s, 0), 8 * (k as usize))
}

// The texts of parts 3 to 6 and 8, with the lengths of the domain's parts.
pub fn texts<'a>(s: &'a [u8], lengths: &'a [u64]) -> LentTexts<'a> {
    LentTexts {
        timestamp: part(s, 3),
        zone: part(s, 4),
        session_name: part(s, 5),
        domain: part(s, 6),
        lengths,
        authentication: part(s, 8),
    }
}
