// What the program tells. On standard error: progress at a terminal, and failures. At the end its findings, for whoever started it: a
// line each of words and numbers with one space between them, the last one `done`.
//
//   NAME N                                            a number of the run, by its name in `label`
//   refusal NUMBER N                                  N packets were refused with this number
//   began PLACE N                                     N of those refused with 6 end in the field that begins at this place of the
//                                                     secondary header: the most for any place, the lowest of several
//   segment KEY TYPE APID SDU TRANSACTION FLAGS COUNTER
//                                                     a segment left in the store; KEY is the lowest cell with its key
//   stop WHY                                          why it stopped: 1 the recording ends, 2 no mark, 3 a torn packet, 4 reading
//                                                     failed, 5 writing failed
//   done
ghost use Rattle.std.specs.Prelude.{◌≤◌, length};

use crate::counts;
use counts::COUNTS;
use files::Sink;
use tally::Told;
use walk::Settings;

const NEWLINE: u8 = 10;

// Why a run stops.
pub const ENDED: u8 = 1;

pub const UNMARKED: u8 = 2;

pub const TORN: u8 = 3;

pub const NOT_READ: u8 = 4;

pub const NOT_WRITTEN: u8 = 5;

// A space and a number.
fn next(to: &mut Sink, n: u64) {
    files::tell(to, b" ", n);
}

// The settings are refused by this number.
pub fn not_joined(k: u8) {
    files::say_number(b"the settings are refused with ", k as u64);
    files::say(b"\n");
}

// A store has no such number of cells.
pub fn no_store(n: u64) {
    files::say_number(b"a store has 1 to 4096 cells, and not ", n);
    files::say(b"\n");
}

// ---- the names of the numbers

// Where the line of a table that a place lies in ends.
fn line_end(table: &[u8], from: usize) -> usize
    requires { from ≤ length table.now }
    ensures { (from ≤ result) × (result ≤ length table.now) }
{
    let mut at = from;
    while at < table.len() {
        if table[at] == NEWLINE {
            return at;
        }
        at += 1;
    }
    at
}

// Where the next line begins, or the end.
fn after(table: &[u8], at: usize) -> usize
    ensures { result ≤ length table.now }
{
    let whole = table.len();
    if at < whole {
        return at + 1;
    }
    whole
}

// Where line k begins, the first one for 0.
fn begins(table: &[u8], k: usize) -> usize
    ensures { result ≤ length table.now }
{
    let mut from: usize = 0;
    let mut left = k;
    while 0 < left {
        from = after(table, line_end(table, from));
        left -= 1;
    }
    from
}

fn entry(to: &mut Sink, table: &[u8], k: usize) {
    let from = begins(table, k);
    let end = line_end(table, from);
    files::write(to, &table[from..end]);
}

// In the order of their places.
fn label(to: &mut Sink, k: usize) {
    entry(
        to,
        b"packets
whole
joined
kept
long
segments
keys
written
refused
read
used
late
forgot
",
        k,
    );
}

// ---- the findings

// The line of a number.
fn told(to: &mut Sink, k: usize, n: u64) {
    label(to, k);
    next(to, n);
    files::write(to, b"\n");
}

fn numbers(to: &mut Sink, counts: &[u64; COUNTS]) {
    let mut k: usize = 0;
    while k < counts::TOLD {
        told(to, k, counts::at(counts, counts::SEEN + k));
        k += 1;
    }
}

// The line of a refusal number that occurred.
fn refused(to: &mut Sink, k: usize, n: u64) {
    if n == 0 {
        return;
    }
    files::write(to, b"refusal");
    next(to, k as u64);
    next(to, n);
    files::write(to, b"\n");
}

fn refusals(to: &mut Sink, counts: &[u64; COUNTS]) {
    let mut k: usize = 1;
    while k <= counts::NUMBERS {
        refused(to, k, counts::at(counts, k));
        k += 1;
    }
}

// The line of the place at which most unfinished fields began, if there was one.
fn began(to: &mut Sink, counts: &[u64; COUNTS]) {
    let k = counts::most_began(counts);
    let n = counts::began(counts, k);
    if n == 0 {
        return;
    }
    files::write(to, b"began");
    next(to, k as u64);
    next(to, n);
    files::write(to, b"\n");
}

// The line of a held cell.
fn segment(to: &mut Sink, t: Told) {
    files::write(to, b"segment");
    next(to, t.key as u64);
    next(to, t.packet_type as u64);
    next(to, t.apid as u64);
    next(to, t.sdu as u64);
    next(to, t.transaction);
    next(to, t.flags as u64);
    next(to, t.counter as u64);
    files::write(to, b"\n");
}

fn segments(to: &mut Sink, s: Settings, store: &[u8], n: usize) {
    let mut i: usize = 0;
    while i < n {
        if let Some(told) = tally::cell(s, store, i) {
            segment(to, told);
        }
        i += 1;
    }
}

// All of them: the numbers, which refusals occurred, what is left in the store of n cells, and why it stopped.
pub fn findings(
    to: &mut Sink,
    s: Settings,
    counts: &[u64; COUNTS],
    store: &[u8],
    n: usize,
    stop: u8,
) {
    numbers(to, counts);
    refusals(to, counts);
    began(to, counts);
    segments(to, s, store, n);
    files::write(to, b"stop");
    next(to, stop as u64);
    files::write(to, b"\n");
    files::write(to, b"done");
    files::write(to, b"\n");
}
