// The recording program, SPEC G-1 to G-7, G-19, G-20: joins a recording and writes its messages to standard output.
//
//   join_recording [RECORDING [REPORT [TIMESTAMP [PROFILE [CELLS]]]]]
//
// The recording is a file, or standard input if it is `-` or not named. The octets in hand stand in a window; `steps` says what to write and
// how many octets it used up, and if it wants more, what is left goes to the window's front and more is read after it. Messages are
// gathered and written together: before each read, since it may wait, and if the next message might find no room. A failed read or write
// is told on standard error. A program has no exit status, so at the end its findings go to the new file REPORT, or to standard error if
// none is named. TIMESTAMP and PROFILE are the settings in decimal digits: T, 8 if it is not named, and the profile, 1 for four octets, 0 or
// not named for Varints. CELLS is how many cells the store has, 1 to 4,096, 32 if it is not named. If any of them is out of range, nothing is
// read and no report is made.
//
// Proved here: the program is safe and ends, and each step meets what it asks: the settings are in range, and the store stays in order
// from the first step to the last. Module output writes, counts has the numbers of the findings, say tells them.
#![tactic(auto)]

mod counts;
mod output;
mod say;

ghost use Rattle.std.specs.Prelude.{◌≡◌, ◌+◌, ◌≤◌, length};
ghost use Rattle.walk.specs.Walk.{begun};
ghost use Rattle.cells.specs.Rows.{zero_row};
ghost use Rattle.cells.specs.Order.{cell_size, cells_most, count_in, gate};
ghost use Rattle.join_recording.specs.Begins.{zeros};
ghost use Rattle.steps.specs.Stepping.{room};

use cells::{CELL, CELLS_MOST};
use counts::COUNTS;
use files::{Sink, Source};
use steps::{Done, SPACE};
use walk::Settings;

// The program's arguments: the recording, the file for its findings, T, the profile, and how many cells the store has.
const RECORDING: usize = 1;

const REPORT: usize = 2;

const TIMESTAMP: usize = 3;

const PROFILE: usize = 4;

const CELLS: usize = 5;

// The octets of the largest store.
const STORE: usize = 4194304;

// The window: more than a mark and the longest packet.
const WINDOW: usize = 196608;

// The messages that are gathered: what a window comes to, and room for the longest.
const GATHERED: usize = 262144;

// The octets in hand, from a place of the window up to another; how many octets are gathered; whether the recording ends with those in
// hand; why it stops, 0 if it goes on.
#[derive(Clone, Copy)]
struct Hand {
    from: usize,
    till: usize,
    at: usize,
    ends: bool,
    stop: u8,
}

fn in_hand(from: usize, till: usize, at: usize, ends: bool, stop: u8) -> Hand
    ensures from_value { result.from ≡ from }
    ensures till_value { result.till ≡ till }
    ensures at_value { result.at ≡ at }
{
    Hand {
        from: from,
        till: till,
        at: at,
        ends: ends,
        stop: stop,
    }
}

// Writes what is gathered. 0, or why it stops.
fn flush(to: &mut Sink, x: &[u8], counts: &mut [u64; COUNTS]) -> u8 {
    if output::put(to, x, counts) {
        return 0;
    }
    say::NOT_WRITTEN
}

// Counts the octets read. 0, or why it stops.
fn took(file: &Source, got: isize, n: usize, counts: &mut [u64; COUNTS]) -> u8 {
    if files::took(file, got, n, counts, counts::READ) {
        return 0;
    }
    say::NOT_READ
}

// More octets after those in hand. The recording ends if none come.
fn refill(
    file: &mut Source,
    buf: &mut [u8],
    from: usize,
    till: usize,
    counts: &mut [u64; COUNTS],
) -> Hand
    requires from_le_till { from ≤ till }
    requires till_in_bounds { till ≤ length buf.old }
    ensures from_le_till_2 { result.from ≤ result.till }
    ensures till_in_bounds_2 { result.till ≤ length buf.old }
    ensures at_value { result.at ≡ 0 }
{
    files::front(buf, from, till);
    let had = till - from;
    let whole = buf.len();
    let space = &mut buf[had..whole];
    let got = files::read(file, space);
    let n = io::count(got, space);
    let stop = took(file, got, n, counts);
    Hand {
        from: 0,
        till: had + n,
        at: 0,
        ends: n == 0,
        stop: stop,
    }
}

// Why a step that used up nothing stops.
fn why(done: Done) -> u8 {
    match done {
        Done::Ended => say::ENDED,
        Done::Unmarked => say::UNMARKED,
        _ => say::TORN,
    }
}

// What is gathered is written if the longest message would find no room after it.
fn gather(
    to: &mut Sink,
    from: usize,
    till: usize,
    at: usize,
    ends: bool,
    out: &[u8],
    counts: &mut [u64; COUNTS],
) -> Hand
    requires at_in_bounds { at ≤ length out.now }
    requires room_in_bounds { 6 + room ≤ length out.now }
    ensures from_value { result.from ≡ from }
    ensures till_value { result.till ≡ till }
    ensures room_in_bounds_2 { result.at + (6 + room) ≤ length out.now }
{
    if out.len() - at < SPACE {
        let stop = flush(to, &out[0..at], counts);
        return in_hand(from, till, 0, ends, stop);
    }
    in_hand(from, till, at, ends, 0)
}

// What is gathered is written, since a read may wait, and more octets are read.
fn wait(
    file: &mut Source,
    to: &mut Sink,
    buf: &mut [u8],
    from: usize,
    till: usize,
    ends: bool,
    gathered: &[u8],
    counts: &mut [u64; COUNTS],
) -> Hand
    requires from_le_till { from ≤ till }
    requires till_in_bounds { till ≤ length buf.old }
    ensures from_le_till_2 { result.from ≤ result.till }
    ensures till_in_bounds_2 { result.till ≤ length buf.old }
    ensures at_value { result.at ≡ 0 }
{
    let stop = flush(to, gathered, counts);
    if stop != 0 {
        return in_hand(from, till, 0, ends, stop);
    }
    refill(file, buf, from, till, counts)
}

// One step, and what it says is gathered; if it wants more octets, they are read.
fn turn(
    s: Settings,
    file: &mut Source,
    to: &mut Sink,
    store: &mut [u8],
    n: usize,
    zero: &[u8],
    buf: &mut [u8],
    from: usize,
    till: usize,
    ends: bool,
    out: &mut [u8],
    at: usize,
    counts: &mut [u64; COUNTS],
) -> Hand
    requires zero_value { zero.now ≡ zero_row (length zero.now) }
    requires store_value { gate s (length zero.now) store.old ≡ 0 }
    requires n_value { n ≡ count_in (length zero.now) store.old }
    requires room_in_bounds { at + (6 + room) ≤ length out.old }
    requires from_le_till { from ≤ till }
    requires till_in_bounds { till ≤ length buf.old }
    ensures store_after { gate s (length zero.now) store.new ≡ 0 }
    ensures n_value_2 { n ≡ count_in (length zero.now) store.new }
    ensures from_le_till_2 { result.from ≤ result.till }
    ensures till_in_bounds_2 { result.till ≤ length buf.old }
    ensures room_in_bounds_2 { result.at + (6 + room) ≤ length out.old }
{
    let d = steps::step_there(s, store, n, zero, &buf[from..till], ends, out, at);
    let used = d.used();
    let written = d.written();
    if let Done::More = d {
        return wait(file, to, buf, from, till, ends, &out[0..at], counts);
    }
    if used == 0 {
        return in_hand(from, till, at, ends, why(d));
    }
    counts::note(counts, d);
    gather(to, from + used, till, at + written, ends, out, counts)
}

// What is gathered at the end of a run is written too. Why it stopped.
fn last(to: &mut Sink, gathered: &[u8], stop: u8, counts: &mut [u64; COUNTS]) -> u8 {
    let other = flush(to, gathered, counts);
    if other != 0 {
        return other;
    }
    stop
}

// Steps until one stops, and why. A proved loop has to end, so it counts down from a number that no run uses up.
fn run(
    s: Settings,
    file: &mut Source,
    to: &mut Sink,
    store: &mut [u8],
    n: usize,
    zero: &[u8],
    buf: &mut [u8],
    out: &mut [u8],
    counts: &mut [u64; COUNTS],
) -> u8
    requires zero_value { zero.now ≡ zero_row (length zero.now) }
    requires store_value { gate s (length zero.now) store.old ≡ 0 }
    requires n_value { n ≡ count_in (length zero.now) store.old }
    requires room_in_bounds { 6 + room ≤ length out.old }
{
    let mut from: usize = 0;
    let mut till: usize = 0;
    let mut at: usize = 0;
    let mut ends = false;
    let mut turns = u64::MAX;
    while turns > 0 {
        let h = turn(
            s, file, to, store, n, zero, buf, from, till, ends, out, at, counts,
        );
        from = h.from;
        till = h.till;
        at = h.at;
        ends = h.ends;
        if h.stop != 0 {
            return last(to, &out[0..at], h.stop, counts);
        }
        turns -= 1;
    }
    say::NOT_READ
}

// Ends standard output. Why the run stopped.
fn closed(rt: HostRuntime, to: &mut Sink, stop: u8, counts: &[u64; COUNTS]) -> u8 {
    if output::close(rt, to, counts) {
        return stop;
    }
    say::NOT_WRITTEN
}

// The end of a run with n cells: its findings.
fn end(
    rt: HostRuntime,
    to: &mut Sink,
    s: Settings,
    store: &[u8],
    n: usize,
    counts: &mut [u64; COUNTS],
    stop: u8,
) {
    let left = tally::left(s, store);
    counts::add(counts, counts::SEGMENTS, left.segments as u64);
    counts::add(counts, counts::KEYS, left.keys as u64);
    counts::note_forgot(counts, tally::records(s, store) as u64);
    let because = closed(rt, to, stop, counts);
    if let Some(mut report) = report_made(rt) {
        say::findings(&mut report, s, counts, store, n, because);
    }
}

// Joins the recording that is open, under settings that are in range, with an empty store of n cells.
fn join_with(rt: HostRuntime, s: Settings, file: &mut Source, store: &mut [u8], n: usize)
    requires s_value { (begun s).refused ≡ 0 }
    requires le_n { (1 ≤ n) × (n ≤ cells_most) }
    requires store_value { store.old ≡ zeros cell_size n }
{
    let zero = [0u8; CELL];
    let mut buf = [0u8; WINDOW];
    let mut out = [0u8; GATHERED];
    let mut counts = [0u64; COUNTS];
    let mut to = files::output(rt);
    let stop = run(
        s,
        file,
        &mut to,
        store,
        n,
        &zero,
        &mut buf,
        &mut out,
        &mut counts,
    );
    end(rt, &mut to, s, store, n, &mut counts, stop);
}

// The same with the front of the largest store.
fn join(rt: HostRuntime, s: Settings, file: &mut Source, n: usize)
    requires s_value { (begun s).refused ≡ 0 }
    requires le_n { (1 ≤ n) × (n ≤ cells_most) }
{
    let mut store = [0u8; STORE];
    let long = n * CELL;
    join_with(rt, s, file, &mut store[0..long], n);
}

// A number, as large as a setting may be written.
fn bounded(n: u64) -> u64
    ensures { result ≤ 1000000 }
{
    if n < 1000000 {
        return n;
    }
    1000000
}

// The settings, as the third and the fourth argument name them. Whether they are in range is not tested here.
fn settings(rt: HostRuntime) -> Settings {
    let usual = recording::usual();
    let t = files::setting(rt, TIMESTAMP, bounded(usual.t as u64));
    let profile = files::setting(rt, PROFILE, bounded(usual.profile));
    Settings {
        t: t as usize,
        profile: profile,
    }
}

// How many cells the store has, as the fifth argument names it. Whether so many are allowed is not tested here.
fn cells_named(rt: HostRuntime) -> u64 {
    files::setting(rt, CELLS, bounded(recording::CELLS as u64))
}

fn opened(rt: HostRuntime) -> Option<Source> {
    let mut name = io::buffer();
    files::input(rt, RECORDING, &mut name)
}

fn report_made(rt: HostRuntime) -> Option<Sink> {
    let mut name = io::buffer();
    files::report(rt, REPORT, &mut name)
}

// Joins the recording that is named, with as many cells as are named.
fn start(rt: HostRuntime, s: Settings, n: u64)
    requires { (begun s).refused ≡ 0 }
{
    if n == 0 {
        say::no_store(n);
        return;
    }
    if (CELLS_MOST as u64) < n {
        say::no_store(n);
        return;
    }
    if let Some(mut file) = opened(rt) {
        join(rt, s, &mut file, n as usize);
    }
}

fn main(rt: HostRuntime) {
    let s = settings(rt);
    if let Err(refused) = s.check() {
        say::not_joined(refused.number());
        return;
    }
    start(rt, s, cells_named(rt));
}
