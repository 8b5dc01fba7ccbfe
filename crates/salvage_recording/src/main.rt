// The salvaging program: lists what is kept of a recording and what is skipped, and writes the kept packets with their marks.
//
//   salvage_recording T PROFILE LIST OUTPUT PIPE [RECORDING [REPORT]]
//
// T is the octets of a timestamp, PROFILE 0 for Varints or 1 for four octets. LIST, OUTPUT and PIPE are descriptors, 0 for none: the list goes to LIST, the kept packets
// to OUTPUT and to PIPE. The recording is a file, or standard input if it is `-` or not named. The octets in hand stand in a window;
// `salvage::salvage_part` says what is kept of them and what is skipped. It tests a place only if the longest packet would lie in the window
// after it, or if the recording ends there; if it wants more, what is left goes to the window's front and more is read after it. What a
// call lists is written before the next read, since that may wait. A failed read or write is told on standard error, but for PIPE, whose
// reader tells why it went. A program has no exit status, so at the end its findings go to the new file REPORT, or to standard error if
// none is named.
//
// Proved here: the program is safe and ends. Module counts has the numbers of the findings, say tells them. What is written of an entry is
// crate `entries`.
#![tactic(auto)]

mod counts;
mod say;

ghost use Rattle.std.specs.Prelude.{◌≡◌, ◌*◌, ◌≤◌, length};

use counts::COUNTS;
use entries::LINE;
use files::{Sink, Source};
use salvage::{Entry, Kind, Part, Salvaged, Stop};
use walk::Settings;

// The program's arguments: T and the profile; the descriptors of the list, of the kept packets and of a pipe that takes these too; the
// recording, and the file for the findings.
const TIMESTAMP: usize = 1;

const PROFILE: usize = 2;

const LIST: usize = 3;

const OUTPUT: usize = 4;

const PIPE: usize = 5;

const RECORDING: usize = 6;

const REPORT: usize = 7;

// Standard error's descriptor.
const ERROR: u64 = 2;

// The window: more than a mark and the longest packet.
const WINDOW: usize = 524288;

// The entries of one call, and their numbers.
const ENTRIES: usize = 1024;

const NUMBERS: usize = 3072;

// The lines that are gathered, and the packets: more than a mark and the longest.
const LINES: usize = 32768;

const PACKETS: usize = 131072;

// Where things go, the pipe as a descriptor, 0 for nowhere; whether the list goes where the packets go; whether the list, and whether the
// packets, go where the pipe does, which is ended first; whether standard error is ended with the pipe, with what is ended before the
// output, and with any of them.
#[derive(Drop)]
struct Sinks {
    list: Sink,
    output: Sink,
    pipe: i32,
    is_one: bool,
    list_ends: bool,
    output_ends: bool,
    pipe_mutes: bool,
    list_mutes: bool,
    error_ends: bool,
}

// The octets in hand, from a place of the window up to another; the place in the recording of the first, which is tested next, and where the
// open stretch begins; whether the recording ends with those in hand; why it stops, 0 if it goes on.
#[derive(Clone, Copy)]
struct Hand {
    from: usize,
    till: usize,
    off: usize,
    begin: usize,
    ends: bool,
    stop: u8,
}

fn in_hand(from: usize, till: usize, off: usize, begin: usize, ends: bool, stop: u8) -> Hand
    ensures from_value { result.from ≡ from }
    ensures till_value { result.till ≡ till }
{
    Hand {
        from: from,
        till: till,
        off: off,
        begin: begin,
        ends: ends,
        stop: stop,
    }
}

// The lesser of two.
fn least(a: usize, b: usize) -> usize
    ensures upper_bound { result ≤ a }
    ensures upper_bound_2 { result ≤ b }
{
    if a < b {
        return a;
    }
    b
}

// ---- what is written

// Lines or packets that are gathered, up to a place; why it stops, 0 if it goes on.
#[derive(Clone, Copy)]
struct Gathered {
    at: usize,
    stop: u8,
}

fn gathered_to(at: usize, stop: u8) -> Gathered
    ensures { result.at ≡ at }
{
    Gathered { at: at, stop: stop }
}

// Writes a part of the list. 0, or why it stops.
fn flush_list(list: &mut Sink, x: &[u8], counts: &mut [u64; COUNTS]) -> u8 {
    let n = files::write(list, x);
    counts::add(counts, counts::LISTED, n as u64);
    if n == x.len() {
        return 0;
    }
    files::failed(
        files::why(list),
        b"writing the list failed after octet ",
        counts::at(counts, counts::LISTED),
    );
    say::NOT_LISTED
}

// Writes packets to the output.
fn flush_output(output: &mut Sink, x: &[u8], counts: &mut [u64; COUNTS]) -> u8 {
    if files::is_nowhere(output) {
        return 0;
    }
    let n = files::write(output, x);
    counts::add(counts, counts::WRITTEN, n as u64);
    if n == x.len() {
        return 0;
    }
    files::failed(
        files::why(output),
        b"writing failed after octet ",
        counts::at(counts, counts::WRITTEN),
    );
    say::NOT_WRITTEN
}

// Writes packets to the pipe.
fn flush_pipe(fd: i32, x: &[u8]) -> u8 {
    if fd == 0 {
        return 0;
    }
    if io::write_all(fd, x) {
        return 0;
    }
    say::NOT_PIPED
}

// Writes packets to both.
fn flush_packets(output: &mut Sink, pipe: i32, x: &[u8], counts: &mut [u64; COUNTS]) -> u8 {
    let stop = flush_output(output, x, counts);
    if stop != 0 {
        return stop;
    }
    flush_pipe(pipe, x)
}

// One more line after those that are gathered; they are written if the longest line would find no room after it.
fn add_line(
    to: &mut Sink,
    lines: &mut [u8],
    at: usize,
    part: Part,
    entry: Entry,
    counts: &mut [u64; COUNTS],
) -> Gathered
    requires { at ≤ length lines.old }
    ensures { result.at ≤ length lines.old }
{
    let next = entries::put_line(
        lines,
        at,
        part,
        entry.kind.number(),
        entry.place,
        entry.long,
    );
    if lines.len() - next < LINE {
        let stop = flush_list(to, &lines[0..next], counts);
        return gathered_to(0, stop);
    }
    gathered_to(next, 0)
}

// One more packet after those that are gathered; they are written first if it would find no room.
fn add_packet(
    output: &mut Sink,
    pipe: i32,
    packets: &mut [u8],
    at: usize,
    x: &[u8],
    counts: &mut [u64; COUNTS],
) -> Gathered
    requires { at ≤ length packets.old }
    ensures { result.at ≤ length packets.old }
{
    if packets.len() - at < x.len() {
        let stop = flush_packets(output, pipe, &packets[0..at], counts);
        return gathered_to(octets::lay(packets, 0, x), stop);
    }
    gathered_to(octets::lay(packets, at, x), 0)
}

// The lines of n entries. 0, or why it stops.
fn write_lines(
    to: &mut Sink,
    lines: &mut [u8],
    part: Part,
    list: &[u64],
    n: usize,
    counts: &mut [u64; COUNTS],
) -> u8
    requires { n * 3 ≤ length list.now }
{
    let mut at: usize = 0;
    let mut i: usize = 0;
    while i < n {
        let g = add_line(to, lines, at, part, Entry::at(list, i), counts);
        at = g.at;
        if g.stop != 0 {
            return g.stop;
        }
        i += 1;
    }
    flush_list(to, &lines[0..at], counts)
}

// The packets of n entries.
fn write_packets(
    output: &mut Sink,
    pipe: i32,
    packets: &mut [u8],
    part: Part,
    list: &[u64],
    n: usize,
    counts: &mut [u64; COUNTS],
) -> u8
    requires { n * 3 ≤ length list.now }
{
    let mut at: usize = 0;
    let mut i: usize = 0;
    while i < n {
        let entry = Entry::at(list, i);
        let x = entries::kept_in(part, entry.kind.number(), entry.place, entry.long);
        let g = add_packet(output, pipe, packets, at, x, counts);
        at = g.at;
        if g.stop != 0 {
            return g.stop;
        }
        i += 1;
    }
    flush_packets(output, pipe, &packets[0..at], counts)
}

// Counts an entry.
fn note(entry: Entry, counts: &mut [u64; COUNTS]) {
    match entry.kind {
        Kind::Kept => {
            counts::add(counts, counts::PACKETS, 1);
            counts::add(counts, counts::KEPT, entry.long as u64);
        }
        Kind::Skipped => {
            counts::add(counts, counts::STRETCHES, 1);
            counts::add(counts, counts::SKIPPED, entry.long as u64);
        }
    }
}

fn note_all(list: &[u64], n: usize, counts: &mut [u64; COUNTS])
    requires { n * 3 ≤ length list.now }
{
    let mut i: usize = 0;
    while i < n {
        note(Entry::at(list, i), counts);
        i += 1;
    }
}

fn tell_list(to: &mut Sink, part: Part, list: &[u64], n: usize, counts: &mut [u64; COUNTS]) -> u8
    requires { n * 3 ≤ length list.now }
{
    if files::is_nowhere(to) {
        return 0;
    }
    let mut lines = [0u8; LINES];
    write_lines(to, &mut lines, part, list, n, counts)
}

fn tell_packets(
    output: &mut Sink,
    pipe: i32,
    part: Part,
    list: &[u64],
    n: usize,
    counts: &mut [u64; COUNTS],
) -> u8
    requires { n * 3 ≤ length list.now }
{
    if octets::both(files::is_nowhere(output), pipe == 0) {
        return 0;
    }
    let mut packets = [0u8; PACKETS];
    write_packets(output, pipe, &mut packets, part, list, n, counts)
}

// Counts and writes n entries that were listed of the octets in hand. 0, or why it stops.
fn tell(to: &mut Sinks, part: Part, list: &[u64], n: usize, counts: &mut [u64; COUNTS]) -> u8
    requires { n * 3 ≤ length list.now }
{
    note_all(list, n, counts);
    let stop = tell_list(&mut to.list, part, list, n, counts);
    if stop != 0 {
        return stop;
    }
    tell_packets(&mut to.output, to.pipe, part, list, n, counts)
}

// The header of the list.
fn head(to: &mut Sink, counts: &mut [u64; COUNTS]) -> u8 {
    if files::is_nowhere(to) {
        return 0;
    }
    flush_list(
        to,
        b"kind,place,length,apid,transaction,flags,counter\n",
        counts,
    )
}

// ---- what is read

// Counts the octets read. 0, or why it stops.
fn took(file: &Source, got: isize, n: usize, counts: &mut [u64; COUNTS]) -> u8 {
    if files::took(file, got, n, counts, counts::READ) {
        return 0;
    }
    say::NOT_READ
}

// More octets after those in hand. The recording ends if none come.
fn refill(
    file: &mut Source,
    buf: &mut [u8],
    from: usize,
    till: usize,
    off: usize,
    begin: usize,
    counts: &mut [u64; COUNTS],
) -> Hand
    requires from_le_till { from ≤ till }
    requires till_in_bounds { till ≤ length buf.old }
    ensures from_le_till_2 { result.from ≤ result.till }
    ensures till_in_bounds_2 { result.till ≤ length buf.old }
{
    files::front(buf, from, till);
    let had = till - from;
    let whole = buf.len();
    let space = &mut buf[had..whole];
    let got = files::read(file, space);
    let n = io::count(got, space);
    let stop = took(file, got, n, counts);
    in_hand(0, had + n, off, begin, n == 0, stop)
}

// ---- the run

// What is in hand after a call that listed n entries and stopped at a place: if it listed none, more octets are read.
fn after(
    file: &mut Source,
    buf: &mut [u8],
    from: usize,
    till: usize,
    off: usize,
    ends: bool,
    r: Salvaged,
    counts: &mut [u64; COUNTS],
) -> Hand
    requires from_le_till { from ≤ till }
    requires till_in_bounds { till ≤ length buf.old }
    ensures from_le_till_2 { result.from ≤ result.till }
    ensures till_in_bounds_2 { result.till ≤ length buf.old }
{
    let stop = r.stop;
    let next = from + least(octets::less(stop.place, off), till - from);
    if r.done {
        return in_hand(next, till, stop.place, stop.begin, ends, say::ENDED);
    }
    if r.entries == 0 {
        return refill(file, buf, next, till, stop.place, stop.begin, counts);
    }
    in_hand(next, till, stop.place, stop.begin, ends, 0)
}

// One call over the octets in hand, and what follows from it.
fn turn(
    s: Settings,
    to: &mut Sinks,
    file: &mut Source,
    buf: &mut [u8],
    from: usize,
    till: usize,
    off: usize,
    begin: usize,
    ends: bool,
    counts: &mut [u64; COUNTS],
) -> Hand
    requires from_le_till { from ≤ till }
    requires till_in_bounds { till ≤ length buf.old }
    ensures from_le_till_2 { result.from ≤ result.till }
    ensures till_in_bounds_2 { result.till ≤ length buf.old }
{
    let mut list = [0u64; NUMBERS];
    let part = Part {
        octets: &buf[from..till],
        off: off,
        ends: ends,
    };
    let first = Stop {
        begin: begin,
        place: off,
    };
    match salvage::salvage_part(s, part, first, usize::MAX, &mut list) {
        Err(refused) => in_hand(from, till, off, begin, ends, refused.number()),
        Ok(told) => {
            let stop = tell(to, part, &list, least(told.entries, ENTRIES), counts);
            if stop != 0 {
                return in_hand(from, till, off, begin, ends, stop);
            }
            after(file, buf, from, till, off, ends, told, counts)
        }
    }
}

// Calls until one stops, and why. A proved loop has to end, so it counts down from a number that no run uses up.
fn run(
    s: Settings,
    to: &mut Sinks,
    file: &mut Source,
    buf: &mut [u8],
    counts: &mut [u64; COUNTS],
) -> u8 {
    let mut from: usize = 0;
    let mut till: usize = 0;
    let mut off: usize = 0;
    let mut begin: usize = 0;
    let mut ends = false;
    let mut turns = u64::MAX;
    while turns > 0 {
        let h = turn(s, to, file, buf, from, till, off, begin, ends, counts);
        from = h.from;
        till = h.till;
        off = h.off;
        begin = h.begin;
        ends = h.ends;
        if h.stop != 0 {
            return h.stop;
        }
        turns -= 1;
    }
    say::NOT_READ
}

// ---- the end

// Ends what was written: a full disk may show only now. Whether it went well, which it does not if it has been ended already.
fn close(rt: HostRuntime, to: &mut Sink, is_ended: bool) -> bool {
    if files::is_nowhere(to) {
        return true;
    }
    if is_ended {
        files::finish_again(to);
        return false;
    }
    files::finish(rt, to)
}

// Ends the list, unless the packets go there too.
fn close_list(rt: HostRuntime, to: &mut Sinks, counts: &[u64; COUNTS], stop: u8) -> u8 {
    if to.is_one {
        return stop;
    }
    if close(rt, &mut to.list, to.list_ends) {
        return stop;
    }
    if !to.pipe_mutes {
        files::failed(
            files::why(&to.list),
            b"writing the list failed after octet ",
            counts::at(counts, counts::LISTED),
        );
    }
    say::NOT_LISTED
}

fn close_output(rt: HostRuntime, to: &mut Sinks, counts: &[u64; COUNTS], stop: u8) -> u8 {
    if close(rt, &mut to.output, to.output_ends) {
        return stop;
    }
    if !to.list_mutes {
        files::failed(
            files::why(&to.output),
            b"writing failed after octet ",
            counts::at(counts, counts::WRITTEN),
        );
    }
    say::NOT_WRITTEN
}

// Whether the findings go to standard error, which has been ended.
fn is_unheard(to: &Sinks, report: &Sink) -> bool {
    if to.error_ends {
        return files::is_error(report);
    }
    false
}

// The end of a run: its findings.
fn end(rt: HostRuntime, to: &mut Sinks, counts: &[u64; COUNTS], stop: u8) {
    let listed = close_list(rt, to, counts, stop);
    let because = close_output(rt, to, counts, listed);
    if let Some(mut report) = report_made(rt) {
        if !is_unheard(to, &report) {
            say::findings(&mut report, counts, because);
        }
    }
}

// ---- the arguments

// T and the profile as they are given; the call tests them.
fn settings(rt: HostRuntime) -> Settings {
    let t = files::setting(rt, TIMESTAMP, 0);
    let profile = files::setting(rt, PROFILE, 0);
    Settings {
        t: t as usize,
        profile: profile,
    }
}

// Whether two descriptors are one, and not 0.
fn are_one(a: u64, b: u64) -> bool {
    if a == 0 {
        return false;
    }
    a == b
}

fn told_sinks(rt: HostRuntime) -> Sinks {
    let list = files::setting(rt, LIST, 0);
    let output = files::setting(rt, OUTPUT, 0);
    let pipe = files::setting(rt, PIPE, 0);
    Sinks {
        list: files::numbered(rt, list),
        output: files::numbered(rt, output),
        pipe: files::descriptor(pipe),
        is_one: list == output,
        list_ends: are_one(pipe, list),
        output_ends: are_one(pipe, output),
        pipe_mutes: pipe == ERROR,
        list_mutes: octets::either(pipe == ERROR, octets::both(list == ERROR, list != output)),
        error_ends: octets::either(
            octets::either(list == ERROR, output == ERROR),
            pipe == ERROR,
        ),
    }
}

// Salvages the recording that is open.
fn salvage_from(rt: HostRuntime, file: &mut Source) {
    let s = settings(rt);
    let mut to = told_sinks(rt);
    let mut buf = [0u8; WINDOW];
    let mut counts = [0u64; COUNTS];
    let stop = head(&mut to.list, &mut counts);
    if stop != 0 {
        end(rt, &mut to, &counts, stop);
        return;
    }
    let because = run(s, &mut to, file, &mut buf, &mut counts);
    end(rt, &mut to, &counts, because);
}

fn opened(rt: HostRuntime) -> Option<Source> {
    let mut name = io::buffer();
    files::input(rt, RECORDING, &mut name)
}

fn report_made(rt: HostRuntime) -> Option<Sink> {
    let mut name = io::buffer();
    files::report(rt, REPORT, &mut name)
}

fn main(rt: HostRuntime) {
    if let Some(mut file) = opened(rt) {
        salvage_from(rt, &mut file);
    }
}
