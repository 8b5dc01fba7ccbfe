// The carrying program: takes the messages of a file to the survey office's PDUs, or PDUs to messages, and writes them to standard output.
//
//   carry_messages WAY T PROFILE ENCODING TYPE APID SECONDARY QUALIFIER [FILE [REPORT]]
//
// WAY is 0 to the office, 1 back. T and PROFILE are the settings, ENCODING the encoding id for the way there; TYPE, APID, SECONDARY and
// QUALIFIER are what a packet says and a PDU does not, for the way back. FILE is a file, or standard input if it is `-` or not named: messages as
// joining writes them, each after its mark and length, or PDUs one after the other. The octets in hand stand in a window; what is carried
// is gathered and written together: before each read, since it may wait, and if the next one might find no room. What can't be carried is
// counted by its refusal, and so is what is longer than the window, which is passed over. It stops where no message or PDU begins, or if
// one is torn off. A failed read or write is told on standard error. A program has no exit status, so at the end its findings go to the
// new file REPORT, or to standard error if none is named.
//
// Proved here: the program is safe and ends. Module frame says where a message or PDU ends, counts has the numbers of the findings, say
// tells them. What is written of a message or PDU is crate `carry`.
#![tactic(auto)]

mod counts;
mod frame;
mod say;

ghost use Rattle.std.specs.Prelude.{◌≡◌, ◌+◌, ◌≤◌, length};

use carry::Route;
use counts::COUNTS;
use files::{Sink, Source};
use frame::{Frame, HEAD};
use packet::{Apid, SecondaryApid};
use walk::Settings;

// The program's arguments.
const WAY: usize = 1;

const TIMESTAMP: usize = 2;

const PROFILE: usize = 3;

const ENCODING: usize = 4;

const TYPE: usize = 5;

const APID: usize = 6;

const SECONDARY: usize = 7;

const QUALIFIER: usize = 8;

const FILE: usize = 9;

const REPORT: usize = 10;

// The window, and what is gathered of it; a header may grow by less than SLACK on its way.
const WINDOW: usize = 2097152;

const GATHERED: usize = 2101248;

const SLACK: usize = 2048;

// A message's mark, `4D 4D`.
const MARK: u64 = 19789;

const IDENTIFICATION: u64 = 2;

// Which way, and what it wants.
#[derive(Clone, Copy)]
struct Job {
    is_back: bool,
    settings: Settings,
    encoding: u16,
    route: Route,
}

// The octets in hand, from a place of the window up to another; how many octets are gathered; how many are passed over next; whether the
// file ends with those in hand; why it stops, 0 if it goes on.
#[derive(Clone, Copy)]
struct Hand {
    from: usize,
    till: usize,
    at: usize,
    skip: usize,
    ends: bool,
    stop: u8,
}

fn in_hand(from: usize, till: usize, at: usize, skip: usize, ends: bool, stop: u8) -> Hand
    ensures from_value { result.from ≡ from }
    ensures till_value { result.till ≡ till }
    ensures at_value { result.at ≡ at }
{
    Hand {
        from: from,
        till: till,
        at: at,
        skip: skip,
        ends: ends,
        stop: stop,
    }
}

// The lesser of two.
fn least(a: usize, b: usize) -> usize
    ensures upper_bound { result ≤ a }
    ensures upper_bound_2 { result ≤ b }
{
    if a < b {
        return a;
    }
    b
}

// The place n octets on, or the end if it comes first.
fn onward(at: usize, n: usize, end: usize) -> usize
    requires { at ≤ end }
    ensures { result ≤ end }
{
    if n < end - at {
        return at + n;
    }
    end
}

// ---- writing

// Writes what is gathered. 0, or why it stops.
fn flush(to: &mut Sink, x: &[u8], counts: &mut [u64; COUNTS]) -> u8 {
    let n = files::write(to, x);
    files::add(counts, counts::WRITTEN, n as u64);
    if n == x.len() {
        return 0;
    }
    files::failed(
        files::why(to),
        b"writing failed after octet ",
        files::at(counts, counts::WRITTEN),
    );
    say::NOT_WRITTEN
}

// ---- reading

// Counts the octets read. 0, or why it stops.
fn took(file: &Source, got: isize, n: usize, counts: &mut [u64; COUNTS]) -> u8 {
    if files::took(file, got, n, counts, counts::READ) {
        return 0;
    }
    say::NOT_READ
}

// More octets after those in hand. The file ends if none come.
fn refill(
    file: &mut Source,
    buf: &mut [u8],
    from: usize,
    till: usize,
    skip: usize,
    counts: &mut [u64; COUNTS],
) -> Hand
    requires from_le_till { from ≤ till }
    requires till_in_bounds { till ≤ length buf.old }
    ensures from_le_till_2 { result.from ≤ result.till }
    ensures till_in_bounds_2 { result.till ≤ length buf.old }
    ensures at_value { result.at ≡ 0 }
{
    files::front(buf, from, till);
    let had = till - from;
    let whole = buf.len();
    let space = &mut buf[had..whole];
    let got = files::read(file, space);
    let n = io::count(got, space);
    let stop = took(file, got, n, counts);
    in_hand(0, had + n, 0, skip, n == 0, stop)
}

// What is gathered is written, since a read may wait, and more octets are read.
fn wait(
    file: &mut Source,
    to: &mut Sink,
    buf: &mut [u8],
    from: usize,
    till: usize,
    skip: usize,
    ends: bool,
    gathered: &[u8],
    counts: &mut [u64; COUNTS],
) -> Hand
    requires from_le_till { from ≤ till }
    requires till_in_bounds { till ≤ length buf.old }
    ensures from_le_till_2 { result.from ≤ result.till }
    ensures till_in_bounds_2 { result.till ≤ length buf.old }
    ensures at_value { result.at ≡ 0 }
{
    let stop = flush(to, gathered, counts);
    if stop != 0 {
        return in_hand(from, till, 0, skip, ends, stop);
    }
    refill(file, buf, from, till, skip, counts)
}

// ---- carrying

// A message goes to the office: the place after what is gathered then.
fn carry_there(j: Job, m: &[u8], out: &mut [u8], at: usize, counts: &mut [u64; COUNTS]) -> usize
    requires { at ≤ length out.old }
    ensures { result ≤ length out.old }
{
    let whole = out.len();
    let r = carry::to_pdu(j.settings, m, j.encoding, &mut out[at..whole]);
    let refusal = r.refusal;
    if refusal.number != 0 {
        counts::refused(counts, refusal.number);
        return at;
    }
    files::add(counts, counts::CARRIED, 1);
    onward(at, r.length, whole)
}

// A PDU comes back, as a message after its mark and length.
fn carry_back(j: Job, p: &[u8], out: &mut [u8], at: usize, counts: &mut [u64; COUNTS]) -> usize
    requires { at ≤ length out.old }
    ensures { result ≤ length out.old }
{
    let whole = out.len();
    let from = onward(at, HEAD, whole);
    let r = carry::to_message(j.settings, p, j.route, &mut out[from..whole]);
    let refusal = r.refusal;
    if refusal.number != 0 {
        counts::refused(counts, refusal.number);
        return at;
    }
    files::add(counts, counts::CARRIED, 1);
    let n = files::sum(IDENTIFICATION, files::sum(r.header as u64, r.body as u64));
    let after_mark = octets::lay_number(out, at, 2, MARK);
    octets::lay_number(out, after_mark, 4, n);
    onward(from, n as usize, whole)
}

fn carry_one(j: Job, x: &[u8], out: &mut [u8], at: usize, counts: &mut [u64; COUNTS]) -> usize
    requires { at ≤ length out.old }
    ensures { result ≤ length out.old }
{
    if j.is_back {
        return carry_back(j, x, out, at, counts);
    }
    carry_there(j, x, out, at, counts)
}

// ---- the run

fn frame_at(is_back: bool, y: &[u8], ends: bool) -> Frame
    ensures head_le_used { result.head ≤ result.used }
    ensures used_in_bounds { result.used ≤ length y.now }
{
    if is_back {
        return frame::pdu(y, WINDOW, ends);
    }
    frame::message(y, WINDOW, ends)
}

// Why nothing more can be carried.
fn why(what: u8) -> u8 {
    if what == frame::ENDED {
        return say::ENDED;
    }
    if what == frame::UNMARKED {
        return say::UNMARKED;
    }
    say::TORN
}

// What is gathered, up to a place; why it stops, 0 if it goes on.
#[derive(Clone, Copy)]
struct Gathered {
    at: usize,
    stop: u8,
}

fn gathered_to(at: usize, stop: u8) -> Gathered
    ensures { result.at ≡ at }
{
    Gathered { at: at, stop: stop }
}

// Whether n octets may be carried into so much room.
fn has_room(room: usize, n: usize) -> bool {
    if room < SLACK {
        return false;
    }
    n <= room - SLACK
}

// What is gathered is written if n octets might find no room after it.
fn make_room(to: &mut Sink, n: usize, out: &[u8], at: usize, counts: &mut [u64; COUNTS]) -> Gathered
    requires { at ≤ length out.now }
    ensures { result.at ≤ length out.now }
{
    if has_room(out.len() - at, n) {
        return gathered_to(at, 0);
    }
    let stop = flush(to, &out[0..at], counts);
    gathered_to(0, stop)
}

// One message or PDU is carried, after those that are gathered. `used` octets are used up then.
fn send(
    j: Job,
    to: &mut Sink,
    x: &[u8],
    used: usize,
    out: &mut [u8],
    at: usize,
    counts: &mut [u64; COUNTS],
) -> Gathered
    requires { at ≤ length out.old }
    ensures { result.at ≤ length out.old }
{
    let g = make_room(to, x.len(), out, at, counts);
    if g.stop != 0 {
        return g;
    }
    files::add(counts, counts::SEEN, 1);
    let next = carry_one(j, x, out, g.at, counts);
    files::add(counts, counts::USED, used as u64);
    gathered_to(next, 0)
}

// Octets of a message or PDU longer than the window are passed over.
fn pass(
    file: &mut Source,
    to: &mut Sink,
    buf: &mut [u8],
    from: usize,
    till: usize,
    skip: usize,
    ends: bool,
    out: &[u8],
    at: usize,
    counts: &mut [u64; COUNTS],
) -> Hand
    requires from_le_till { from ≤ till }
    requires till_in_bounds { till ≤ length buf.old }
    requires at_in_bounds { at ≤ length out.now }
    ensures from_le_till_2 { result.from ≤ result.till }
    ensures till_in_bounds_2 { result.till ≤ length buf.old }
    ensures at_in_bounds_2 { result.at ≤ length out.now }
{
    let n = least(skip, till - from);
    files::add(counts, counts::USED, n as u64);
    if n == skip {
        return in_hand(from + n, till, at, 0, ends, 0);
    }
    if ends {
        return in_hand(from + n, till, at, 0, ends, say::TORN);
    }
    wait(
        file,
        to,
        buf,
        from + n,
        till,
        skip - n,
        ends,
        &out[0..at],
        counts,
    )
}

// What stands at the front of the octets in hand is carried; if more octets are wanted, they are read.
fn take(
    j: Job,
    file: &mut Source,
    to: &mut Sink,
    buf: &mut [u8],
    from: usize,
    till: usize,
    ends: bool,
    out: &mut [u8],
    at: usize,
    counts: &mut [u64; COUNTS],
) -> Hand
    requires from_le_till { from ≤ till }
    requires till_in_bounds { till ≤ length buf.old }
    requires at_in_bounds { at ≤ length out.old }
    ensures from_le_till_2 { result.from ≤ result.till }
    ensures till_in_bounds_2 { result.till ≤ length buf.old }
    ensures at_in_bounds_2 { result.at ≤ length out.old }
{
    let y = &buf[from..till];
    let f = frame_at(j.is_back, y, ends);
    let what = f.what;
    let head = f.head;
    let used = f.used;
    if what == frame::WHOLE {
        let g = send(j, to, &y[head..used], used, out, at, counts);
        return in_hand(from + used, till, g.at, 0, ends, g.stop);
    }
    if what == frame::MORE {
        return wait(file, to, buf, from, till, 0, ends, &out[0..at], counts);
    }
    if what == frame::LONG {
        files::add(counts, counts::SEEN, 1);
        counts::refused(counts, 0);
        return in_hand(from, till, at, f.long, ends, 0);
    }
    in_hand(from, till, at, 0, ends, why(what))
}

// What is left of one that is too long is passed over, or the next one is taken.
fn turn(
    j: Job,
    file: &mut Source,
    to: &mut Sink,
    buf: &mut [u8],
    from: usize,
    till: usize,
    skip: usize,
    ends: bool,
    out: &mut [u8],
    at: usize,
    counts: &mut [u64; COUNTS],
) -> Hand
    requires from_le_till { from ≤ till }
    requires till_in_bounds { till ≤ length buf.old }
    requires at_in_bounds { at ≤ length out.old }
    ensures from_le_till_2 { result.from ≤ result.till }
    ensures till_in_bounds_2 { result.till ≤ length buf.old }
    ensures at_in_bounds_2 { result.at ≤ length out.old }
{
    if skip > 0 {
        return pass(file, to, buf, from, till, skip, ends, out, at, counts);
    }
    take(j, file, to, buf, from, till, ends, out, at, counts)
}

// What is gathered at the end of a run is written too. Why it stopped.
fn last(to: &mut Sink, gathered: &[u8], stop: u8, counts: &mut [u64; COUNTS]) -> u8 {
    let other = flush(to, gathered, counts);
    if other != 0 {
        return other;
    }
    stop
}

// Turns until one stops, and why. A proved loop has to end, so it counts down from a number that no run uses up.
fn run(
    j: Job,
    file: &mut Source,
    to: &mut Sink,
    buf: &mut [u8],
    out: &mut [u8],
    counts: &mut [u64; COUNTS],
) -> u8 {
    let mut from: usize = 0;
    let mut till: usize = 0;
    let mut at: usize = 0;
    let mut skip: usize = 0;
    let mut ends = false;
    let mut turns = u64::MAX;
    while turns > 0 {
        let h = turn(j, file, to, buf, from, till, skip, ends, out, at, counts);
        from = h.from;
        till = h.till;
        at = h.at;
        skip = h.skip;
        ends = h.ends;
        if h.stop != 0 {
            return last(to, &out[0..at], h.stop, counts);
        }
        turns -= 1;
    }
    say::NOT_READ
}

// Ends standard output: a full disk may show only now. Why the run stopped.
fn closed(rt: HostRuntime, to: &mut Sink, stop: u8, counts: &[u64; COUNTS]) -> u8 {
    if files::finish(rt, to) {
        return stop;
    }
    files::failed(
        files::why(to),
        b"writing failed after octet ",
        files::at(counts, counts::WRITTEN),
    );
    say::NOT_WRITTEN
}

// ---- the arguments

// A number of eight, sixteen or thirty-two bits, the largest for one that has more: no value is so large.
fn octet(n: u64) -> u8 {
    if n < 255 {
        return n as u8;
    }
    255
}

fn short(n: u64) -> u16 {
    if n < 65535 {
        return n as u16;
    }
    65535
}

fn word(n: u64) -> u32 {
    if n < 4294967295 {
        return n as u32;
    }
    4294967295
}

fn told_route(rt: HostRuntime) -> Route {
    let packet_type = octet(files::setting(rt, TYPE, 0));
    let apid = Apid(short(files::setting(rt, APID, 0)));
    let secondary_apid = SecondaryApid(short(files::setting(rt, SECONDARY, 0)));
    let qualifier = word(files::setting(rt, QUALIFIER, 0));
    Route {
        packet_type: packet_type,
        apid: apid,
        secondary_apid: secondary_apid,
        qualifier: qualifier,
    }
}

fn told_job(rt: HostRuntime) -> Job {
    let is_back = files::setting(rt, WAY, 0) != 0;
    let t = files::setting(rt, TIMESTAMP, 0);
    let profile = files::setting(rt, PROFILE, 0);
    let encoding = short(files::setting(rt, ENCODING, 0));
    let settings = Settings {
        t: t as usize,
        profile: profile,
    };
    let route = told_route(rt);
    Job {
        is_back: is_back,
        settings: settings,
        encoding: encoding,
        route: route,
    }
}

// Carries the file that is open.
fn carry_from(rt: HostRuntime, file: &mut Source) {
    let j = told_job(rt);
    let mut to = files::output(rt);
    let mut buf = [0u8; WINDOW];
    let mut out = [0u8; GATHERED];
    let mut counts = [0u64; COUNTS];
    let stop = run(j, file, &mut to, &mut buf, &mut out, &mut counts);
    let because = closed(rt, &mut to, stop, &counts);
    if let Some(mut report) = report_made(rt) {
        say::findings(&mut report, &counts, because);
    }
}

fn opened(rt: HostRuntime) -> Option<Source> {
    let mut name = io::buffer();
    files::input(rt, FILE, &mut name)
}

fn report_made(rt: HostRuntime) -> Option<Sink> {
    let mut name = io::buffer();
    files::report(rt, REPORT, &mut name)
}

fn main(rt: HostRuntime) {
    if let Some(mut file) = opened(rt) {
        carry_from(rt, &mut file);
    }
}
