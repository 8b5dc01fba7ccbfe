// What the programs do with files, arguments and words. A call that a signal interrupts is made again.
//
// Proved here: each function is safe and ends, and what is said of its answer. What a file holds is the system's.
#![tactic(auto)]

ghost use Rattle.std.specs.Prelude.{◌≡◌, ◌+◌, ◌-◌, ◌≤◌, length, get_or, IfOk, true, false, pos, Some};
ghost use Rattle.std.proofs.lemmas.List.Edits.{sets};
ghost use Rattle.octets.specs.Octets.{part};
ghost use Rattle.files.specs.Sinks.{goes_nowhere, goes_to_error, goes_to, why_of};

use std::env::{Env, FillError};
use std::fs::{File, Metadata, OpenOptions};
use std::io::{Cursor, IsTerminal, Read, Stderr, Stdin, Stdout, Write};
use std::os::fd::AsFd;
use std::os::unix::fs::{FileTypeExt, MetadataExt};

const OUTPUT: u64 = 1;

const ERROR: i32 = 2;

// The system's numbers of why a call failed: a signal came, the device failed, no such descriptor, not for this kind, no room, a disk that is
// only read, no reader, a name too long.
const INTERRUPTED: i32 = 4;

const DEVICE: i32 = 5;

const NOT_OPEN: i32 = 9;

const INVALID: i32 = 22;

const NO_ROOM: i32 = 28;

const READ_ALONE: i32 = 30;

const NO_READER: i32 = 32;

const TOO_LONG: i32 = 36;

// Progress is shown once in so many octets.
const STRIDE: u64 = 16777216;

const MEBI: u64 = 1048576;

const RETURN: u8 = 13;

const HYPHEN: u8 = 45;

const ZERO: u8 = 48;

const NINE: u8 = 57;

// The longest text of an error that is told.
const TEXT: usize = 128;

// The octets of ` (os error N)` but for the number.
const NUMBERED: usize = 12;

// A number that an argument writes and that is larger stands for this one, and so does a word that is no number: no setting is so large.
const MOST: u64 = 1000000;

// ---- where octets come from and go to

#[derive(Drop)]
enum Origin {
    Input(Stdin),
    Opened(File),
}

// Where octets come from: standard input, or a file that was opened. Why the last call that failed did; whether progress is shown, since
// standard error is a terminal.
#[derive(Drop)]
pub struct Source {
    from: Origin,
    why: i32,
    shows: bool,
}

#[derive(Drop)]
enum Target {
    Nowhere,
    Output(Stdout),
    Error(Stderr),
    Opened(File),
    Numbered(HostRuntime, u64),
}

// Where octets go to: nowhere, standard output, standard error, a file that was opened, or the descriptor of a number. Why the last call
// that failed did.
#[derive(Drop)]
pub struct Sink {
    to: Target,
    why: i32,
}

fn source_of(rt: HostRuntime, from: Origin) -> Source {
    Source {
        from: from,
        why: 0,
        shows: rt.stderr().is_terminal(),
    }
}

fn sink_of(to: Target) -> Sink
    ensures { result.to ≡ to }
{
    Sink { to: to, why: 0 }
}

pub fn output(rt: HostRuntime) -> Sink
    ensures { goes_to result ≡ Some 1 }
{
    sink_of(Target::Output(rt.stdout()))
}

pub fn error(rt: HostRuntime) -> Sink
    ensures { goes_to result ≡ Some 2 }
{
    sink_of(Target::Error(rt.stderr()))
}

// Whether what is written is dropped.
pub fn is_nowhere(to: &Sink) -> bool
    ensures { result ≡ goes_nowhere to.now }
{
    match &to.to {
        Target::Nowhere => true,
        _ => false,
    }
}

// Whether it is standard error.
pub fn is_error(to: &Sink) -> bool
    ensures { result ≡ goes_to_error to.now }
{
    match &to.to {
        Target::Error(_) => true,
        _ => false,
    }
}

// Ends what has been ended already, which fails.
pub fn finish_again(to: &mut Sink)
    ensures why { why_of to.new ≡ pos 9 }
    ensures kept { goes_to to.new ≡ goes_to to.old }
{
    to.why = NOT_OPEN;
}

// Why the last call failed.
pub fn why(to: &Sink) -> i32
    ensures { result ≡ why_of to.now }
{
    to.why
}

// The system's number of an error; one of the library's own is about a name.
fn number_of(e: std::io::Error) -> i32 {
    match e.raw_os_error() {
        Some(number) => number,
        None => INVALID,
    }
}

// ---- reading and writing

// Whether a call failed only because a signal came.
fn interrupted(got: isize, why: i32) -> bool {
    if got >= 0 {
        return false;
    }
    why == INTERRUPTED
}

// What one read answers: how many octets, -1 if it failed.
fn read_once(from: &mut Source, x: &mut [u8]) -> isize
    ensures { length x.new ≡ length x.old }
{
    let got = match &mut from.from {
        Origin::Input(f) => f.read(x),
        Origin::Opened(f) => f.read(x),
    };
    match got {
        Ok(n) => n as isize,
        Err(e) => {
            from.why = number_of(e);
            -1
        }
    }
}

// What a read answers. A proved loop has to end, so it counts down from a number that no run uses up; so do the others here.
pub fn read(from: &mut Source, x: &mut [u8]) -> isize
    ensures { length x.new ≡ length x.old }
{
    let mut tries = u64::MAX;
    while tries > 0 {
        let got = read_once(from, x);
        if !interrupted(got, from.why) {
            return got;
        }
        tries -= 1;
    }
    -1
}

// What one write answers.
fn write_once(to: &mut Sink, x: &[u8]) -> isize {
    let put = match &mut to.to {
        Target::Nowhere => Ok(x.len()),
        Target::Output(f) => f.write(x),
        Target::Error(f) => f.write(x),
        Target::Opened(f) => f.write(x),
        Target::Numbered(rt, n) => write_numbered(*rt, *n, x),
    };
    match put {
        Ok(n) => n as isize,
        Err(e) => {
            to.why = number_of(e);
            -1
        }
    }
}

// How many octets a write took; 0 if it failed.
fn write_some(to: &mut Sink, x: &[u8]) -> usize
    ensures { result ≤ length x.now }
{
    let mut tries = u64::MAX;
    while tries > 0 {
        let got = write_once(to, x);
        if !interrupted(got, to.why) {
            return io::count(got, x);
        }
        tries -= 1;
    }
    0
}

// How many octets of a slice were written: all, unless a write failed.
pub fn write(to: &mut Sink, x: &[u8]) -> usize
    ensures { result ≤ length x.now }
{
    let mut done: usize = 0;
    let whole = x.len();
    while done < whole {
        let n = write_some(to, &x[done..whole]);
        if n == 0 {
            return done;
        }
        done += n;
    }
    done
}

// ---- descriptors by their numbers

// The octets of a descriptor's name, with the longest number.
const LONGEST: usize = 28;

// What is no file is written in such blocks, each of which a pipe takes whole or not at all.
const BLOCK: usize = 4096;

// Lays the name of descriptor n, and says how many octets it has.
fn lay_name(n: u64, name: &mut [u8; LONGEST]) -> usize
    ensures { result ≤ 28 }
{
    let mut digits = [0u8; 20];
    let k = io::decimal(n, &mut digits);
    let at = octets::lay(name, 0, b"/dev/fd/");
    let end = octets::lay(name, at, &digits[..k]);
    if end < LONGEST {
        return end;
    }
    LONGEST
}

// A descriptor's number as the system takes it; -1, which none has, if it is too large.
pub fn descriptor(n: u64) -> i32
    ensures { n ≤ 2147483647 → result ≡ pos n }
{
    if n <= 2147483647 {
        return n as i32;
    }
    -1
}

// The octets of the file that a name leads to; none if it is no file.
fn file_length(rt: HostRuntime, name: &str) -> Option<u64> {
    match std::fs::metadata(&rt, name) {
        Ok(m) => {
            if m.is_file() {
                return Some(m.len());
            }
            None
        }
        Err(_) => None,
    }
}

// The same of descriptor n.
fn length_of(rt: HostRuntime, n: u64) -> Option<u64> {
    let mut name = [0u8; LONGEST];
    let k = lay_name(n, &mut name);
    match text_of(&name[..k]) {
        Some(text) => file_length(rt, text),
        None => None,
    }
}

// By how much a file grew, at most so much.
fn grown(before: u64, after: u64, most: usize) -> usize
    ensures { result ≤ most }
{
    if after <= before {
        return 0;
    }
    let k = after - before;
    if k < most as u64 {
        return k as usize;
    }
    most
}

// How many octets a file that had so many before took.
fn put_whole(rt: HostRuntime, n: u64, before: u64, x: &[u8]) -> usize
    ensures { result ≤ length x.now }
{
    if io::write_all(descriptor(n), x) {
        return x.len();
    }
    match length_of(rt, n) {
        Some(after) => grown(before, after, x.len()),
        None => 0,
    }
}

// How many octets what is no file took: a block, or none.
fn put_block(n: u64, x: &[u8]) -> usize
    ensures { result ≤ length x.now }
{
    let mut m = x.len();
    if BLOCK < m {
        m = BLOCK;
    }
    if io::write_all(descriptor(n), &x[..m]) {
        return m;
    }
    0
}

// How many octets descriptor n took.
fn put_numbered(rt: HostRuntime, n: u64, x: &[u8]) -> usize
    ensures { result ≤ length x.now }
{
    match length_of(rt, n) {
        Some(before) => put_whole(rt, n, before, x),
        None => put_block(n, x),
    }
}

// The same, or why it took none.
fn write_numbered(rt: HostRuntime, n: u64, x: &[u8]) -> std::io::Result<usize>
    ensures { IfOk result (λ k. k ≤ length x.now) }
{
    let put = put_numbered(rt, n, x);
    if put > 0 {
        return Ok(put);
    }
    Err(std::io::Error::from_raw_os_error(why_not(rt, n, x)))
}

// The name of a descriptor is a link with its own permissions: it may be written if the descriptor may.
fn may_be_written(rt: HostRuntime, name: &str) -> bool {
    match std::fs::symlink_metadata(&rt, name) {
        Ok(m) => !m.permissions().readonly(),
        Err(_) => false,
    }
}

// Why a file takes no more, asked by writing once more what it did not take. If that is taken now, it is given back.
fn asked(f: &mut File, x: &[u8]) -> i32 {
    let long = match f.metadata() {
        Ok(m) => m.len(),
        Err(e) => return number_of(e),
    };
    match f.write(x) {
        Ok(_) => {
            let _back = f.set_len(long);
            NO_ROOM
        }
        Err(e) => number_of(e),
    }
}

// The same of what has the name of a descriptor, which is opened once more.
fn asked_named(rt: HostRuntime, name: &str, x: &[u8]) -> i32 {
    match OpenOptions::new().append(true).open(&rt, name) {
        Ok(mut f) => asked(&mut f, x),
        Err(_) => NO_ROOM,
    }
}

// The device that is always full.
const FULL: u64 = 263;

// Why what is no file took nothing, as far as its kind tells. It is not opened: that could wait for ever, and what it takes can't be given back.
fn why_not_kind(m: &Metadata) -> i32 {
    let kind = m.file_type();
    if kind.is_fifo() {
        return NO_READER;
    }
    if kind.is_socket() {
        return NO_READER;
    }
    if kind.is_block_device() {
        return NO_ROOM;
    }
    if m.rdev() == FULL {
        return NO_ROOM;
    }
    DEVICE
}

// Why what has the name of a descriptor took nothing.
fn why_not_named(rt: HostRuntime, name: &str, x: &[u8]) -> i32 {
    if !may_be_written(rt, name) {
        return NOT_OPEN;
    }
    match std::fs::metadata(&rt, name) {
        Ok(m) => {
            if m.is_file() {
                return asked_named(rt, name, x);
            }
            why_not_kind(&m)
        }
        Err(_) => DEVICE,
    }
}

fn why_not(rt: HostRuntime, n: u64, x: &[u8]) -> i32 {
    let mut name = [0u8; LONGEST];
    let k = lay_name(n, &mut name);
    match text_of(&name[..k]) {
        Some(text) => why_not_named(rt, text, x),
        None => NOT_OPEN,
    }
}

// Where what is written to descriptor n goes: to nowhere if it is 0.
pub fn numbered(rt: HostRuntime, n: u64) -> Sink
    ensures { goes_to result ≡ Some n }
{
    if n == 0 {
        return sink_of(Target::Nowhere);
    }
    if n == OUTPUT {
        return output(rt);
    }
    if n == ERROR as u64 {
        return error(rt);
    }
    sink_of(Target::Numbered(rt, n))
}

// ---- the end of writing

// Why what was written can't be kept on a disk; 0 if it can, or if that is nothing to ask of it.
fn unkept_for(why: i32) -> i32 {
    if why == INVALID {
        return 0;
    }
    if why == READ_ALONE {
        return 0;
    }
    why
}

// The same of a file, if it is one.
fn unkept(f: &File) -> i32 {
    match f.metadata() {
        Ok(m) => {
            if !m.is_file() {
                return 0;
            }
        }
        Err(e) => return number_of(e),
    }
    match f.sync_data() {
        Ok(_) => 0,
        Err(e) => unkept_for(number_of(e)),
    }
}

// The same of what has the name of a descriptor, which is opened once more if it is a file. What may not be opened was written all the same.
fn unkept_named(rt: HostRuntime, name: &str) -> i32 {
    match file_length(rt, name) {
        Some(_) => match OpenOptions::new().write(true).open(&rt, name) {
            Ok(f) => unkept(&f),
            Err(_) => 0,
        },
        None => 0,
    }
}

// Whether the name of a descriptor is there. Where descriptors have no names, each is taken to be.
fn is_there(rt: HostRuntime, name: &str) -> bool {
    if std::fs::symlink_metadata(&rt, name).is_ok() {
        return true;
    }
    std::fs::metadata(&rt, "/dev/fd").is_err()
}

// The same of descriptor n.
fn unkept_numbered(rt: HostRuntime, n: u64) -> i32 {
    let mut name = [0u8; LONGEST];
    let k = lay_name(n, &mut name);
    match text_of(&name[..k]) {
        Some(text) => {
            if !is_there(rt, text) {
                return NOT_OPEN;
            }
            unkept_named(rt, text)
        }
        None => NOT_OPEN,
    }
}

// Whether a failed call says that its descriptor isn't open.
fn is_not_open(e: std::io::Error) -> bool {
    number_of(e) == NOT_OPEN
}

// The same of standard output.
fn unkept_output(rt: HostRuntime) -> i32 {
    if let Err(e) = rt.stdout().as_fd().try_clone_to_owned() {
        if is_not_open(e) {
            return NOT_OPEN;
        }
    }
    unkept_named(rt, "/dev/fd/1")
}

// The same of standard error, whose words are not kept for anyone.
fn unkept_error(rt: HostRuntime) -> i32 {
    if let Err(e) = rt.stderr().as_fd().try_clone_to_owned() {
        if is_not_open(e) {
            return NOT_OPEN;
        }
    }
    0
}

// Ends what was written: a full disk may show only now. Whether it went well.
pub fn finish(rt: HostRuntime, to: &mut Sink) -> bool
    ensures kept { goes_to to.new ≡ goes_to to.old }
    ensures nowhere { goes_nowhere to.old ≡ true → result ≡ true }
{
    let why = match &to.to {
        Target::Nowhere => 0,
        Target::Output(_) => unkept_output(rt),
        Target::Error(_) => unkept_error(rt),
        Target::Opened(f) => unkept(f),
        Target::Numbered(_, n) => unkept_numbered(rt, *n),
    };
    if why == 0 {
        return true;
    }
    to.why = why;
    false
}

// ---- the arguments

// Tells that a file can't be opened, or made.
fn fail(name: &[u8], why: i32) {
    say(name);
    because(why);
}

// The text of a name, if it is UTF-8.
fn text_of(name: &[u8]) -> Option<&str> {
    match std::str::from_utf8(name) {
        Ok(text) => Some(text),
        Err(_) => None,
    }
}

fn open_named(rt: HostRuntime, name: &[u8]) -> Result<File, i32> {
    match text_of(name) {
        Some(text) => match std::fs::open(&rt, text) {
            Ok(f) => Ok(f),
            Err(e) => Err(number_of(e)),
        },
        None => Err(INVALID),
    }
}

fn make_named(rt: HostRuntime, name: &[u8]) -> Result<File, i32> {
    match text_of(name) {
        Some(text) => match OpenOptions::new()
            .write(true)
            .create_new(true)
            .open(&rt, text)
        {
            Ok(f) => Ok(f),
            Err(e) => Err(number_of(e)),
        },
        None => Err(INVALID),
    }
}

// Opens a file to be read; `-` is standard input. None if it can't be opened, which is told.
fn open(rt: HostRuntime, name: &[u8]) -> Option<Source> {
    if octets::same(name, &[HYPHEN]) {
        return Some(source_of(rt, Origin::Input(rt.stdin())));
    }
    match open_named(rt, name) {
        Ok(f) => Some(source_of(rt, Origin::Opened(f))),
        Err(why) => {
            fail(name, why);
            None
        }
    }
}

// Makes a new file. None if it can't be made, which is told.
fn make(rt: HostRuntime, name: &[u8]) -> Option<Sink> {
    match make_named(rt, name) {
        Ok(f) => Some(sink_of(Target::Opened(f))),
        Err(why) => {
            fail(name, why);
            None
        }
    }
}

// The input: the file that argument k names, or standard input if it is `-` or not there. None if it can't be read. A name goes into
// the lent buffer.
pub fn input(rt: HostRuntime, k: usize, name: &mut [u8]) -> Option<Source>
    ensures { length name.new ≡ length name.old }
{
    match rt.arg(k, name) {
        Ok(n) => open(rt, &name[0..n]),
        Err(FillError::NotPresent) => Some(source_of(rt, Origin::Input(rt.stdin()))),
        Err(FillError::TooLong) => {
            fail(b"the name of the input", TOO_LONG);
            None
        }
    }
}

// Where the findings go: to a new file, which argument k names, or else to standard error. None if it can't be made.
pub fn report(rt: HostRuntime, k: usize, name: &mut [u8]) -> Option<Sink>
    ensures { length name.new ≡ length name.old }
{
    match rt.arg(k, name) {
        Ok(n) => make(rt, &name[0..n]),
        Err(FillError::NotPresent) => Some(error(rt)),
        Err(FillError::TooLong) => {
            fail(b"the name of the report", TOO_LONG);
            None
        }
    }
}

// A number with one digit more.
fn with_digit(n: u64, digit: u8) -> u64
    ensures { result ≤ 1000000 }
{
    if n >= MOST / 10 {
        return MOST;
    }
    if digit < ZERO {
        return MOST;
    }
    if digit > NINE {
        return MOST;
    }
    n * 10 + (digit - ZERO) as u64
}

// The number that a word writes in decimal digits.
fn decimal(word: &[u8]) -> u64
    ensures { result ≤ 1000000 }
{
    if word.len() == 0 {
        return MOST;
    }
    let mut n: u64 = 0;
    let mut i: usize = 0;
    while i < word.len() {
        n = with_digit(n, word[i]);
        i += 1;
    }
    n
}

// The number that argument k writes.
fn written_at(rt: HostRuntime, k: usize) -> u64
    ensures { result ≤ 1000000 }
{
    let mut word = io::buffer();
    match rt.arg(k, &mut word) {
        Ok(n) => decimal(&word[..n]),
        Err(_) => MOST,
    }
}

// Whether argument k is there.
fn is_named(rt: HostRuntime, k: usize) -> bool {
    let mut none = [0u8; 1];
    match rt.arg(k, &mut none) {
        Err(FillError::NotPresent) => false,
        _ => true,
    }
}

// The number that argument k writes, or the usual one if it is not there.
pub fn setting(rt: HostRuntime, k: usize, usual: u64) -> u64
    requires { usual ≤ 1000000 }
    ensures { result ≤ 1000000 }
{
    if !is_named(rt, k) {
        return usual;
    }
    written_at(rt, k)
}

// ---- words

// Words, and after them a number in decimal digits; how many octets of the words were written.
pub fn tell(to: &mut Sink, x: &[u8], n: u64) -> usize
    ensures { result ≤ length x.now }
{
    let told = write(to, x);
    let mut digits = [0u8; 20];
    let k = io::decimal(n, &mut digits);
    write(to, &digits[..k]);
    told
}

// Words on standard error; how many octets of them were written, 0 if that failed.
pub fn say(x: &[u8]) -> usize
    ensures { result ≤ length x.now }
{
    if io::write_all(ERROR, x) {
        return x.len();
    }
    0
}

// Words and a number on standard error.
pub fn say_number(x: &[u8], n: u64) -> usize
    ensures { result ≤ length x.now }
{
    let told = say(x);
    io::print_decimal(ERROR, n);
    told
}

// The words of an error's number, as the library prints them, end with ` (os error N)`: how many octets stand before it.
fn before_number(all: usize, why: u64) -> usize
    ensures { result ≤ all }
{
    let mut digits = [0u8; 20];
    let k = io::decimal(why, &mut digits) + NUMBERED;
    if k < all {
        return all - k;
    }
    all
}

fn within_text(n: u64) -> usize
    ensures { result ≤ 128 }
{
    if n < TEXT as u64 {
        return n as usize;
    }
    TEXT
}

// Why a call failed, on standard error, and the end of the line.
fn because(why: i32) {
    let mut text = Cursor::new([0u8; TEXT]);
    let e = std::io::Error::from_raw_os_error(why);
    let _ = write!(text, "{e}");
    let all = within_text(text.position());
    let x = text.into_inner();
    say(b": ");
    say(&x[..before_number(all, why.unsigned_abs() as u64)]);
    say(b"\n");
}

// Words and a number on standard error, and why the last call failed.
pub fn failed(why: i32, x: &[u8], n: u64) -> usize
    ensures { result ≤ length x.now }
{
    let told = say_number(x, n);
    because(why);
    told
}

// The octets read so far. The cursor goes back to the beginning of the line, so that what is said next stands there.
fn show(read: u64) {
    say_number(b"", read / MEBI);
    say(b" MiB read");
    say(&[RETURN]);
}

// Shows progress at a terminal, if the octets read have passed the next stride.
fn progress(shows: bool, before: u64, after: u64) {
    if before / STRIDE == after / STRIDE {
        return;
    }
    if shows {
        show(after);
    }
}

// ---- counting

// A sum, or the largest number of 64 bits.
pub fn sum(a: u64, b: u64) -> u64
    ensures { result ≡ a + b - (a + b - 18446744073709551615) }
{
    if b <= u64::MAX - a {
        return a + b;
    }
    u64::MAX
}

// The number at a place of a list of counts; 0 if there is none.
pub fn at(counts: &[u64], k: usize) -> u64
    ensures { result ≡ get_or counts.now k 0 }
{
    if k < counts.len() {
        return counts[k];
    }
    0
}

// Adds to the number at a place.
pub fn add(counts: &mut [u64], k: usize, n: u64)
    ensures { length counts.new ≡ length counts.old }
{
    if k < counts.len() {
        counts[k] = sum(counts[k], n);
    }
}

// ---- a window over a file

// Counts the octets that a read answered, at a place, and shows progress. False if it failed, which is told.
pub fn took(from: &Source, got: isize, n: usize, counts: &mut [u64], k: usize) -> bool
    ensures { length counts.new ≡ length counts.old }
{
    let before = at(counts, k);
    if got < 0 {
        failed(from.why, b"reading failed at octet ", before);
        return false;
    }
    add(counts, k, n as u64);
    progress(from.shows, before, at(counts, k));
    true
}

// The octets of a window from a place up to another go to its front; the rest stays.
pub fn front(buf: &mut [u8], from: usize, till: usize)
    requires from_le_till { from ≤ till }
    requires till_in_bounds { till ≤ length buf.old }
    ensures { buf.new ≡ sets buf.old 0 (part buf.old from (till - from)) }
{
    let n = till - from;
    let mut i: usize = 0;
    while i < n {
        buf[i] = buf[from + i];
        i += 1;
    }
}
