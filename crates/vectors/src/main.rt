// Runs cases from standard input: of each case the call that it names, on what it is given and the buffers that it is lent, and
// prints the whole answer. What is printed is compared with what the cases expect. Proved here: the program is safe and ends,
// whatever it reads.
//
// A case is its length, 4 octets, and three parts: what is given, the store and the output, each packed into pairs, how often and
// which octet. What is given has parts again: its numbers, 8 octets each and the call's the first, then what its call says. Parts
// stand one after another, after a table, 4 octets each, of where every one begins and the last ends. All numbers have their most
// significant octet first.
//
// Each case prints a line: the numbers of its answer in decimal, each with a blank after it, of salvaging also those of its list, and of
// a view the octets of its part; then the store, a bar and the output, as they are after the call. Octets are in hex, two or more equal ones as `xx*n,`. Where
// there is no such call the line has no numbers. The run ends with the input, or at a case that is too long for the buffer.
//
// Module case reads a case, print writes; the others have the calls, most of them by way of `flat`, `flat_store` and `flat_pdu`,
// whose answers are lists of numbers. A new call is a function beside the others, and a line of the function here that has its buffers.
#![tactic(auto)]

mod case;
mod joins;
mod packets;
mod pdus;
mod print;
mod recordings;
mod stores;
mod texts;
mod varints;

ghost use Rattle.std.specs.Prelude.{◌<◌};

// The calls.
const VARINT_READ: u64 = 1;

const VARINT_WRITE: u64 = 2;

const READ: u64 = 3;

const WRITE: u64 = 4;

const COUNT: u64 = 5;

const PACKET: u64 = 6;

const IN_ORDER: u64 = 7;

const ARRIVE: u64 = 8;

const TAKE: u64 = 9;

const JOIN: u64 = 10;

const VIEW: u64 = 11;

const RECORDING: u64 = 12;

const TEXT: u64 = 13;

const SALVAGE: u64 = 14;

const PDU_READ: u64 = 15;

const PDU_WRITE: u64 = 16;

const FORGET: u64 = 17;

// How many parts a domain has at most.
const LENGTHS: usize = 384;

// The sizes of the buffers, each for one case; what would not fit is cut off.
const GIVEN: usize = 2097152;

const STORE: usize = 4300800;

const OUTPUT: usize = 262144;

const BAR: u8 = 124;

const NEWLINE: u8 = 10;

// The calls that only read.
fn run_reads(tag: u64, c: &[u8]) {
    if tag == VARINT_READ {
        varints::read(c);
    }
    if tag == READ {
        packets::read(c);
    }
    if tag == VIEW {
        joins::view(c);
    }
    if tag == TEXT {
        texts::test(c);
    }
    if tag == SALVAGE {
        recordings::salvage(c);
    }
    if tag == PDU_READ {
        pdus::read(c);
    }
}

// Writing and cutting.
fn run_writes(tag: u64, c: &[u8], out: &mut [u8]) {
    let mut list = [0u64; LENGTHS];
    let k = case::list(c, 7, &mut list);
    let lengths = &list[0..k];
    if tag == WRITE {
        packets::write(c, lengths, out);
        return;
    }
    if tag == COUNT {
        packets::count(c, lengths);
        return;
    }
    if tag == PACKET {
        packets::packet(c, lengths, out);
        return;
    }
    if tag == PDU_WRITE {
        pdus::write(c, lengths, out);
    }
}

// The others with an output.
fn run_outputs(tag: u64, c: &[u8], out: &mut [u8]) {
    if tag == VARINT_WRITE {
        varints::write(c, out);
        return;
    }
    if tag == RECORDING {
        recordings::join(c, out);
    }
}

// The calls that know no store.
fn run_packets(tag: u64, c: &[u8], out: &mut [u8]) {
    run_reads(tag, c);
    run_writes(tag, c, out);
    run_outputs(tag, c, out);
}

// Those with a store.
fn run_arrivals(tag: u64, c: &[u8], store: &mut [u8]) {
    if tag == IN_ORDER {
        stores::order(c, store);
        return;
    }
    if tag == ARRIVE {
        stores::arrive(c, store);
        return;
    }
    if tag == FORGET {
        stores::forget(c, store);
    }
}

// Those with both.
fn run_takings(tag: u64, c: &[u8], store: &mut [u8], out: &mut [u8]) {
    if tag == TAKE {
        stores::take(c, store, out);
        return;
    }
    if tag == JOIN {
        joins::join(c, store, out);
    }
}

// The end of a line: the lent buffers. Where nothing is given there is no line.
fn end(tag: u64, store: &[u8], out: &[u8]) {
    if tag != 0 {
        print::buffer(store, BAR);
        print::buffer(out, NEWLINE);
    }
}

// Runs the call of a case on its buffers, and prints its line.
fn run(c: &[u8], store: &mut [u8], out: &mut [u8]) {
    let tag = case::number(c, 0);
    run_packets(tag, c, out);
    run_arrivals(tag, c, store);
    run_takings(tag, c, store, out);
    end(tag, store, out);
}

// How many turns are left after one in which so many octets were given: none if there was no case.
fn fewer(left: u64, given: usize) -> u64
    requires { 0 < left }
    ensures { result < left }
{
    if given == 0 {
        return 0;
    }
    left - 1
}

// Runs a case on just its own part of the buffers.
fn filled(packed: &[u8], c: &[u8], store: &mut [u8], out: &mut [u8]) {
    let s = case::unpacked(packed, 1, store);
    let o = case::unpacked(packed, 2, out);
    run(c, &mut store[0..s], &mut out[0..o]);
}

// Runs the next case, and tells how many turns are left.
fn turn(left: u64, given: &mut [u8], store: &mut [u8], out: &mut [u8]) -> u64
    requires { 0 < left }
    ensures { result < left }
{
    let mut packed = io::large_buffer();
    case::next(&mut packed);
    let g = case::unpacked(&packed, 0, given);
    filled(&packed, &given[0..g], store, out);
    fewer(left, g)
}

// Runs all cases. Nothing says that the input ends, so the turns are counted down from a number that no run uses up.
fn turns(given: &mut [u8; GIVEN], store: &mut [u8; STORE], out: &mut [u8; OUTPUT]) {
    let mut left = u64::MAX;
    while 0 < left {
        left = turn(left, given, store, out);
    }
}

// Every buffer is here, and lent on.
fn main() {
    let mut given = [0u8; GIVEN];
    let mut store = [0u8; STORE];
    let mut out = [0u8; OUTPUT];
    turns(&mut given, &mut store, &mut out);
}
