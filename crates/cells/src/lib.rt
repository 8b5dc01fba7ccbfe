// The store's cells: what stands in each, and the searches that the order, arrival and taking are made of.
//
//   held   4D 53 | a segmented packet as it arrived | zeros
//   taken  4D 54 | identification | secondary header without its counter | first counter | last counter | zeros
//   free   zeros
//
// Every function takes any octets. The zero cell is lent as a slice, and its length is the cell size Z.
//
// Chains lead through the held cells, so that a key and a counter are found without a look at every cell: a number mixed from both
// chooses the chain, and `Chains` leads from the highest cell of each chain to the next lower ones.
#![tactic(auto)]

pub mod messages;
pub mod opening;
mod untaken;

ghost use Rattle.std.specs.Prelude.{◌≡◌, ℕ, ◌+◌, ◌*◌, ◌/◌, ◌≤◌, ◌<◌, length, get_or, take, drop, ◌∷◌, eqb};
ghost use Rattle.std.proofs.lemmas.List.Edits.{sets};
ghost use Rattle.octets.specs.Octets.{pick, part, number, alike};
ghost use Rattle.cells.specs.Segments.{both, reaches};
ghost use Rattle.cells.specs.Rows.{row_at, zero_row, cell_of, mark_first, mark_second, mark_size, packet_in, first_in, records, steps_between};
ghost use Rattle.cells.specs.Inner.{marked_test, judged_of, recorded_of, told_held, told_taken, told_sound, told_body, body_in, place_in, counter_in, spans_alike};
ghost use Rattle.cells.specs.Inner.{within_in, Asked, body_start, bodies_to, Bodies};
ghost use Rattle.packet.specs.Format.{primary_size, counter_width, header_most};
ghost use Rattle.packet.specs.Reading.{read_packet};
ghost use Rattle.packet.specs.Decoded.{decoded};
ghost use Rattle.packet.specs.Key.{key_of};
ghost use Rattle.packet.specs.Numbers.{next_counter};
ghost use Rattle.cells.specs.Order.{cells_most, lowest, length_fits, sound, cell_at, carries_in, new_to, new_at, distinct, in_order, count_in, found_in, cell_size};
ghost use Rattle.cells.specs.Order.{covers_in, untaken_to, untaken};
ghost use Rattle.cells.specs.Chains.{mix_in, mixed, mix_start, chain_in, bucket_of, key_in, chains_all, bucket_at, cell_below, pushed, Chained, ChainedIf};

use packet::{Header, SegmentCounter, UNSEGMENTED};
use walk::{Refused, Settings};

// The octets of a cell, and of one of the wide store.
pub const CELL: usize = 1024;

pub const CELL_WIDE: usize = 2048;

// The most cells that a store has.
pub const CELLS_MOST: usize = 4096;

// How many chains lead through a store, and what the mixing of a key begins with.
pub const CHAINS: usize = 4096;

const MIX_START: u32 = 2166136261;

const MIX_FACTOR: u64 = 16777619;

const MIX_ALL: u64 = 4294967296;

const MIX_HALF: usize = 65536;

// The mark of a held cell, its two octets, and how many they are.
const MARK: u64 = 0x4d53;

const MARK_FIRST: u8 = 0x4d;

const MARK_SECOND: u8 = 0x53;

pub const MARK_SIZE: usize = 2;

// The second octet of the mark of a record, the first being the same.
pub const MARK_TAKEN: u8 = 0x54;

// The octets of a packet's identification.
pub const IDENTIFICATION: usize = 2;

// Places in a packet: the secondary header, its presence octet, and what comes after that.
pub const SECONDARY_AT: usize = packet::PRIMARY;

const PRESENCE_AT: usize = OPTIONAL_AT - 1;

const OPTIONAL_AT: usize = packet::PRIMARY + packet::FIXED;

// Where the transaction id stands in a packet, and in a key. In a full store it tells most keys apart, so it is compared first.
const TRANSACTION_PLACE: usize = 18;

const TRANSACTION_IN_KEY: usize = IDENTIFICATION + TRANSACTION_PLACE - SECONDARY_AT;

// Where the header stands in a record, its presence octet, and the transaction id.
const HEADER_AT: usize = MARK_SIZE + IDENTIFICATION;

const PRESENCE_IN_RECORD: usize = HEADER_AT + packet::FIXED - 1;

const TRANSACTION_IN_RECORD: usize = MARK_SIZE + TRANSACTION_IN_KEY;

// How much lower than the body in a segment the counters stand in a record with its key.
const COUNTERS_BEFORE_BODY: usize = SECONDARY_AT + packet::COUNTER - HEADER_AT;

// The most octets of a header, with a counter; and of a record that is read as a packet: a counter is put back.
const HEADER_MOST: usize = 256;

const FIRST_MOST: usize = packet::PRIMARY + packet::COUNTER + HEADER_MOST;

// The flags of a first segment beside sequence count 0.
const FIRST_FLAGS: u64 = 0x4000;

// The most steps from the first segment of a message to its last.
const STEPS_MOST: u32 = packet::SEGMENTS_MOST as u32 - 1;

// The octets of cell i, as far as they are there.
pub fn row(store: &[u8], z: usize, i: usize) -> &[u8]
    ensures { result.now ≡ row_at z store.now i }
{
    let from = octets::place(store.len(), z, i);
    let to = octets::within(store.len(), from, z);
    &store[from..to]
}

// n octets of a slice from a place on, as far as they are there.
pub fn span(x: &[u8], at: usize, n: usize) -> &[u8]
    ensures { result.now ≡ part x.now at n }
{
    let from = octets::within(x.len(), 0, at);
    let to = octets::within(x.len(), from, n);
    &x[from..to]
}

// The packet that a row holds, by its length field, as far as it is there.
pub fn packet_in(row: &[u8]) -> &[u8]
    ensures { result.now ≡ packet_in row.now }
{
    let size = octets::read::<u16>(row, 6) as usize + 7;
    span(row, MARK_SIZE, size)
}

// Where the segment counter of a packet stands, by its presence octet.
pub fn counter_place(p: &[u8]) -> usize
    ensures { result ≡ place_in p.now }
{
    let f = octets::octet(p, PRESENCE_AT);
    OPTIONAL_AT + (f / 128 % 2) as usize + (f / 64 % 2) as usize
}

// The segment counter that stands there.
pub fn counter_in(p: &[u8]) -> SegmentCounter
    ensures { result.0 ≡ counter_in p.now }
{
    SegmentCounter(octets::read::<u32>(p, counter_place(p)))
}

// Whether two segments have the same key, told where their bodies begin.
pub fn same_key(p: &[u8], body_at: usize, q: &[u8], q_body_at: usize) -> bool
    ensures { result ≡ spans_alike p.now body_at q.now q_body_at }
{
    if octets::read::<u64>(p, TRANSACTION_PLACE) != octets::read::<u64>(q, TRANSACTION_PLACE) {
        return false;
    }
    let c = counter_place(p);
    let d = counter_place(q);
    let long = octets::both(c == d, body_at == q_body_at);
    let ids = octets::same(span(p, 0, IDENTIFICATION), span(q, 0, IDENTIFICATION));
    let fore = octets::same(
        span(p, SECONDARY_AT, c - SECONDARY_AT),
        span(q, SECONDARY_AT, d - SECONDARY_AT),
    );
    let aft = octets::same(
        span(
            p,
            c + packet::COUNTER,
            octets::less(body_at, c + packet::COUNTER),
        ),
        span(
            q,
            d + packet::COUNTER,
            octets::less(q_body_at, d + packet::COUNTER),
        ),
    );
    octets::both(long, octets::both(ids, octets::both(fore, aft)))
}

// What is left of a slice from a place on.
fn tail(x: &[u8], n: usize) -> &[u8]
    ensures { result.now ≡ drop n x.now }
{
    let from = octets::within(x.len(), 0, n);
    let to = x.len();
    &x[from..to]
}

// Whether a row begins with a mark, told its second octet, and from n on is as the zero cell.
fn is_marked(row: &[u8], mark: u8, n: usize, zero: &[u8]) -> bool
    ensures { result ≡ marked_test mark row.now n zero.now }
{
    let first = octets::octet(row, 0) == MARK_FIRST;
    let second = octets::octet(row, 1) == mark;
    let long = row.len() == zero.len();
    let rest = octets::same(tail(row, n), tail(zero, n));
    octets::both(first, octets::both(second, octets::both(long, rest)))
}

// What a row is: zeros, a segment, with where its body begins and its counter, the record of a message that was taken, with how long its
// header is, or none of these.
#[derive(Clone, Copy)]
pub enum Judged {
    Free,
    Held { at: usize, counter: SegmentCounter },
    Taken { header: usize },
    Broken,
}

impl Judged {
    // Whether the row holds a segment.
    pub fn is_held(self) -> bool
        ensures { result ≡ told_held self }
    {
        matches!(self, Judged::Held { .. })
    }

    // Whether it is a record.
    pub fn is_taken(self) -> bool
        ensures { result ≡ told_taken self }
    {
        matches!(self, Judged::Taken { .. })
    }

    // Whether it is free, holds one or is a record.
    fn is_sound(self) -> bool
        ensures { result ≡ told_sound self }
    {
        !matches!(self, Judged::Broken)
    }

    // Where the body of its segment begins; 0 if it holds none.
    fn body_at(self) -> usize
        ensures { result ≡ told_body self }
    {
        match self {
            Judged::Held { at, .. } => at,
            _ => 0,
        }
    }
}

// Whether a row is as the zero cell. A held one differs in its first octet, and is not compared any further.
fn is_free(row: &[u8], zero: &[u8]) -> bool
    ensures { result ≡ alike row.now zero.now }
{
    if octets::octet(row, 0) != octets::octet(zero, 0) {
        return false;
    }
    octets::same(row, zero)
}

// A record read as a packet, into a lent slice: a first segment of its identification and header, a counter of zeros put back, and some of
// what comes after. How many octets it has.
fn first_in(row: &[u8], out: &mut [u8]) -> usize
    requires { primary_size + counter_width + header_most ≤ length out.old }
    ensures upper_bound { result ≤ length out.new }
    ensures out_after { take result out.new ≡ first_in row.now }
{
    let f = octets::octet(row, PRESENCE_IN_RECORD);
    let fore = packet::FIXED + (f / 128 % 2) as usize + (f / 64 % 2) as usize;
    let ids = span(row, MARK_SIZE, IDENTIFICATION);
    let before = span(row, HEADER_AT, fore);
    let after = span(row, HEADER_AT + fore, HEADER_MOST - fore);
    let long = before.len() + packet::COUNTER + after.len();
    let a = octets::lay(out, 0, ids);
    let b = octets::lay_number(out, a, 2, FIRST_FLAGS);
    let c = octets::lay_number(out, b, 2, (long - 1) as u64);
    let d = octets::lay(out, c, before);
    let e = octets::lay_number(out, d, packet::COUNTER, 0);
    octets::lay(out, e, after)
}

// What reading answers of it.
fn read_record(s: Settings, row: &[u8]) -> Result<Header, Refused>
    ensures { decoded result ≡ read_packet s (first_in row.now) }
{
    let mut out = [0u8; FIRST_MOST];
    let n = first_in(row, &mut out);
    packet::read(s, &out[0..n])
}

// How many steps lead from one counter to another, round the end too.
fn steps_between(c: SegmentCounter, d: SegmentCounter) -> u32
    ensures { result ≡ steps_between c.0 d.0 }
{
    if c.0 <= d.0 {
        return d.0 - c.0;
    }
    u32::MAX - c.0 + d.0 + 1
}

// The counter at a place of a row, and how many steps lead from it to the one after it.
#[derive(Clone, Copy)]
struct Run {
    first: SegmentCounter,
    steps: u32,
}

fn run_at(row: &[u8], at: usize) -> Run
    requires { at ≤ mark_size + 2 + header_most }
    ensures first_value { result.first.0 ≡ number counter_width row.now at }
    ensures steps_value { result.steps ≡ steps_between (number counter_width row.now at) (number counter_width row.now (at + counter_width)) }
{
    let first = SegmentCounter(octets::read::<u32>(row, at));
    let last = SegmentCounter(octets::read::<u32>(row, at + packet::COUNTER));
    Run {
        first: first,
        steps: steps_between(first, last),
    }
}

// Whether a row with a record's mark is a record, by one reading of it.
fn judge_record(s: Settings, row: &[u8], zero: &[u8]) -> Judged
    requires { zero.now ≡ zero_row (length zero.now) }
    ensures { result ≡ recorded_of (records s (length zero.now) row.now) (read_packet s (first_in row.now)).h }
{
    let Ok(h) = read_record(s, row) else {
        return Judged::Broken;
    };
    let at = HEADER_AT + h.h;
    let run = run_at(row, at);
    let end = at + packet::COUNTER + packet::COUNTER;
    let marked = is_marked(row, MARK_TAKEN, end, zero);
    let fits = end <= zero.len();
    let steps = octets::both(1 <= run.steps, run.steps <= STEPS_MOST);
    if octets::both(marked, octets::both(fits, steps)) {
        Judged::Taken { header: h.h }
    } else {
        Judged::Broken
    }
}

// What a row is, beside a zero cell, by one reading of its packet. A row of another length is broken.
// Whoever calls it for one cell after another does so in a loop, and by no closure: what a closure holds is not known when this is
// compiled, and without the length of `zero` looking at free cells would take a third more instructions. (`moving`, which no program or
// export calls, has such a closure.)
pub fn judge(s: Settings, row: &[u8], zero: &[u8]) -> Judged
    requires { zero.now ≡ zero_row (length zero.now) }
    ensures { result ≡ judged_of (body_in s row.now) (cell_of s (length zero.now) row.now) }
{
    if is_free(row, zero) {
        return Judged::Free;
    }
    if octets::octet(row, 1) == MARK_TAKEN {
        return judge_record(s, row, zero);
    }
    let p = packet_in(row);
    let Ok(h) = packet::read(s, p) else {
        return Judged::Broken;
    };
    let marked = is_marked(row, MARK_SECOND, MARK_SIZE + p.len(), zero);
    if octets::both(marked, h.primary.flags != UNSEGMENTED) {
        Judged::Held {
            at: h.body.at,
            counter: h.ids.counter,
        }
    } else {
        Judged::Broken
    }
}

// The lowest free cell of the first n; n if there is none.
pub fn lowest_free(store: &[u8], n: usize, zero: &[u8]) -> usize
    ensures { result ≡ lowest (λ j. alike (row_at (length zero.now) store.now j) zero.now) n 0 }
{
    let z = zero.len();
    for i in 0..n {
        if is_free(row(store, z, i), zero) {
            return i;
        }
    }
    n
}

// How many cells a store of this length has, 0 if its length does not fit.
pub fn count(len: usize, z: usize) -> usize
    ensures { result ≡ pick (length_fits z len) (len / z) 0 }
{
    if z == 0 {
        return 0;
    }
    let n = len / z;
    if len % z != 0 {
        return 0;
    }
    if n < 1 {
        return 0;
    }
    if CELLS_MOST < n {
        return 0;
    }
    n
}

// Whether a cell holds a segment with the key and counter of the one that is looked for. The cheap tests come first: the row is judged
// only if counter and transaction id agree.
pub fn carries_at(
    s: Settings,
    row: &[u8],
    zero: &[u8],
    q: &[u8],
    body_at: usize,
    c: SegmentCounter,
) -> bool
    requires zero_value { zero.now ≡ zero_row (length zero.now) }
    requires asked { Asked s q.now body_at }
    ensures { result ≡ carries_in (key_of q.now (read_packet s q.now)) c.0
        (cell_of s (length zero.now) row.now) }
{
    if octets::octet(row, 0) == 0 {
        return false;
    }
    let p = packet_in(row);
    let d = counter_in(p);
    if d.0 != c.0 {
        return false;
    }
    if octets::read::<u64>(p, TRANSACTION_PLACE) != octets::read::<u64>(q, TRANSACTION_PLACE) {
        return false;
    }
    match judge(s, row, zero) {
        Judged::Held { at, .. } => same_key(q, body_at, p, at),
        _ => false,
    }
}

// Whether octets are the key of a segment, told where its body begins.
fn is_key(k: &[u8], p: &[u8], body_at: usize) -> bool
    ensures { result ≡ alike k.now (key_in p.now body_at) }
{
    if octets::read::<u64>(k, TRANSACTION_IN_KEY) != octets::read::<u64>(p, TRANSACTION_PLACE) {
        return false;
    }
    let c = counter_place(p);
    let ids = span(p, 0, IDENTIFICATION);
    let fore = span(p, SECONDARY_AT, c - SECONDARY_AT);
    let aft = span(
        p,
        c + packet::COUNTER,
        octets::less(body_at, c + packet::COUNTER),
    );
    let first = octets::same(span(k, 0, ids.len()), ids);
    let second = octets::same(span(k, ids.len(), fore.len()), fore);
    let third = octets::same(tail(k, ids.len() + fore.len()), aft);
    octets::both(first, octets::both(second, third))
}

// Whether a counter is the first or one of so many steps after it, round the end too.
fn is_reached(first: SegmentCounter, steps: u32, c: SegmentCounter) -> bool
    ensures { result ≡ reaches next_counter steps first.0 c.0 }
{
    if c.0 < first.0 {
        return u32::MAX - first.0 + c.0 < steps;
    }
    c.0 - first.0 <= steps
}

// Whether a cell holds a segment with this key, its counter the first or one of so many steps after it. The cheap tests come first: the
// row is judged only if counter and transaction id agree.
pub fn is_within(
    s: Settings,
    row: &[u8],
    zero: &[u8],
    k: &[u8],
    first: SegmentCounter,
    steps: u32,
) -> bool
    requires { zero.now ≡ zero_row (length zero.now) }
    ensures { result ≡ within_in next_counter k.now first.0 steps (cell_of s (length zero.now) row.now) }
{
    if octets::octet(row, 0) == 0 {
        return false;
    }
    let p = packet_in(row);
    if !is_reached(first, steps, counter_in(p)) {
        return false;
    }
    if octets::read::<u64>(k, TRANSACTION_IN_KEY) != octets::read::<u64>(p, TRANSACTION_PLACE) {
        return false;
    }
    match judge(s, row, zero) {
        Judged::Held { at, .. } => is_key(k, p, at),
        _ => false,
    }
}

// The lowest of the first n cells that carries the key and counter of the one that is looked for; n if there is none.
pub fn find(
    s: Settings,
    store: &[u8],
    n: usize,
    zero: &[u8],
    q: &[u8],
    body_at: usize,
    c: SegmentCounter,
) -> usize
    requires zero_value { zero.now ≡ zero_row (length zero.now) }
    requires asked { Asked s q.now body_at }
    ensures { result ≡ found_in s (length zero.now) store.now n (key_of q.now (read_packet s q.now)) c.0 }
{
    let z = zero.len();
    for j in 0..n {
        if carries_at(s, row(store, z, j), zero, q, body_at, c) {
            return j;
        }
    }
    n
}

// Whether a cell is a record that covers the key of the one that is looked for, and the counter. The cheap tests come first: the row is
// judged only if the transaction id agrees and the counter is reached, where the counters stand after a key as long as this one.
fn covers_at(
    s: Settings,
    row: &[u8],
    zero: &[u8],
    q: &[u8],
    body_at: usize,
    c: SegmentCounter,
) -> bool
    requires zero_value { zero.now ≡ zero_row (length zero.now) }
    requires asked { Asked s q.now body_at }
    ensures { result ≡ covers_in (key_of q.now (read_packet s q.now)) c.0
        (cell_of s (length zero.now) row.now) }
{
    if octets::octet(row, 1) != MARK_TAKEN {
        return false;
    }
    if octets::read::<u64>(row, TRANSACTION_IN_RECORD)
        != octets::read::<u64>(q, TRANSACTION_PLACE)
    {
        return false;
    }
    let run = run_at(row, octets::less(body_at, COUNTERS_BEFORE_BODY));
    if !is_reached(run.first, run.steps, c) {
        return false;
    }
    match judge(s, row, zero) {
        Judged::Taken { header } => is_key(
            span(row, MARK_SIZE, IDENTIFICATION + header),
            q,
            body_at,
        ),
        _ => false,
    }
}

// Whether no record in the first n cells covers the key and counter of the one that is looked for.
pub fn is_untaken(
    s: Settings,
    store: &[u8],
    n: usize,
    zero: &[u8],
    q: &[u8],
    body_at: usize,
    c: SegmentCounter,
) -> bool
    requires zero_value { zero.now ≡ zero_row (length zero.now) }
    requires asked { Asked s q.now body_at }
    ensures { result ≡ untaken_to s (length zero.now) store.now n (key_of q.now (read_packet s q.now)) c.0 }
{
    let z = zero.len();
    for j in 0..n {
        if covers_at(s, row(store, z, j), zero, q, body_at, c) {
            return false;
        }
    }
    true
}

// Whether the packets of two segments, with what reading answered of them, have the same flags and body.
pub fn same_rest(
    p: &[u8],
    flags: u8,
    at: usize,
    long: usize,
    q: &[u8],
    marks: u8,
    from: usize,
    wide: usize,
) -> bool
    ensures { result ≡ both (eqb flags marks) (alike (part p.now at long) (part q.now from wide)) }
{
    octets::both(
        flags == marks,
        octets::same(span(p, at, long), span(q, from, wide)),
    )
}

// The mark and a packet into cell i, if they lie inside the store.
pub fn put_cell(store: &mut [u8], z: usize, i: usize, p: &[u8])
    requires { i * z + (mark_size + length p.now) ≤ length store.old }
    ensures { store.new ≡ sets store.old (i * z) (mark_first ∷ mark_second ∷ p.now) }
{
    let at = octets::place(store.len(), z, i);
    let after = octets::lay_number(store, at, MARK_SIZE, MARK);
    octets::lay(store, after, p);
}

// A number mixed into another.
fn mix_in(m: u32, x: u32) -> u32
    ensures { result ≡ mix_in m x }
{
    ((m as u64 * MIX_FACTOR + x as u64) % MIX_ALL) as u32
}

// The octets of a slice mixed into a number, one after the other.
fn mix(start: u32, x: &[u8]) -> u32
    ensures { result ≡ mixed start x.now }
{
    x.iter().fold(start, |m, b| mix_in(m, u32::from(*b)))
}

// The chain by a mixed number and a counter.
fn chain(m: u32, c: SegmentCounter) -> usize
    ensures { result ≡ chain_in (mix_in m c.0) }
{
    let x = mix_in(m, c.0) as usize;
    (x / MIX_HALF + x) % CHAINS
}

// The key of a segment mixed, told where its body begins.
fn mix_key(q: &[u8], body_at: usize) -> u32
    ensures { result ≡ mixed mix_start (key_in q.now body_at) }
{
    let d = counter_place(q);
    let ids = mix(MIX_START, span(q, 0, IDENTIFICATION));
    let fore = mix(ids, span(q, SECONDARY_AT, d - SECONDARY_AT));
    mix(
        fore,
        span(
            q,
            d + packet::COUNTER,
            octets::less(body_at, d + packet::COUNTER),
        ),
    )
}

// The chain of the key of a segment, told where its body begins, beside a counter.
pub fn bucket(q: &[u8], body_at: usize, c: SegmentCounter) -> usize
    ensures { result ≡ bucket_of (key_in q.now body_at) c.0 }
{
    chain(mix_key(q, body_at), c)
}

// The chains through a store's cells: the highest cell of each chain, and of each cell the next lower one. 0 is none, and cell i is i + 1.
#[derive(Drop)]
pub struct Chains {
    heads: [u16; CHAINS],
    links: [u16; CELLS_MOST],
}

impl Chains {
    // No cell is on any chain.
    pub fn new() -> Chains
        ensures { (b : ℕ → ℕ) → Chained b result 0 }
    {
        Chains {
            heads: [0; CHAINS],
            links: [0; CELLS_MOST],
        }
    }

    // Cell i becomes the head of chain b, and the head that was its link.
    fn push(&mut self, i: usize, b: usize)
        requires i_lt_cells_most { i < cells_most }
        requires b_lt_chains_all { b < chains_all }
        ensures { self.new ≡ pushed i b self.old }
    {
        self.links[i] = self.heads[b];
        self.heads[b] = (i + 1) as u16;
    }

    // The highest cell of chain b.
    fn head(&self, b: usize) -> Option<usize>
        requires { b < chains_all }
        ensures { result ≡ cell_below (get_or self.now.heads b 0) }
    {
        usize::from(self.heads[b]).checked_sub(1)
    }

    // The next lower cell on the chain of cell j.
    fn next(&self, j: usize) -> Option<usize>
        requires { j < cells_most }
        ensures { result ≡ cell_below (get_or self.now.links j 0) }
    {
        usize::from(self.links[j]).checked_sub(1)
    }
}

// The same as `find` by a walk along chain b, which is that of the key and counter: links lead down, so the last one met is the lowest.
fn find_on(
    s: Settings,
    store: &[u8],
    n: usize,
    zero: &[u8],
    q: &[u8],
    body_at: usize,
    c: SegmentCounter,
    b: usize,
    chains: &Chains,
) -> usize
    requires zero_value { zero.now ≡ zero_row (length zero.now) }
    requires asked { Asked s q.now body_at }
    requires chained { Chained (bucket_at s (length zero.now) store.now) chains.now n }
    requires b_value { b ≡ bucket_of (key_in q.now body_at) c.0 }
    ensures { result ≡ found_in s (length zero.now) store.now n (key_of q.now (read_packet s q.now)) c.0 }
{
    let z = zero.len();
    let mut best = n;
    let mut cur = chains.head(b);
    while let Some(j) = cur {
        if carries_at(s, row(store, z, j), zero, q, body_at, c) {
            best = j;
        }
        cur = chains.next(j);
    }
    best
}

// The same as `find`, by a walk along one chain if the cells stand on the chains that are lent.
pub fn find_by(
    s: Settings,
    store: &[u8],
    n: usize,
    zero: &[u8],
    q: &[u8],
    body_at: usize,
    c: SegmentCounter,
    chains: Option<&Chains>,
) -> usize
    requires zero_value { zero.now ≡ zero_row (length zero.now) }
    requires asked { Asked s q.now body_at }
    requires chained { ChainedIf (bucket_at s (length zero.now) store.now) chains n }
    ensures { result ≡ found_in s (length zero.now) store.now n (key_of q.now (read_packet s q.now)) c.0 }
{
    match chains {
        Some(t) => find_on(s, store, n, zero, q, body_at, c, bucket(q, body_at, c), t),
        None => find(s, store, n, zero, q, body_at, c),
    }
}

// Whether no cell below i has the key and counter of the one that is looked for, if those below are apart so far.
fn is_new(
    s: Settings,
    store: &[u8],
    i: usize,
    zero: &[u8],
    q: &[u8],
    body_at: usize,
    c: SegmentCounter,
    b: usize,
    apart: bool,
    chains: &Chains,
) -> bool
    requires zero_value { zero.now ≡ zero_row (length zero.now) }
    requires asked { Asked s q.now body_at }
    requires chained { Chained (bucket_at s (length zero.now) store.now) chains.now i }
    requires b_value { b ≡ bucket_of (key_in q.now body_at) c.0 }
    ensures { result ≡ both apart (new_to s (length zero.now) store.now i
        (key_of q.now (read_packet s q.now)) c.0) }
{
    if apart {
        return find_on(s, store, i, zero, q, body_at, c, b, chains) == i;
    }
    false
}

// Whether the first n cells are all free, held or records, by one reading of each. The table then tells where the body of each segment begins, so
// that its key is found again without a reading.
pub fn sound_by(
    s: Settings,
    store: &[u8],
    n: usize,
    zero: &[u8],
    bodies: &mut [u16; CELLS_MOST],
) -> bool
    requires zero_value { zero.now ≡ zero_row (length zero.now) }
    requires n_le_cells_most { n ≤ cells_most }
    ensures value { result ≡ sound s (length zero.now) store.now n }
    ensures bodies_after { bodies.new ≡ bodies_to s (length zero.now) store.now n bodies.old }
{
    let mut all = true;
    for i in 0..n {
        let t = judge(s, row(store, zero.len(), i), zero);
        bodies[i] = t.body_at() as u16;
        all = octets::both(all, t.is_sound());
    }
    all
}

// Cell i beside those below it, told where the body of its segment begins: whether they are apart. A held one goes onto its chain; one
// that holds none is on none. Once two are not apart no search is made any more.
fn enter(
    s: Settings,
    store: &[u8],
    i: usize,
    zero: &[u8],
    body_at: usize,
    apart: bool,
    chains: &mut Chains,
) -> bool
    requires zero_value { zero.now ≡ zero_row (length zero.now) }
    requires i_lt_cells_most { i < cells_most }
    requires body_at_value { body_at ≡ body_start s (length zero.now) store.now i }
    requires chained { Chained (bucket_at s (length zero.now) store.now) chains.old i }
    ensures value { result ≡ both apart (new_at s (length zero.now) store.now i
        (cell_at s (length zero.now) store.now i)) }
    ensures chained_2 { Chained (bucket_at s (length zero.now) store.now) chains.new (i + 1) }
{
    if body_at == 0 {
        return apart;
    }
    let q = packet_in(row(store, zero.len(), i));
    let c = counter_in(q);
    let b = bucket(q, body_at, c);
    let new = is_new(s, store, i, zero, q, body_at, c, b, apart, chains);
    chains.push(i, b);
    new
}

// Whether no two of the first n cells have equal key and counter, for any octets, told where the body of each segment begins. Each held
// one goes onto its chain and is compared whole with those there.
pub fn distinct_by(
    s: Settings,
    store: &[u8],
    n: usize,
    zero: &[u8],
    bodies: &[u16; CELLS_MOST],
    chains: &mut Chains,
) -> bool
    requires zero_value { zero.now ≡ zero_row (length zero.now) }
    requires n_le_cells_most { n ≤ cells_most }
    requires bodies { Bodies s (length zero.now) store.now bodies.now n }
    requires chained { Chained (bucket_at s (length zero.now) store.now) chains.old 0 }
    ensures value { result ≡ distinct s (length zero.now) store.now n }
    ensures chained_2 { Chained (bucket_at s (length zero.now) store.now) chains.new n }
{
    let mut apart = true;
    for i in 0..n {
        apart = enter(s, store, i, zero, bodies[i] as usize, apart, chains);
    }
    apart
}

// Whether cells are all sound, whether no two of them have equal key and counter, and whether no segment lies in the range of a record.
#[derive(Clone, Copy)]
pub struct Orderly {
    pub sound: bool,
    pub distinct: bool,
    pub untaken: bool,
}

// The three tests one after the other, by one table of where the bodies begin.
pub fn order_by(s: Settings, store: &[u8], n: usize, zero: &[u8], chains: &mut Chains) -> Orderly
    requires zero_value { zero.now ≡ zero_row (length zero.now) }
    requires n_le_cells_most { n ≤ cells_most }
    requires chained { Chained (bucket_at s (length zero.now) store.now) chains.old 0 }
    ensures sound_value { result.sound ≡ sound s (length zero.now) store.now n }
    ensures distinct_value { result.distinct ≡ distinct s (length zero.now) store.now n }
    ensures untaken_value { result.untaken ≡ untaken s (length zero.now) store.now n }
    ensures chained_2 { Chained (bucket_at s (length zero.now) store.now) chains.new n }
{
    let mut bodies = [0u16; CELLS_MOST];
    let sound = sound_by(s, store, n, zero, &mut bodies);
    let distinct = distinct_by(s, store, n, zero, &bodies, chains);
    let untaken = untaken::untaken_by(s, store, n, zero, &bodies);
    Orderly {
        sound: sound,
        distinct: distinct,
        untaken: untaken,
    }
}

// How many cells a store in order has; 0 if it is not in order. The tables lent, which chain no cell yet, then chain all of its cells.
pub fn in_order_by(s: Settings, store: &[u8], zero: &[u8], chains: &mut Chains) -> usize
    requires zero_value { zero.now ≡ zero_row (length zero.now) }
    requires chained { Chained (bucket_at s (length zero.now) store.now) chains.old 0 }
    ensures value { result ≡ pick (in_order s (length zero.now) store.now) (count_in (length zero.now) store.now) 0 }
    ensures chained_2 { 0 < result → Chained (bucket_at s (length zero.now) store.now) chains.new result }
{
    let n = count(store.len(), zero.len());
    if n == 0 {
        return 0;
    }
    let o = order_by(s, store, n, zero, chains);
    if octets::both(o.sound, octets::both(o.distinct, o.untaken)) {
        return n;
    }
    0
}

// The same by tables of its own.
pub fn in_order(s: Settings, store: &[u8], zero: &[u8]) -> usize
    requires { zero.now ≡ zero_row (length zero.now) }
    ensures { result ≡ pick (in_order s (length zero.now) store.now) (count_in (length zero.now) store.now) 0 }
{
    let mut chains = Chains::new();
    in_order_by(s, store, zero, &mut chains)
}

// The same for cells of 1,024 octets, beside a zero cell made by repetition.
pub fn order(s: Settings, store: &[u8]) -> usize
    ensures { result ≡ pick (in_order s cell_size store.now) (count_in cell_size store.now) 0 }
{
    let zero = [0u8; CELL];
    in_order(s, store, &zero)
}
