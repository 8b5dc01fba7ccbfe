// Whether no held segment lies in the range of a record, for the order of a store, in time that grows with the number of cells.
//
// A range of counters lies in the block in which it begins and the one after it, at the lowest level where a block has room for the range: at
// level j a block has 2^j counters. So each record stands on one chain, that of its key and of the block in which it begins, and a segment is
// compared whole with the records on two chains at each level: those of its counter's block and of the block before.
ghost use Rattle.std.specs.Prelude.{◌≡◌, ◌+◌, ◌≤◌, ◌<◌, length};
ghost use Rattle.octets.specs.Octets.{part, number};
ghost use Rattle.packet.specs.Format.{counter_width, header_most};
ghost use Rattle.packet.specs.Reading.{read_packet};
ghost use Rattle.packet.specs.Key.{key_of};
ghost use Rattle.cells.specs.Rows.{zero_row, mark_size, steps_between};
ghost use Rattle.cells.specs.Order.{cells_most, cell_at, untaken_to, untaken_in, untaken};
ghost use Rattle.cells.specs.Inner.{Asked, body_start, Bodies};
ghost use Rattle.cells.specs.Chains.{chains_all, Chained};
ghost use Rattle.cells.specs.Blocks.{block_of, block_chain, chain_by, taken_at, no_marks, clear_on, clear_at, prior};

use packet::SegmentCounter;
use walk::Settings;

// The highest level of blocks of counters: there a block has as many as the longest message has segments.
const LEVELS_MOST: u32 = 12;

// A block of counters: its level, and its number among those of the level.
#[derive(Clone, Copy)]
struct Block {
    level: u32,
    number: u32,
}

// The block in which a range begins, at the level where it has room.
fn block_of(first: SegmentCounter, steps: u32) -> Block
    ensures { result ≡ block_of first.0 steps }
{
    let mut left = steps;
    let mut x = first.0;
    for level in 0..LEVELS_MOST {
        if left == 0 {
            return Block {
                level: level,
                number: x,
            };
        }
        left = left / 2;
        x = x / 2;
    }
    Block {
        level: LEVELS_MOST,
        number: x,
    }
}

// The chain of a block, by a mixed key.
fn block_chain(m: u32, level: u32, number: u32) -> usize
    ensures { result ≡ block_chain m level number }
{
    crate::chain(crate::mix_in(m, level), SegmentCounter(number))
}

// The chain of a record, told how long its header is.
fn range_chain(row: &[u8], header: usize) -> usize
    requires { header ≤ header_most }
    ensures { result ≡ chain_by (part row.now mark_size (2 + header)) (block_of (number counter_width row.now (4 + header))
        (steps_between (number counter_width row.now (4 + header)) (number counter_width row.now (4 + header + counter_width)))) }
{
    let m = crate::mix(
        crate::MIX_START,
        crate::span(row, crate::MARK_SIZE, crate::IDENTIFICATION + header),
    );
    let run = crate::run_at(row, crate::HEADER_AT + header);
    let b = block_of(run.first, run.steps);
    block_chain(m, b.level, b.number)
}

// Whether none of the first n cells has a record's mark.
fn no_marks(store: &[u8], n: usize, z: usize) -> bool
    ensures { result ≡ no_marks z store.now n }
{
    (0..n).all(|i| octets::octet(crate::row(store, z, i), 1) != crate::MARK_TAKEN)
}

// Cell i goes onto its chain if it is a record.
fn enter_taken(s: Settings, store: &[u8], i: usize, zero: &[u8], chains: &mut crate::Chains)
    requires zero_value { zero.now ≡ zero_row (length zero.now) }
    requires i_lt_cells_most { i < cells_most }
    requires chained { Chained (taken_at s (length zero.now) store.now) chains.old i }
    ensures { Chained (taken_at s (length zero.now) store.now) chains.new (i + 1) }
{
    let r = crate::row(store, zero.len(), i);
    if octets::octet(r, 1) != crate::MARK_TAKEN {
        return;
    }
    let crate::Judged::Taken { header } = crate::judge(s, r, zero) else {
        return;
    };
    let b = range_chain(r, header);
    chains.push(i, b);
}

// The records among the first n cells go onto their chains.
fn chain_taken(s: Settings, store: &[u8], n: usize, zero: &[u8], chains: &mut crate::Chains)
    requires zero_value { zero.now ≡ zero_row (length zero.now) }
    requires n_le_cells_most { n ≤ cells_most }
    requires chained { Chained (taken_at s (length zero.now) store.now) chains.old 0 }
    ensures { Chained (taken_at s (length zero.now) store.now) chains.new n }
{
    for i in 0..n {
        enter_taken(s, store, i, zero, chains);
    }
}

// Whether no record on chain b covers the key and counter of the one that is looked for, by a walk along the chain.
fn clear_on(
    s: Settings,
    store: &[u8],
    n: usize,
    zero: &[u8],
    q: &[u8],
    body_at: usize,
    c: SegmentCounter,
    b: usize,
    chains: &crate::Chains,
) -> bool
    requires zero_value { zero.now ≡ zero_row (length zero.now) }
    requires asked { Asked s q.now body_at }
    requires chained { Chained (taken_at s (length zero.now) store.now) chains.now n }
    requires b_lt_chains_all { b < chains_all }
    ensures { result ≡ clear_on s (length zero.now) store.now n (key_of q.now (read_packet s q.now)) c.0 b }
{
    let z = zero.len();
    let mut cur = chains.head(b);
    while let Some(j) = cur {
        if crate::covers_at(s, crate::row(store, z, j), zero, q, body_at, c) {
            return false;
        }
        cur = chains.next(j);
    }
    true
}

// Whether none on the two chains of a counter at a level does: those of its block x and of the one before, which is the top one if x is the first.
fn clear_at(
    s: Settings,
    store: &[u8],
    n: usize,
    zero: &[u8],
    q: &[u8],
    body_at: usize,
    c: SegmentCounter,
    m: u32,
    level: u32,
    x: u32,
    top: u32,
    chains: &crate::Chains,
) -> bool
    requires zero_value { zero.now ≡ zero_row (length zero.now) }
    requires asked { Asked s q.now body_at }
    requires chained { Chained (taken_at s (length zero.now) store.now) chains.now n }
    ensures { result ≡ clear_at s (length zero.now) store.now n (key_of q.now (read_packet s q.now)) c.0
        m level x top }
{
    let here = block_chain(m, level, x);
    let before = block_chain(m, level, prior(top, x));
    if !clear_on(s, store, n, zero, q, body_at, c, here, chains) {
        return false;
    }
    clear_on(s, store, n, zero, q, body_at, c, before, chains)
}

// The block before block x of those up to the top one: before the first comes the top one.
fn prior(top: u32, x: u32) -> u32
    ensures { result ≡ prior top x }
{
    if x == 0 {
        return top;
    }
    x - 1
}

// The same as `is_untaken` by walks along the two chains at each level, if the records stand on chains.
fn clear_near(
    s: Settings,
    store: &[u8],
    n: usize,
    zero: &[u8],
    q: &[u8],
    body_at: usize,
    c: SegmentCounter,
    chains: &crate::Chains,
) -> bool
    requires zero_value { zero.now ≡ zero_row (length zero.now) }
    requires asked { Asked s q.now body_at }
    requires chained { Chained (taken_at s (length zero.now) store.now) chains.now n }
    ensures { result ≡ untaken_to s (length zero.now) store.now n (key_of q.now (read_packet s q.now)) c.0 }
{
    let m = crate::mix_key(q, body_at);
    let mut x = c.0;
    let mut top = u32::MAX;
    for level in 0..=LEVELS_MOST {
        if !clear_at(s, store, n, zero, q, body_at, c, m, level, x, top, chains) {
            return false;
        }
        x = x / 2;
        top = top / 2;
    }
    true
}

// Whether no record in the first n cells covers the segment in cell i, told where its body begins; a cell that holds none passes.
fn untaken_at(
    s: Settings,
    store: &[u8],
    n: usize,
    zero: &[u8],
    i: usize,
    body_at: usize,
    chains: &crate::Chains,
) -> bool
    requires zero_value { zero.now ≡ zero_row (length zero.now) }
    requires body_at_value { body_at ≡ body_start s (length zero.now) store.now i }
    requires chained { Chained (taken_at s (length zero.now) store.now) chains.now n }
    ensures { result ≡ untaken_in s (length zero.now) store.now n
        (cell_at s (length zero.now) store.now i) }
{
    if body_at == 0 {
        return true;
    }
    let q = crate::packet_in(crate::row(store, zero.len(), i));
    clear_near(s, store, n, zero, q, body_at, crate::counter_in(q), chains)
}

// Whether no segment in the first n cells lies in the range of a record there, told where the body of each segment begins, if the records
// stand on chains.
fn untaken_all(
    s: Settings,
    store: &[u8],
    n: usize,
    zero: &[u8],
    bodies: &[u16; crate::CELLS_MOST],
    chains: &crate::Chains,
) -> bool
    requires zero_value { zero.now ≡ zero_row (length zero.now) }
    requires n_le_cells_most { n ≤ cells_most }
    requires bodies { Bodies s (length zero.now) store.now bodies.now n }
    requires chained { Chained (taken_at s (length zero.now) store.now) chains.now n }
    ensures { result ≡ untaken s (length zero.now) store.now n }
{
    for i in 0..n {
        if !untaken_at(s, store, n, zero, i, usize::from(bodies[i]), chains) {
            return false;
        }
    }
    true
}

// The same by chains of its own: each record goes onto the chain of its key and of the block of counters in which it begins, and each segment is
// compared whole with those on two chains at each level.
fn untaken_chained(
    s: Settings,
    store: &[u8],
    n: usize,
    zero: &[u8],
    bodies: &[u16; crate::CELLS_MOST],
) -> bool
    requires zero_value { zero.now ≡ zero_row (length zero.now) }
    requires n_le_cells_most { n ≤ cells_most }
    requires bodies { Bodies s (length zero.now) store.now bodies.now n }
    ensures { result ≡ untaken s (length zero.now) store.now n }
{
    let mut chains = crate::Chains::new();
    chain_taken(s, store, n, zero, &mut chains);
    untaken_all(s, store, n, zero, bodies, &chains)
}

// The same: without records nothing is searched, and no chains are made.
pub fn untaken_by(
    s: Settings,
    store: &[u8],
    n: usize,
    zero: &[u8],
    bodies: &[u16; crate::CELLS_MOST],
) -> bool
    requires zero_value { zero.now ≡ zero_row (length zero.now) }
    requires n_le_cells_most { n ≤ cells_most }
    requires bodies { Bodies s (length zero.now) store.now bodies.now n }
    ensures { result ≡ untaken s (length zero.now) store.now n }
{
    if no_marks(store, n, zero.len()) {
        return true;
    }
    untaken_chained(s, store, n, zero, bodies)
}
