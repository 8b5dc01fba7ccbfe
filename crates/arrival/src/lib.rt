// Arrival at the store: what a packet comes to, and the cell that a new segment goes to. One of a message that was taken goes to none.
//
// The store is any octets here, and the size of a cell is that of the zero cell lent: settings and the store's order are tested by
// `store::arrive`, or by whoever keeps a store in order.
#![tactic(auto)]

ghost use Rattle.std.specs.Prelude.{◌≡◌, ◌+◌, ◌≤◌, length};
ghost use Rattle.octets.specs.Octets.{alike};
ghost use Rattle.cells.specs.Segments.{same_rest};
ghost use Rattle.cells.specs.Rows.{row_at, zero_row};
ghost use Rattle.packet.specs.Reading.{read_packet};
ghost use Rattle.packet.specs.Decoded.{decoded};
ghost use Rattle.packet.specs.Key.{key_of};
ghost use Rattle.cells.specs.Order.{lowest, found_in};
ghost use Rattle.cells.specs.Inner.{Asked};
ghost use Rattle.cells.specs.Chains.{bucket_at, Chained};
ghost use Rattle.cells.specs.Pieces.{seg_in};
ghost use Rattle.arrival.specs.Arriving.{placed, segment_arrived, segment_came, arrived_in, store_with};
ghost use Rattle.arrival.specs.Answer.{arrival_answer};
ghost use Rattle.arrival.specs.Told.{arrival_of};
ghost use Rattle.arrival.specs.Inner.{seg_with, unplaced_of};

use cells::Chains;
use packet::{Header, UNSEGMENTED};
use walk::{Refused, Settings};

// What an arrival that is not refused is answered.
#[derive(Clone, Copy, PartialEq, Eq)]
pub enum Kind {
    Whole,
    Stored,
    Held,
    Taken,
}

// Whether the segment of a held cell has these flags and this body.
fn is_same(s: Settings, row: &[u8], p: &[u8], flags: u8, at: usize, long: usize) -> bool
    ensures { result ≡ same_rest (seg_in s row.now) (seg_with s p.now flags at long 0) }
{
    let q = cells::packet_in(row);
    let t = cells::messages::piece_in(s, row);
    cells::same_rest(q, t.flags, t.at, t.length, p, flags, at, long)
}

// A new segment at the first n cells.
fn store_new(store: &mut [u8], n: usize, zero: &[u8], p: &[u8]) -> Result<Kind, Refused>
    requires zero_value { zero.now ≡ zero_row (length zero.now) }
    requires p_in_bounds { 2 + length p.now ≤ length zero.now }
    ensures value { arrival_answer result ≡ arrival_of (placed n (lowest (λ j. alike (row_at (length zero.now) store.old j) zero.now) n 0)) }
    ensures store_after { store.new ≡ store_with (length zero.now) store.old p.now
        (placed n (lowest (λ j. alike (row_at (length zero.now) store.old j) zero.now) n 0)) }
{
    let i = cells::lowest_free(store, n, zero);
    if n <= i {
        return Err(Refused::Full);
    }
    cells::put_cell(store, zero.len(), i, p);
    Ok(Kind::Stored)
}

// What a segment comes to that a record covers, or that does not fit a cell: taken comes first.
fn unplaced(untaken: bool) -> Result<Kind, Refused>
    ensures { arrival_answer result ≡ arrival_of (unplaced_of untaken) }
{
    if untaken {
        return Err(Refused::Cell);
    }
    Ok(Kind::Taken)
}

// A segment that fits a cell, with what reading answered of it, at the first n cells, told the lowest that holds its key and counter: n
// if there is none.
fn store_found(
    s: Settings,
    store: &mut [u8],
    n: usize,
    zero: &[u8],
    p: &[u8],
    h: Header,
    j: usize,
) -> Result<Kind, Refused>
    requires zero_value { zero.now ≡ zero_row (length zero.now) }
    requires p_in_bounds { 2 + length p.now ≤ length zero.now }
    requires j_value { j ≡ found_in s (length zero.now) store.old n (key_of p.now (read_packet s p.now)) h.ids.counter.0 }
    ensures value { arrival_answer result ≡ arrival_of (segment_arrived s (length zero.now) store.old n
        (seg_with s p.now h.primary.flags h.body.at h.body.length h.ids.counter.0)) }
    ensures store_after { store.new ≡ store_with (length zero.now) store.old p.now
        (segment_arrived s (length zero.now) store.old n
        (seg_with s p.now h.primary.flags h.body.at h.body.length h.ids.counter.0)) }
{
    if n <= j {
        return store_new(store, n, zero, p);
    }
    if is_same(
        s,
        cells::row(store, zero.len(), j),
        p,
        h.primary.flags,
        h.body.at,
        h.body.length,
    ) {
        return Ok(Kind::Held);
    }
    Err(Refused::Contradicts)
}

// A segment, with what reading answered of it, at the first n cells, told the lowest that holds its key and counter.
fn store_segment(
    s: Settings,
    store: &mut [u8],
    n: usize,
    zero: &[u8],
    p: &[u8],
    h: Header,
    j: usize,
) -> Result<Kind, Refused>
    requires zero_value { zero.now ≡ zero_row (length zero.now) }
    requires asked { Asked s p.now h.body.at }
    requires j_value { j ≡ found_in s (length zero.now) store.old n (key_of p.now (read_packet s p.now)) h.ids.counter.0 }
    ensures value { arrival_answer result ≡ arrival_of (segment_came s (length zero.now) store.old n
        (seg_with s p.now h.primary.flags h.body.at h.body.length h.ids.counter.0) (length p.now)) }
    ensures store_after { store.new ≡ store_with (length zero.now) store.old p.now
        (segment_came s (length zero.now) store.old n
        (seg_with s p.now h.primary.flags h.body.at h.body.length h.ids.counter.0) (length p.now)) }
{
    let untaken = cells::is_untaken(s, store, n, zero, p, h.body.at, h.ids.counter);
    let fits = 2 + p.len() <= zero.len();
    if octets::both(untaken, fits) {
        return store_found(s, store, n, zero, p, h, j);
    }
    unplaced(untaken)
}

// A packet, with what reading answered of it, at the first n cells of any octets, beside a zero cell.
pub fn arrive_in(
    s: Settings,
    store: &mut [u8],
    n: usize,
    zero: &[u8],
    p: &[u8],
    h: Result<Header, Refused>,
) -> Result<Kind, Refused>
    requires zero_value { zero.now ≡ zero_row (length zero.now) }
    requires h_value { decoded h ≡ read_packet s p.now }
    ensures value { arrival_answer result ≡ arrival_of (arrived_in s (length zero.now) store.old n p.now) }
    ensures store_after { store.new ≡ store_with (length zero.now) store.old p.now
        (arrived_in s (length zero.now) store.old n p.now) }
{
    let h = h?;
    if h.primary.flags == UNSEGMENTED {
        return Ok(Kind::Whole);
    }
    let j = cells::find(s, store, n, zero, p, h.body.at, h.ids.counter);
    store_segment(s, store, n, zero, p, h, j)
}

// The same by chains that lead through these cells; the packet is read here.
pub fn arrive_by(
    s: Settings,
    store: &mut [u8],
    n: usize,
    zero: &[u8],
    p: &[u8],
    chains: &Chains,
) -> Result<Kind, Refused>
    requires zero_value { zero.now ≡ zero_row (length zero.now) }
    requires chained { Chained (bucket_at s (length zero.now) store.old) chains.now n }
    ensures value { arrival_answer result ≡ arrival_of (arrived_in s (length zero.now) store.old n p.now) }
    ensures store_after { store.new ≡ store_with (length zero.now) store.old p.now
        (arrived_in s (length zero.now) store.old n p.now) }
{
    let h = packet::read(s, p)?;
    if h.primary.flags == UNSEGMENTED {
        return Ok(Kind::Whole);
    }
    let j = cells::find_by(s, store, n, zero, p, h.body.at, h.ids.counter, Some(chains));
    store_segment(s, store, n, zero, p, h, j)
}
