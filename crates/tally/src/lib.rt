// What is left in a store: how many segments it holds, how many different keys these have, of each cell whose segment it holds, and how many
// cells have a taken record.
//
// All segments of a message have one key, so there are at least as many messages as keys; two messages of one key count once. A cell
// that is neither free nor held counts for nothing, and a store whose length does not fit has no cells. Each held cell is looked for
// among those below it, so the time grows with the square of the cells: this is for a store of a few dozen, looked at once.
#![tactic(auto)]

ghost use Rattle.std.specs.Prelude.{◌≡◌, ◌+◌, ◌≤◌, ◌<◌, length};
ghost use Rattle.packet.specs.Reading.{read_packet};
ghost use Rattle.packet.specs.Key.{key_of};
ghost use Rattle.cells.specs.Segments.{both};
ghost use Rattle.cells.specs.Rows.{zero_row, cell_of};
ghost use Rattle.cells.specs.Order.{cell_at, cell_size};
ghost use Rattle.cells.specs.Inner.{Asked};
ghost use Rattle.taking.specs.Forgetting.{is_record};
ghost use Rattle.tally.specs.Counting.{is_held, keyed as keyed_as, new_key_to, new_key_in, segments_in, keys_in, left_in, records_to, records_in};
ghost use Rattle.cells.specs.Segments.{seg_of};
ghost use Rattle.tally.specs.Telling.{key_at, told_by, told_at};

use cells::Judged;
use walk::Settings;

// The segments held, and the different keys among them.
#[derive(Clone, Copy)]
pub struct Tallied {
    pub segments: usize,
    pub keys: usize,
}

// Whether a row is that of a held cell.
fn held(s: Settings, row: &[u8], zero: &[u8]) -> bool
    requires { zero.now ≡ zero_row (length zero.now) }
    ensures { result ≡ is_held (cell_of s (length zero.now) row.now) }
{
    cells::judge(s, row, zero).is_held()
}

// Whether a row holds a segment with the key of q, told where its body begins.
fn keyed(s: Settings, row: &[u8], zero: &[u8], q: &[u8], body_at: usize) -> bool
    requires zero_value { zero.now ≡ zero_row (length zero.now) }
    requires asked { Asked s q.now body_at }
    ensures { result ≡ keyed_as (key_of q.now (read_packet s q.now)) (cell_of s (length zero.now) row.now) }
{
    match cells::judge(s, row, zero) {
        Judged::Held { at, .. } => cells::same_key(q, body_at, cells::packet_in(row), at),
        _ => false,
    }
}

// Whether none of the first n cells holds a segment with the key of q.
fn new_key(s: Settings, store: &[u8], n: usize, zero: &[u8], q: &[u8], body_at: usize) -> bool
    requires zero_value { zero.now ≡ zero_row (length zero.now) }
    requires asked { Asked s q.now body_at }
    ensures { result ≡ new_key_to s (length zero.now) store.now n (key_of q.now (read_packet s q.now)) }
{
    let z = zero.len();
    for j in 0..n {
        if keyed(s, cells::row(store, z, j), zero, q, body_at) {
            return false;
        }
    }
    true
}

// Whether cell i is held, and no cell below it has its key.
fn first(s: Settings, store: &[u8], i: usize, zero: &[u8]) -> bool
    requires { zero.now ≡ zero_row (length zero.now) }
    ensures { result ≡ new_key_in s (length zero.now) store.now i (cell_at s (length zero.now) store.now i) }
{
    let r = cells::row(store, zero.len(), i);
    match cells::judge(s, r, zero) {
        Judged::Held { at, .. } => new_key(s, store, i, zero, cells::packet_in(r), at),
        _ => false,
    }
}

// How many of the first n cells are held.
fn segments(s: Settings, store: &[u8], n: usize, zero: &[u8]) -> usize
    requires { zero.now ≡ zero_row (length zero.now) }
    ensures { result ≡ segments_in s (length zero.now) store.now n }
{
    let z = zero.len();
    let mut count: usize = 0;
    for i in 0..n {
        count += usize::from(held(s, cells::row(store, z, i), zero));
    }
    count
}

// How many different keys the first n cells have.
fn keys(s: Settings, store: &[u8], n: usize, zero: &[u8]) -> usize
    requires { zero.now ≡ zero_row (length zero.now) }
    ensures { result ≡ keys_in s (length zero.now) store.now n }
{
    let mut count: usize = 0;
    for i in 0..n {
        count += usize::from(first(s, store, i, zero));
    }
    count
}

// The segments left in a store, and their keys.
pub fn left(s: Settings, store: &[u8]) -> Tallied
    ensures { result ≡ left_in s cell_size store.now }
{
    let zero = [0u8; cells::CELL];
    let n = cells::count(store.len(), zero.len());
    let all = segments(s, store, n, &zero);
    let different = keys(s, store, n, &zero);
    Tallied {
        segments: all,
        keys: different,
    }
}

// Whether a row is a taken record.
fn taken(s: Settings, row: &[u8], zero: &[u8]) -> bool
    requires { zero.now ≡ zero_row (length zero.now) }
    ensures { result ≡ is_record (cell_of s (length zero.now) row.now) }
{
    cells::judge(s, row, zero).is_taken()
}

// How many of the first n cells have a taken record.
fn records_to(s: Settings, store: &[u8], n: usize, zero: &[u8]) -> usize
    requires { zero.now ≡ zero_row (length zero.now) }
    ensures { result ≡ records_to s (length zero.now) store.now n }
{
    let z = zero.len();
    let mut count: usize = 0;
    for i in 0..n {
        count += usize::from(taken(s, cells::row(store, z, i), zero));
    }
    count
}

// The taken records in a store.
pub fn records(s: Settings, store: &[u8]) -> usize
    ensures { result ≡ records_in s cell_size store.now }
{
    let zero = [0u8; cells::CELL];
    let n = cells::count(store.len(), zero.len());
    records_to(s, store, n, &zero)
}

// What a held cell tells: the lowest cell of its key, which may be its own; packet type, APID, SDU type and transaction id; and
// which segment it is, by sequence flags (1 first, 0 continuation, 2 last) and counter.
#[derive(Clone, Copy)]
pub struct Told {
    pub key: usize,
    pub packet_type: u8,
    pub apid: u16,
    pub sdu: u8,
    pub transaction: u64,
    pub flags: u8,
    pub counter: u32,
}

// The lowest of the first n cells that holds a segment with the key of q, whose body begins at `body_at`; n if there is none.
fn key_at(s: Settings, store: &[u8], n: usize, zero: &[u8], q: &[u8], body_at: usize) -> usize
    requires zero_value { zero.now ≡ zero_row (length zero.now) }
    requires asked { Asked s q.now body_at }
    ensures { result ≡ key_at s (length zero.now) store.now n (key_of q.now (read_packet s q.now)) }
{
    let z = zero.len();
    for j in 0..n {
        if keyed(s, cells::row(store, z, j), zero, q, body_at) {
            return j;
        }
    }
    n
}

// What a segment in cell i tells.
fn told_of(
    s: Settings,
    store: &[u8],
    i: usize,
    zero: &[u8],
    q: &[u8],
    body_at: usize,
) -> Option<Told>
    requires zero_value { zero.now ≡ zero_row (length zero.now) }
    requires asked { Asked s q.now body_at }
    ensures { result ≡ told_by s (length zero.now) store.now i (read_packet s q.now)
        (seg_of q.now (read_packet s q.now)) }
{
    match packet::read(s, q) {
        Ok(h) => Some(Told {
            key: key_at(s, store, i, zero, q, body_at),
            packet_type: h.primary.packet_type,
            apid: h.primary.apid.0,
            sdu: h.fixed.sdu,
            transaction: h.fixed.transaction,
            flags: h.primary.flags,
            counter: h.ids.counter.0,
        }),
        Err(_) => None,
    }
}

// What cell i tells, if it is held.
fn told_at(s: Settings, store: &[u8], i: usize, zero: &[u8]) -> Option<Told>
    requires { zero.now ≡ zero_row (length zero.now) }
    ensures { result ≡ told_at s (length zero.now) store.now i }
{
    let r = cells::row(store, zero.len(), i);
    let Judged::Held { at, .. } = cells::judge(s, r, zero) else {
        return None;
    };
    told_of(s, store, i, zero, cells::packet_in(r), at)
}

// What cell i of a store tells, if it is held, for any octets.
pub fn cell(s: Settings, store: &[u8], i: usize) -> Option<Told>
    ensures { result ≡ told_at s cell_size store.now i }
{
    let zero = [0u8; cells::CELL];
    told_at(s, store, i, &zero)
}
