// Taking from the store: the complete message with its first in the lowest cell is found and written out; the record of it
// stands in the cell of its first then, and its other cells are freed.
//
// The store is any octets here, and the size of a cell is that of the zero cell lent: settings and the store's order are tested by
// `store::take`, or by whoever keeps a store in order.
#![tactic(auto)]

pub mod clearing;
pub mod forgetting;

ghost use Rattle.std.specs.Prelude.{◌≡◌, ◌∷◌, ◌++◌, ◌+◌, ◌/◌, ◌≤◌, ◌<◌, length};
ghost use Rattle.std.proofs.lemmas.List.Edits.{sets};
ghost use Rattle.octets.specs.Octets.{octet_at, part};
ghost use Rattle.packet.specs.Reading.{read_packet};
ghost use Rattle.packet.specs.Decoded.{whole};
ghost use Rattle.packet.specs.Key.{key_of};
ghost use Rattle.packet.specs.Numbers.{next_counter, steps_most};
ghost use Rattle.packet.specs.Format.{packet_most};
ghost use Rattle.cells.specs.Rows.{zero_row, row_at, packet_in, held};
ghost use Rattle.cells.specs.Order.{cells_most, lowest, cell_at};
ghost use Rattle.cells.specs.Inner.{Asked};
ghost use Rattle.cells.specs.Chains.{bucket_at, Chained};
ghost use Rattle.cells.specs.Messages.{cells_of, run_in, picked};
ghost use Rattle.taking.specs.Taking.{took_in, out_with, store_less};
ghost use Rattle.taking.specs.Answer.{taken_answer};
ghost use Rattle.taking.specs.Told.{taken_of};
ghost use Rattle.taking.specs.Inner.{piece_in};
ghost use Rattle.taking.specs.Follow.{seg_at, follow as followed, places_from, bodies_at, total, answer, opens_at, ends_at, picked_of};
ghost use Rattle.taking.specs.Follow.{copied_of, Lent, Ready, Opens};

use cells::messages::Piece;
use cells::{Chains, Judged};
use packet::{FIRST, Header, LAST, SegmentCounter};
use walk::{Refused, Settings};

// The most cells that a taking searches without chains: making them for so few does not pay for a message of few segments.
const SEARCH_MOST: usize = 64;

// The most steps from a message's first segment to its last.
const STEPS_MOST: u32 = packet::SEGMENTS_MOST as u32 - 1;

// What taking tells of a message: H, the octets of the body, and the first segment's counter.
#[derive(Clone, Copy)]
pub struct Taken {
    pub header: usize,
    pub body: usize,
    pub counter: SegmentCounter,
}

// A complete message: the cell of its first, and the octets of its body.
#[derive(Clone, Copy)]
struct Message {
    cell: usize,
    body: usize,
}

// A message that was copied: H, the counter of its first segment, and how many segments follow it.
#[derive(Clone, Copy)]
struct Copied {
    header: usize,
    counter: SegmentCounter,
    steps: u32,
}

// The segment in a cell that was found by the key of another, told where the other's body begins: so does this one's, and the header is
// not read again.
fn piece_with(row: &[u8], body_at: usize) -> Piece
    ensures { result ≡ piece_in row.now body_at }
{
    let p = cells::packet_in(row);
    let body = cells::span(p, body_at, p.len());
    Piece {
        flags: flags_in(row),
        at: body_at,
        length: body.len(),
    }
}

// The segments with the key of q whose counters follow the first, up to a last: the octets of their bodies and b, if the run is complete.
fn follow(
    s: Settings,
    store: &[u8],
    n: usize,
    zero: &[u8],
    q: &[u8],
    body_at: usize,
    first: SegmentCounter,
    b: usize,
    chains: Option<&Chains>,
) -> Option<usize>
    requires lent { Lent s zero.now store.now n chains }
    requires asked { Asked s q.now body_at × (b ≤ packet_most) }
    ensures { result ≡ total s (length zero.now) store.now b
        (followed next_counter steps_most s (length zero.now) store.now n (key_of q.now (read_packet s q.now))
        steps_most (next_counter first.0)) }
{
    let z = zero.len();
    let mut c = first;
    let mut sum = b;
    for _ in 0..STEPS_MOST {
        c = packet::next_segment_counter(c);
        let j = cells::find_by(s, store, n, zero, q, body_at, c, chains);
        if n <= j {
            return None;
        }
        let t = piece_with(cells::row(store, z, j), body_at);
        sum += t.length;
        if t.flags == FIRST {
            return None;
        }
        if t.flags == LAST {
            return Some(sum);
        }
    }
    None
}

// The sequence flags of the packet in a row.
fn flags_in(row: &[u8]) -> u8
    ensures { result ≡ octet_at row.now 4 / 64 }
{
    octets::octet(row, 4) / 64
}

// The lowest of the first n cells whose packet is a last segment; n if there is none, and then no message is complete.
fn lowest_last(store: &[u8], n: usize, z: usize) -> usize
    ensures { result ≡ lowest (ends_at z store.now) n 0 }
{
    (0..n)
        .find(|i| flags_in(cells::row(store, z, *i)) == LAST)
        .unwrap_or(n)
}

// How long the body of the message is that opens in cell i, if a complete one does.
fn run_at(
    s: Settings,
    store: &[u8],
    n: usize,
    zero: &[u8],
    i: usize,
    chains: Option<&Chains>,
) -> Option<usize>
    requires { Lent s zero.now store.now n chains }
    ensures { result ≡ answer (run_in next_counter steps_most (cells_of s (length zero.now) store.now n)
        (cell_at s (length zero.now) store.now i)) }
{
    let r = cells::row(store, zero.len(), i);
    if flags_in(r) != FIRST {
        return None;
    }
    let Judged::Held { at, counter: first } = cells::judge(s, r, zero) else {
        return None;
    };
    let q = cells::packet_in(r);
    follow(s, store, n, zero, q, at, first, q.len() - at, chains)
}

// The complete message with its first in the lowest cell.
fn pick_message(
    s: Settings,
    store: &[u8],
    n: usize,
    zero: &[u8],
    chains: Option<&Chains>,
) -> Option<Message>
    requires { Lent s zero.now store.now n chains }
    ensures { result ≡ picked_of next_counter steps_most s (length zero.now) store.now n }
{
    for cell in 0..n {
        if let Some(body) = run_at(s, store, n, zero, cell, chains) {
            return Some(Message { cell, body });
        }
    }
    None
}

// The key of a segment, told where its body begins, to the front of the output. The place after it.
fn put_key(s: Settings, out: &mut [u8], q: &[u8], body_at: usize) -> usize
    requires asked { Asked s q.now body_at }
    requires q_in_bounds { length (key_of q.now (read_packet s q.now)) ≤ length out.old }
    ensures value { result ≡ length (key_of q.now (read_packet s q.now)) }
    ensures out_after { out.new ≡ sets out.old 0 (key_of q.now (read_packet s q.now)) }
{
    let c = cells::counter_place(q);
    let ids = octets::lay(out, 0, cells::span(q, 0, 2));
    let fore = octets::lay(out, ids, cells::span(q, 6, c - 6));
    octets::lay(out, fore, cells::span(q, c + 4, body_at - (c + 4)))
}

// The body of the segment in a row to a place of the output. The place after it.
fn put_body(out: &mut [u8], at: usize, row: &[u8], t: Piece) -> usize
    requires { at + length (part (packet_in row.now) t.at t.length) ≤ length out.old }
    ensures value { result ≡ at + length (part (packet_in row.now) t.at t.length) }
    ensures out_after { out.new ≡ sets out.old at (part (packet_in row.now) t.at t.length) }
{
    let p = cells::packet_in(row);
    octets::lay(out, at, cells::span(p, t.at, t.length))
}

// The bodies of the segments whose counters follow the first of a complete run, to a place of the output. How many there are.
fn copy_rest(
    s: Settings,
    store: &[u8],
    n: usize,
    zero: &[u8],
    q: &[u8],
    body_at: usize,
    first: SegmentCounter,
    out: &mut [u8],
    place: usize,
    chains: Option<&Chains>,
) -> u32
    requires lent { Lent s zero.now store.now n chains }
    requires asked { Asked s q.now body_at }
    requires ready { Ready next_counter steps_most s (length zero.now) store.now n (key_of q.now (read_packet s q.now)) (next_counter first.0) place
        out.old }
    ensures value { result ≡ length (places_from next_counter steps_most s (length zero.now) store.now n
        (key_of q.now (read_packet s q.now)) (next_counter first.0)) }
    ensures out_after { out.new ≡ sets out.old place
        (bodies_at s (length zero.now) store.now
        (places_from next_counter steps_most s (length zero.now) store.now n (key_of q.now (read_packet s q.now))
        (next_counter first.0))) }
{
    let z = zero.len();
    let mut c = first;
    let mut at = place;
    for steps in 1..=STEPS_MOST {
        c = packet::next_segment_counter(c);
        let j = cells::find_by(s, store, n, zero, q, body_at, c, chains);
        let r = cells::row(store, z, j);
        let t = piece_with(r, body_at);
        at = put_body(out, at, r, t);
        if t.flags == LAST {
            return steps;
        }
    }
    STEPS_MOST
}

// The message that opens in cell i, with what reading answered of its first, to the output.
fn copy_message(
    s: Settings,
    store: &[u8],
    n: usize,
    zero: &[u8],
    i: usize,
    h: Header,
    out: &mut [u8],
    chains: Option<&Chains>,
) -> Copied
    requires lent { Lent s zero.now store.now n chains }
    requires h_value { whole h ≡ read_packet s (packet_in (row_at (length zero.now) store.now i)) }
    requires i_value { cell_at s (length zero.now) store.now i ≡ held (seg_at s (length zero.now) store.now i) }
    requires opens { Opens next_counter steps_most s (length zero.now) store.now n i out.old }
    ensures value { result ≡ copied_of (seg_at s (length zero.now) store.now i)
        (length (places_from next_counter steps_most s (length zero.now) store.now n
        (seg_at s (length zero.now) store.now i).key
        (next_counter (seg_at s (length zero.now) store.now i).counter))) }
    ensures out_after { out.new ≡ sets out.old 0
        ((seg_at s (length zero.now) store.now i).key ++ bodies_at s (length zero.now) store.now
        (i ∷ places_from next_counter steps_most s (length zero.now) store.now n
        (seg_at s (length zero.now) store.now i).key
        (next_counter (seg_at s (length zero.now) store.now i).counter))) }
{
    let r = cells::row(store, zero.len(), i);
    let q = cells::packet_in(r);
    let counter = h.ids.counter;
    let t = cells::messages::piece_in(s, r);
    let key = put_key(s, out, q, h.body.at);
    let at = put_body(out, key, r, t);
    let steps = copy_rest(s, store, n, zero, q, h.body.at, counter, out, at, chains);
    Copied {
        header: h.h,
        counter,
        steps,
    }
}

// The message that opens in cell i, with what reading answered of its first and b octets of body, to the output; just its cells are cleared.
fn draw(
    s: Settings,
    store: &mut [u8],
    n: usize,
    zero: &[u8],
    i: usize,
    h: Header,
    b: usize,
    out: &mut [u8],
    chains: Option<&Chains>,
) -> Taken
    requires lent { Lent s zero.now store.old n chains }
    requires h_value { whole h ≡ read_packet s (packet_in (row_at (length zero.now) store.old i)) }
    requires i_value { i ≡ lowest (opens_at next_counter steps_most s (length zero.now) store.old n) n 0 }
    requires i_lt_n { (i < n) × (Some b ≡ answer (picked next_counter steps_most (cells_of s (length zero.now) store.old n))) }
    requires b_in_bounds { length (seg_at s (length zero.now) store.old i).key + b ≤ length out.old }
    ensures value { taken_answer (Ok result) ≡ taken_of (took_in s (length zero.now) store.old n (length out.old)) }
    ensures out_after { out.new ≡ out_with out.old (took_in s (length zero.now) store.old n (length out.old)) }
    ensures store_after { store.new ≡ store_less s (length zero.now) store.old n
        (took_in s (length zero.now) store.old n (length out.old)) }
{
    let t = copy_message(s, store, n, zero, i, h, out, chains);
    let counter = t.counter;
    let key = cells::span(out, 0, 2 + t.header);
    crate::clearing::clear(s, store, n, zero, key, counter, t.steps);
    Taken {
        header: t.header,
        body: b,
        counter,
    }
}

// Taking from the first n cells of any octets, by their chains if they are made.
fn take_lowest(
    s: Settings,
    store: &mut [u8],
    n: usize,
    zero: &[u8],
    out: &mut [u8],
    chains: Option<&Chains>,
) -> Result<Taken, Refused>
    requires { Lent s zero.now store.old n chains }
    ensures value { taken_answer result ≡ taken_of (took_in s (length zero.now) store.old n (length out.old)) }
    ensures out_after { out.new ≡ out_with out.old (took_in s (length zero.now) store.old n (length out.old)) }
    ensures store_after { store.new ≡ store_less s (length zero.now) store.old n
        (took_in s (length zero.now) store.old n (length out.old)) }
{
    let Some(Message { cell, body }) = pick_message(s, store, n, zero, chains) else {
        return Err(Refused::Incomplete);
    };
    let h = packet::read(s, cells::packet_in(cells::row(store, zero.len(), cell)))?;
    let long = out.len();
    if long < 2 {
        return Err(Refused::Output);
    }
    if long - 2 < h.h {
        return Err(Refused::Output);
    }
    if long - 2 - h.h < body {
        return Err(Refused::Output);
    }
    Ok(draw(s, store, n, zero, cell, h, body, out, chains))
}

// The same by plain searches, without chains.
fn take_plain(
    s: Settings,
    store: &mut [u8],
    n: usize,
    zero: &[u8],
    out: &mut [u8],
) -> Result<Taken, Refused>
    requires { zero.now ≡ zero_row (length zero.now) }
    ensures value { taken_answer result ≡ taken_of (took_in s (length zero.now) store.old n (length out.old)) }
    ensures out_after { out.new ≡ out_with out.old (took_in s (length zero.now) store.old n (length out.old)) }
    ensures store_after { store.new ≡ store_less s (length zero.now) store.old n
        (took_in s (length zero.now) store.old n (length out.old)) }
{
    take_lowest(s, store, n, zero, out, None)
}

// The same by chains, which are made first.
fn take_chained(
    s: Settings,
    store: &mut [u8],
    n: usize,
    zero: &[u8],
    out: &mut [u8],
) -> Result<Taken, Refused>
    requires zero_value { zero.now ≡ zero_row (length zero.now) }
    requires n_le_cells_most { n ≤ cells_most }
    ensures value { taken_answer result ≡ taken_of (took_in s (length zero.now) store.old n (length out.old)) }
    ensures out_after { out.new ≡ out_with out.old (took_in s (length zero.now) store.old n (length out.old)) }
    ensures store_after { store.new ≡ store_less s (length zero.now) store.old n
        (took_in s (length zero.now) store.old n (length out.old)) }
{
    let mut chains = Chains::new();
    cells::order_by(s, store, n, zero, &mut chains);
    take_lowest(s, store, n, zero, out, Some(&chains))
}

// The same: without a last segment nothing is searched, and chains are made only for many cells.
pub fn take_in(
    s: Settings,
    store: &mut [u8],
    n: usize,
    zero: &[u8],
    out: &mut [u8],
) -> Result<Taken, Refused>
    requires { zero.now ≡ zero_row (length zero.now) }
    ensures value { taken_answer result ≡ taken_of (took_in s (length zero.now) store.old n (length out.old)) }
    ensures out_after { out.new ≡ out_with out.old (took_in s (length zero.now) store.old n (length out.old)) }
    ensures store_after { store.new ≡ store_less s (length zero.now) store.old n
        (took_in s (length zero.now) store.old n (length out.old)) }
{
    if n <= lowest_last(store, n, zero.len()) {
        return Err(Refused::Incomplete);
    }
    if n <= SEARCH_MOST {
        return take_plain(s, store, n, zero, out);
    }
    if cells::CELLS_MOST < n {
        return take_plain(s, store, n, zero, out);
    }
    take_chained(s, store, n, zero, out)
}

// The same by chains that lead through these cells already.
pub fn take_by(
    s: Settings,
    store: &mut [u8],
    n: usize,
    zero: &[u8],
    out: &mut [u8],
    chains: &Chains,
) -> Result<Taken, Refused>
    requires zero_value { zero.now ≡ zero_row (length zero.now) }
    requires chained { Chained (bucket_at s (length zero.now) store.old) chains.now n }
    ensures value { taken_answer result ≡ taken_of (took_in s (length zero.now) store.old n (length out.old)) }
    ensures out_after { out.new ≡ out_with out.old (took_in s (length zero.now) store.old n (length out.old)) }
    ensures store_after { store.new ≡ store_less s (length zero.now) store.old n
        (took_in s (length zero.now) store.old n (length out.old)) }
{
    if n <= lowest_last(store, n, zero.len()) {
        return Err(Refused::Incomplete);
    }
    take_lowest(s, store, n, zero, out, Some(chains))
}
