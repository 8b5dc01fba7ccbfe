// Clearing the cells of a message that is taken: its first's cell becomes the record of it, its others become zero, and every other octet
// of the store stays.
//
// It goes once over the cells, by key and counters, and knows nothing of messages: which cells those are is for `taking` to say.
ghost use Rattle.std.specs.Prelude.{◌≡◌, ◌∷◌, ◌++◌, ◌+◌, ◌*◌, ◌≤◌, length};
ghost use Rattle.std.proofs.lemmas.List.Edits.{sets};
ghost use Rattle.octets.specs.Octets.{wide};
ghost use Rattle.packet.specs.Format.{counter_width};
ghost use Rattle.packet.specs.Numbers.{next_counter};
ghost use Rattle.sender.specs.Sending.{steps_of};
ghost use Rattle.cells.specs.Rows.{zero_row, mark_first, mark_taken, mark_size};
ghost use Rattle.cells.specs.Order.{cell_at};
ghost use Rattle.taking.specs.Cleared.{laid_at, cleared_to, left_within};

use packet::SegmentCounter;
use walk::Settings;

// The two octets of the mark of a taken record.
const RECORD_MARK: u64 = 0x4d54;

// A row goes over cell i.
pub fn put_row(store: &mut [u8], i: usize, row: &[u8])
    ensures { store.new ≡ sets store.old (i * length row.now) row.now }
{
    let at = octets::place(store.len(), row.len(), i);
    octets::copy(store, at, row);
}

// The mark, a key and two counters into cell i, if they lie inside the store.
fn put_record(
    store: &mut [u8],
    z: usize,
    i: usize,
    key: &[u8],
    first: SegmentCounter,
    last: SegmentCounter,
)
    requires { i * z + (mark_size + length key.now + 2 * counter_width) ≤ length store.old }
    ensures { store.new ≡ sets store.old (i * z)
        (mark_first ∷ mark_taken ∷ key.now ++ wide counter_width first.0 ++ wide counter_width last.0) }
{
    let at = octets::place(store.len(), z, i);
    let after_mark = octets::lay_number(store, at, cells::MARK_SIZE, RECORD_MARK);
    let after_key = octets::lay(store, after_mark, key);
    let after_first = octets::lay_number(store, after_key, packet::COUNTER, first.0 as u64);
    octets::lay_number(store, after_first, packet::COUNTER, last.0 as u64);
}

// What is left in cell i, if it holds a segment of this key, its counter the first or one of so many steps after it, up to the last: of the
// first the record, of any other zeros.
fn leave(
    s: Settings,
    store: &mut [u8],
    i: usize,
    zero: &[u8],
    key: &[u8],
    first: SegmentCounter,
    steps: u32,
    last: SegmentCounter,
)
    requires zero_value { zero.now ≡ zero_row (length zero.now) }
    requires counter_width_in_bounds { mark_size + length key.now + 2 * counter_width ≤ length zero.now }
    requires last_value { last.0 ≡ steps_of next_counter steps first.0 }
    ensures { store.new ≡ laid_at (length zero.now) i
        (left_within (length zero.now) key.now first.0 steps (cell_at s (length zero.now) store.old i))
        store.old }
{
    let row = cells::row(store, zero.len(), i);
    if !cells::is_within(s, row, zero, key, first, steps) {
        return;
    }
    let c = cells::counter_in(cells::packet_in(row));
    put_row(store, i, zero);
    if first.0 != c.0 {
        return;
    }
    put_record(store, zero.len(), i, key, first, last);
}

// The same for each of the first n cells.
pub fn clear(
    s: Settings,
    store: &mut [u8],
    n: usize,
    zero: &[u8],
    key: &[u8],
    first: SegmentCounter,
    steps: u32,
)
    requires zero_value { zero.now ≡ zero_row (length zero.now) }
    requires counter_width_in_bounds { mark_size + length key.now + 2 * counter_width ≤ length zero.now }
    ensures { store.new ≡ cleared_to (λ i. left_within (length zero.now) key.now first.0 steps
        (cell_at s (length zero.now) store.old i)) (length zero.now) n store.old }
{
    let last = sender::counter_after(first, steps as usize);
    for i in 0..n {
        leave(s, store, i, zero, key, first, steps, last);
    }
}
