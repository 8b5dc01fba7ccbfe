// Moving a store to cells of another size, there and back: from cells of 1,024 octets to cells of 2,048, and the other way.
//
// Each cell goes to the cell of its number in a store that is lent, with zeros after what it held; free cells, held segments and taken records
// stay what they are. What the other store held before does not matter, and the one that is moved is not changed. A move that is refused
// writes nothing. The way back is refused by 32 if a packet is too long for the smaller cells, and names the lowest cell with such a one.
#![tactic(auto)]

ghost use Rattle.std.specs.Prelude.{◌≡◌, ◌*◌, ◌≤◌, length, IfOk};
ghost use Rattle.std.proofs.lemmas.List.Edits.{sets};
ghost use Rattle.octets.specs.Octets.{Octets};
ghost use Rattle.cells.specs.Rows.{zero_row, row_at};
ghost use Rattle.cells.specs.Order.{cell_size, wide_size, count_in};
ghost use Rattle.moving.specs.Moving.{row_as, rows_as, too_long, first_too_long, target_by};
ghost use Rattle.moving.specs.Told.{moved_of};
ghost use Rattle.moving.specs.Answer.{moved};

use cells::{CELL, CELL_WIDE, MARK_SIZE};
use walk::{Refused, Settings};

// Why a store is not moved, and beside a packet that is too long the lowest cell with one; 0 beside all else.
#[derive(Clone, Copy, Debug, PartialEq, Eq)]
pub struct Unmoved {
    pub refused: Refused,
    pub cell: usize,
}

// Whether a row holds a packet that does not fit z octets after the mark. Most fit, and are not judged again.
fn is_too_long(s: Settings, row: &[u8], zero: &[u8], z: usize) -> bool
    requires { zero.now ≡ zero_row (length zero.now) }
    ensures { result ≡ too_long s (length zero.now) z row.now }
{
    let p = cells::packet_in(row);
    if MARK_SIZE + p.len() <= z {
        return false;
    }
    cells::judge(s, row, zero).is_held()
}

// The lowest of the first n cells that holds such a packet; n if there is none.
fn first_too_long(s: Settings, store: &[u8], n: usize, zero: &[u8], z: usize) -> usize
    requires { zero.now ≡ zero_row (length zero.now) }
    ensures { result ≡ first_too_long s (length zero.now) z store.now n }
{
    (0..n)
        .find(|i| is_too_long(s, cells::row(store, zero.len(), *i), zero, z))
        .unwrap_or(n)
}

// A row goes over cell i of a store, as one of the size of the zero cell: zeros come after it.
fn put_as(store: &mut [u8], i: usize, row: &[u8], zero: &[u8])
    requires zero_value { zero.now ≡ zero_row (length zero.now) }
    requires zero_in_bounds { i * length zero.now ≤ length store.old }
    ensures { store.new ≡ sets store.old (i * length zero.now)
        (row_as (length zero.now) row.now) }
{
    let z = zero.len();
    let at = octets::place(store.len(), z, i);
    let fore = cells::span(row, 0, z);
    let aft = cells::span(zero, 0, octets::less(z, fore.len()));
    octets::copy(store, at, fore);
    octets::copy(store, at + fore.len(), aft);
}

// The first n cells go to those of a store that is as long as n of them.
fn put_rows(store: &[u8], y: usize, n: usize, target: &mut [u8], zero: &[u8])
    requires zero_value { zero.now ≡ zero_row (length zero.now) }
    requires target_len { length target.old ≡ n * length zero.now }
    ensures { target.new ≡ rows_as y (length zero.now) store.now n }
{
    for i in 0..n {
        put_as(target, i, cells::row(store, y, i), zero);
    }
}

// Whether a store may move into a target of so many octets, with cells of z octets: how many cells it has.
fn test(s: Settings, store: &[u8], zero: &[u8], len: usize, z: usize) -> Result<usize, Unmoved>
    requires zero_value { zero.now ≡ zero_row (length zero.now) }
    requires z_le_wide_size { z ≤ wide_size }
    ensures value { moved result ≡ moved_of s (length zero.now) z store.now len }
    ensures cells { IfOk result (λ n. n ≡ count_in (length zero.now) store.now) }
{
    let n = match cells::opening::check(s, store, zero) {
        Ok(n) => n,
        Err(r) => {
            return Err(Unmoved {
                refused: r,
                cell: 0,
            });
        }
    };
    if len != n * z {
        return Err(Unmoved {
            refused: Refused::Order,
            cell: 0,
        });
    }
    let i = first_too_long(s, store, n, zero, z);
    if i < n {
        return Err(Unmoved {
            refused: Refused::PacketLong,
            cell: i,
        });
    }
    Ok(n)
}

// The move between cells of two sizes, those of the two zero cells. Only a move that is not refused writes.
fn move_by(
    s: Settings,
    store: &[u8],
    from: &[u8],
    target: &mut [u8],
    to: &[u8],
) -> Result<(), Unmoved>
    requires from_value { from.now ≡ zero_row (length from.now) }
    requires to_value { to.now ≡ zero_row (length to.now) }
    requires to_len_bound { length to.now ≤ wide_size }
    ensures value { moved result ≡ moved_of s (length from.now) (length to.now) store.now (length target.old) }
    ensures target_after { target.new ≡ target_by s (length from.now) (length to.now) store.now target.old }
{
    match test(s, store, from, target.len(), to.len()) {
        Ok(n) => {
            put_rows(store, from.len(), n, target, to);
            Ok(())
        }
        Err(u) => Err(u),
    }
}

// A store with cells of 1,024 octets moves to one with cells of 2,048.
pub fn there(s: Settings, old: &[u8], new: &mut [u8]) -> Result<(), Unmoved>
    ensures value { moved result ≡ moved_of s cell_size wide_size old.now (length new.old) }
    ensures after { new.new ≡ target_by s cell_size wide_size old.now new.old }
    ensures octets { Octets old.now }
{
    let narrow = [0u8; CELL];
    let wide = [0u8; CELL_WIDE];
    move_by(s, old, &narrow, new, &wide)
}

// And back.
pub fn back(s: Settings, new: &[u8], old: &mut [u8]) -> Result<(), Unmoved>
    ensures value { moved result ≡ moved_of s wide_size cell_size new.now (length old.old) }
    ensures after { old.new ≡ target_by s wide_size cell_size new.now old.old }
    ensures octets { Octets new.now }
{
    let narrow = [0u8; CELL];
    let wide = [0u8; CELL_WIDE];
    move_by(s, new, &wide, old, &narrow)
}
