// Forgetting a taken record: its cell becomes zero, and nothing else changes. A repeat of the message's segments is new again then.
//
// The store is any octets here, as in `taking`.
ghost use Rattle.std.specs.Prelude.{◌≡◌, length};
ghost use Rattle.walk.specs.Walk.{refusal as refusal_of};
ghost use Rattle.walk.specs.Told.{said};
ghost use Rattle.cells.specs.Rows.{zero_row, cell_of};
ghost use Rattle.taking.specs.Forgetting.{is_record, lowest_record, forgot_in, store_unless};

use walk::{Refused, Settings};

// Whether a row is a taken record.
fn is_record(s: Settings, row: &[u8], zero: &[u8]) -> bool
    requires { zero.now ≡ zero_row (length zero.now) }
    ensures { result ≡ is_record (cell_of s (length zero.now) row.now) }
{
    cells::judge(s, row, zero).is_taken()
}

// The lowest of the first n cells with a record; n if there is none.
pub fn lowest_record(s: Settings, store: &[u8], n: usize, zero: &[u8]) -> usize
    requires { zero.now ≡ zero_row (length zero.now) }
    ensures { result ≡ lowest_record s (length zero.now) store.now n }
{
    let z = zero.len();
    for i in 0..n {
        if is_record(s, cells::row(store, z, i), zero) {
            return i;
        }
    }
    n
}

// The record in one of the first n cells is forgotten.
pub fn forget_in(
    s: Settings,
    store: &mut [u8],
    n: usize,
    zero: &[u8],
    number: usize,
) -> Result<(), Refused>
    requires { zero.now ≡ zero_row (length zero.now) }
    ensures value { said result ≡ refusal_of (forgot_in s (length zero.now) store.old n number) }
    ensures store_after { store.new ≡ store_unless (forgot_in s (length zero.now) store.old n number)
        (length zero.now) store.old number }
{
    if n <= number {
        return Err(Refused::NoRecord);
    }
    if !is_record(s, cells::row(store, zero.len(), number), zero) {
        return Err(Refused::NoRecord);
    }
    crate::clearing::put_row(store, number, zero);
    Ok(())
}
