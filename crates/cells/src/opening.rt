// The check before any call on a store: the settings, and the store's order.
//
// `store` and `join` begin with it. What follows there holds for any octets, so whoever keeps a store in order saves the check.
ghost use Rattle.std.specs.Prelude.{◌≡◌, length, IfOk};
ghost use Rattle.cells.specs.Rows.{zero_row};
ghost use Rattle.cells.specs.Opening.{opened, opened_of};
ghost use Rattle.cells.specs.Chains.{bucket_at, Chained};

use walk::{Refused, Settings};

// The settings and the order of the store are checked: how many cells a store has that passes. The tables lent, which chain no cell yet, then chain the cells of a store that passes.
pub fn check_by(
    s: Settings,
    store: &[u8],
    zero: &[u8],
    chains: &mut crate::Chains,
) -> Result<usize, Refused>
    requires zero_value { zero.now ≡ zero_row (length zero.now) }
    requires chained { Chained (bucket_at s (length zero.now) store.now) chains.old 0 }
    ensures value { opened result ≡ opened_of s (length zero.now) store.now }
    ensures chained_2 { IfOk result (λ n. Chained (bucket_at s (length zero.now) store.now) chains.new n) }
{
    s.check()?;
    let n = crate::in_order_by(s, store, zero, chains);
    if n == 0 { Err(Refused::Order) } else { Ok(n) }
}

// The same by tables of its own.
pub fn check(s: Settings, store: &[u8], zero: &[u8]) -> Result<usize, Refused>
    requires { zero.now ≡ zero_row (length zero.now) }
    ensures { opened result ≡ opened_of s (length zero.now) store.now }
{
    let mut chains = crate::Chains::new();
    check_by(s, store, zero, &mut chains)
}
