// The store of arrived segments: what a packet's arrival comes to, taking a complete message out, and forgetting that it was taken.
//
// The store is lent memory of 1 to 4,096 cells of 1,024 octets; an empty one is all zeros. Each public call has settings and order
// checked by `opening` before anything else, and then calls an inner function of `arrival` or `taking` that takes any octets, by the
// chains that the check has made. Whoever keeps a store in order calls their like without chains, and saves the check.
#![tactic(auto)]

ghost use Rattle.std.specs.Prelude.{◌≡◌, length};
ghost use Rattle.cells.specs.Order.{count_in, cell_size};
ghost use Rattle.arrival.specs.Arriving.{arrived, store_with};
ghost use Rattle.taking.specs.Taking.{took, out_with, store_less};
ghost use Rattle.taking.specs.Forgetting.{forgot, store_forgotten};
ghost use Rattle.arrival.specs.Answer.{arrival_answer};
ghost use Rattle.arrival.specs.Told.{arrival_of};
ghost use Rattle.taking.specs.Answer.{taken_answer};
ghost use Rattle.taking.specs.Told.{taken_of};
ghost use Rattle.walk.specs.Walk.{refusal as refusal_of};
ghost use Rattle.walk.specs.Told.{said};

use arrival::Kind;
use cells::{CELL, Chains};
use taking::Taken;
use walk::{Refused, Settings};

// A packet arrives.
pub fn arrive(s: Settings, store: &mut [u8], p: &[u8]) -> Result<Kind, Refused>
    ensures value { arrival_answer result ≡ arrival_of (arrived s cell_size store.old p.now) }
    ensures store_after { store.new ≡ store_with cell_size store.old p.now (arrived s cell_size store.old p.now) }
{
    let zero = [0u8; CELL];
    let mut chains = Chains::new();
    let n = cells::opening::check_by(s, store, &zero, &mut chains)?;
    arrival::arrive_by(s, store, n, &zero, p, &chains)
}

// The complete message with its first in the lowest cell is taken out.
pub fn take(s: Settings, store: &mut [u8], out: &mut [u8]) -> Result<Taken, Refused>
    ensures value { taken_answer result ≡ taken_of (took s cell_size store.old (length out.old)) }
    ensures out_after { out.new ≡ out_with out.old (took s cell_size store.old (length out.old)) }
    ensures store_after { store.new ≡ store_less s cell_size store.old (count_in cell_size store.old)
        (took s cell_size store.old (length out.old)) }
{
    let zero = [0u8; CELL];
    let mut chains = Chains::new();
    let n = cells::opening::check_by(s, store, &zero, &mut chains)?;
    taking::take_by(s, store, n, &zero, out, &chains)
}

// The taken record in the cell of this number is forgotten.
pub fn forget(s: Settings, store: &mut [u8], number: usize) -> Result<(), Refused>
    ensures value { said result ≡ refusal_of (forgot s cell_size store.old number) }
    ensures store_after { store.new ≡ store_forgotten s cell_size store.old number }
{
    let zero = [0u8; CELL];
    let n = cells::opening::check(s, store, &zero)?;
    taking::forgetting::forget_in(s, store, n, &zero, number)
}
