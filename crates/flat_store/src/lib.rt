// The store's calls over plain numbers: what `capi` hands to other languages.
//
// Every number is one of 64 bits, and none is made narrower before it is tested. An answer is an array of numbers, the refusal first;
// if the call is refused the others are 0, but for what a refusal of reading tells, which stands last.
#![tactic(auto)]

pub mod recordings;

ghost use Rattle.std.specs.Prelude.{◌≡◌, length};
ghost use Rattle.cells.specs.Order.{count_in, cell_size};
ghost use Rattle.arrival.specs.Arriving.{arrived, store_with};
ghost use Rattle.taking.specs.Taking.{took, out_with, store_less};
ghost use Rattle.taking.specs.Forgetting.{forgot, store_forgotten};
ghost use Rattle.arrival.specs.Answer.{arrival_answer};
ghost use Rattle.arrival.specs.Told.{word_of};
ghost use Rattle.taking.specs.Answer.{taken_answer};
ghost use Rattle.join.specs.Answer.{joined_answer};
ghost use Rattle.join.specs.Joining.{joining, store_joined, out_joined};
ghost use Rattle.walk.specs.Walk.{settings_of};
ghost use Rattle.flat_store.specs.Numbers.{arrival_numbers, arrive_numbers, taken_numbers, take_numbers, forget_numbers};
ghost use Rattle.flat_store.specs.Numbers.{joined_numbers, join_numbers, order_numbers};
ghost use Rattle.flat_store.specs.Views.{inside_numbers, view_numbers};

use arrival::Kind;
use join::Joined;
use taking::Taken;
use walk::{Refused, Settings};

fn kind_number(k: Kind) -> u64
    ensures { result ≡ word_of k }
{
    match k {
        Kind::Whole => 1,
        Kind::Stored => 2,
        Kind::Held => 3,
        Kind::Taken => 4,
    }
}

fn arrival_numbers(a: Result<Kind, Refused>) -> [u64; 4]
    ensures { result ≡ arrival_numbers (arrival_answer a) }
{
    match a {
        Ok(k) => [0, kind_number(k), 0, 0],
        Err(r) => [r.number() as u64, 0, r.octets() as u64, r.place() as u64],
    }
}

// A packet arrives: the refusal; 1 whole, 2 stored, 3 held or 4 taken; what the refusal tells.
pub fn arrive(t: u64, profile: u64, store: &mut [u8], packet: &[u8]) -> [u64; 4]
    ensures value { result ≡ arrive_numbers (arrived (settings_of t profile) cell_size store.old packet.now) }
    ensures store_after { store.new ≡ store_with cell_size store.old packet.now
        (arrived (settings_of t profile) cell_size store.old packet.now) }
{
    let s = Settings {
        t: t as usize,
        profile: profile,
    };
    arrival_numbers(store::arrive(s, store, packet))
}

fn taken_numbers(t: Result<Taken, Refused>) -> [u64; 4]
    ensures { result ≡ taken_numbers (taken_answer t) }
{
    match t {
        Ok(t) => [0, t.header as u64, t.body as u64, t.counter.0 as u64],
        Err(r) => [r.number() as u64, 0, 0, 0],
    }
}

// A message is taken out: the refusal, H, B and c.
pub fn take(t: u64, profile: u64, store: &mut [u8], out: &mut [u8]) -> [u64; 4]
    ensures value { result ≡ take_numbers (took (settings_of t profile) cell_size store.old (length out.old)) }
    ensures out_after { out.new ≡ out_with out.old (took (settings_of t profile) cell_size store.old (length out.old)) }
    ensures store_after { store.new ≡ store_less (settings_of t profile) cell_size store.old (count_in cell_size store.old)
        (took (settings_of t profile) cell_size store.old (length out.old)) }
{
    let s = Settings {
        t: t as usize,
        profile: profile,
    };
    taken_numbers(store::take(s, store, out))
}

// A taken record is forgotten, by the number of its cell: the refusal.
pub fn forget(t: u64, profile: u64, store: &mut [u8], number: u64) -> [u64; 1]
    ensures value { result ≡ forget_numbers (forgot (settings_of t profile) cell_size store.old number) }
    ensures store_after { store.new ≡ store_forgotten (settings_of t profile) cell_size store.old number }
{
    let s = Settings {
        t: t as usize,
        profile: profile,
    };
    match store::forget(s, store, number as usize) {
        Ok(()) => [0],
        Err(r) => [r.number() as u64],
    }
}

fn joined_numbers(j: Result<Joined, Refused>) -> [u64; 9]
    ensures { result ≡ joined_numbers (joined_answer j) }
{
    match j {
        Ok(Joined::Packet { place, length }) => [0, 1, place as u64, length as u64, 0, 0, 0, 0, 0],
        Ok(Joined::Message { place, taken }) => [
            0,
            2,
            place as u64,
            taken.body as u64,
            taken.header as u64,
            taken.body as u64,
            taken.counter.0 as u64,
            0,
            0,
        ],
        Err(r) => [
            r.number() as u64,
            0,
            0,
            0,
            0,
            0,
            0,
            r.octets() as u64,
            r.place() as u64,
        ],
    }
}

// A packet is joined: the refusal, 0 no buffer, 1 the packet or 2 the output, the body's place and length there, H, B and c,
// what the refusal tells.
pub fn join(t: u64, profile: u64, store: &mut [u8], packet: &[u8], out: &mut [u8]) -> [u64; 9]
    ensures value { result ≡ join_numbers (joining (settings_of t profile) cell_size store.old packet.now (length out.old)) }
    ensures store_after { store.new ≡ store_joined (settings_of t profile) cell_size store.old packet.now (length out.old) }
    ensures out_after { out.new ≡ out_joined (settings_of t profile) cell_size store.old packet.now out.old }
{
    let s = Settings {
        t: t as usize,
        profile: profile,
    };
    joined_numbers(join::join(s, store, packet, out))
}

// The part at a place, if it lies inside a buffer of n octets.
fn inside(n: usize, place: u64, long: u64) -> [u64; 3]
    ensures { result ≡ inside_numbers n place long }
{
    let most = n as u64;
    if most < place {
        return [0, 0, 0];
    }
    if most - place < long {
        return [0, 0, 0];
    }
    [0, place, long]
}

// The view of a body: the refusal, and the part's place and length in the buffer that is named: 0 none, 1 the packet, 2 the joined one.
pub fn view(packet: &[u8], joined: &[u8], which: u64, place: u64, long: u64) -> [u64; 3]
    ensures { result ≡ view_numbers which packet.now joined.now place long }
{
    if which == 0 {
        return inside(0, place, long);
    }
    if which == 1 {
        return inside(packet.len(), place, long);
    }
    if which == 2 {
        return inside(joined.len(), place, long);
    }
    [22, 0, 0]
}

// Whether a store is in order: 15, 16, or 0 and how many cells it has.
pub fn in_order(t: u64, profile: u64, store: &[u8]) -> [u64; 2]
    ensures { result ≡ order_numbers (settings_of t profile) cell_size store.now }
{
    let s = Settings {
        t: t as usize,
        profile: profile,
    };
    if s.check().is_err() {
        return [15, 0];
    }
    let n = cells::order(s, store);
    if n == 0 {
        return [16, 0];
    }
    [0, n as u64]
}
