// An entry of a salvaged file as a line of text, and whose packet a kept one is.
//
//   kept,PLACE,LENGTH,APID,TRANSACTION,FLAGS,COUNTER        FLAGS is a word; no COUNTER if the packet is unsegmented
//   skipped,PLACE,LENGTH,,,,
//
// What a line tells of a packet stands at places that its first octets say, so the packet is not read again. A line's pieces are laid one
// after another, each whole or not at all: whoever lends room for the longest line gets a whole one.
#![tactic(auto)]

ghost use Rattle.std.specs.Prelude.{◌≡◌, [], ◌∷◌, eqb};
ghost use Rattle.octets.specs.Octets.{pick};
ghost use Rattle.octets.specs.Laying.{laid, Lays};
ghost use Rattle.packet.specs.Format.{flags_whole};
ghost use Rattle.cells.specs.Inner.{counter_in};
ghost use Rattle.entries.specs.Lines.{identity_in, decimal, flags_word, kept_octets};
ghost use Rattle.entries.specs.Lines.{next_pieces, counter_pieces, flags_pieces, entry_pieces, kept_pieces, skipped_pieces, line_pieces};

use salvage::{KEPT, Part};

// The room of the longest line.
pub const LINE: usize = 128;

// Places in a packet: the octet with the sequence flags, and the transaction id.
const FLAGS_AT: usize = 2;

const TRANSACTION_AT: usize = 18;

// The octets of the mark before a packet.
const MARK: usize = 2;

// The sequence flags.
const FIRST: u8 = 1;

const LAST: u8 = 2;

const UNSEGMENTED: u8 = 3;

// Whose a packet is: APID, transaction id, sequence flags, and the segment counter, 0 if it has none.
#[derive(Clone, Copy)]
pub struct Identity {
    pub apid: u16,
    pub transaction: u64,
    pub flags: u8,
    pub counter: u32,
}

// The segment counter of a packet, 0 if it is unsegmented.
fn counter(p: &[u8], flags: u8) -> u32
    ensures { result ≡ pick (eqb flags flags_whole) 0 (counter_in p.now) }
{
    if flags == UNSEGMENTED {
        return 0;
    }
    let c = cells::counter_in(p);
    c.0
}

// Whose a packet is, by its octets.
pub fn whose(p: &[u8]) -> Identity
    ensures { result ≡ identity_in p.now }
{
    let apid = octets::read::<u16>(p, 0) % 2048;
    let flags = octets::octet(p, FLAGS_AT) / 64;
    let transaction = octets::read::<u64>(p, TRANSACTION_AT);
    let number = counter(p, flags);
    Identity {
        apid: apid,
        transaction: transaction,
        flags: flags,
        counter: number,
    }
}

// ---- the pieces of a line, and the place after them

fn put_decimal(out: &mut [u8], at: usize, n: u64) -> usize
    ensures { Lays (laid out.old at) (decimal n ∷ []) out.new result }
{
    let mut digits = [0u8; 20];
    let k = io::decimal(n, &mut digits);
    octets::lay(out, at, &digits[..k])
}

// A comma and a number.
fn put_next(out: &mut [u8], at: usize, n: u64) -> usize
    ensures { Lays (laid out.old at) (next_pieces n) out.new result }
{
    let next = octets::lay(out, at, b",");
    put_decimal(out, next, n)
}

// A word, a place and a length.
fn put_entry(out: &mut [u8], at: usize, word: &[u8], place: usize, long: usize) -> usize
    ensures { Lays (laid out.old at) (entry_pieces word.now place long) out.new result }
{
    let a = octets::lay(out, at, word);
    let b = put_next(out, a, place as u64);
    put_next(out, b, long as u64)
}

// The sequence flags in a word.
#[tactic(auto, unfolding(crate::specs::Lines::flags_word))]
fn word(flags: u8) -> &'static [u8]
    ensures { result.now ≡ flags_word flags }
{
    match flags {
        FIRST => b"first",
        LAST => b"last",
        UNSEGMENTED => b"unsegmented",
        _ => b"continuation",
    }
}

// A comma, and the segment counter unless the packet is unsegmented.
fn put_counter(out: &mut [u8], at: usize, flags: u8, number: u32) -> usize
    ensures { Lays (laid out.old at) (counter_pieces flags number) out.new result }
{
    if flags == UNSEGMENTED {
        return octets::lay(out, at, b",");
    }
    put_next(out, at, number as u64)
}

// The sequence flags and the segment counter, a comma before each.
fn put_flags(out: &mut [u8], at: usize, flags: u8, number: u32) -> usize
    ensures { Lays (laid out.old at) (flags_pieces flags number) out.new result }
{
    let a = octets::lay(out, at, b",");
    let b = octets::lay(out, a, word(flags));
    put_counter(out, b, flags, number)
}

// The line of a kept entry, from a place on; the place after it.
fn put_kept(out: &mut [u8], at: usize, place: usize, long: usize, id: Identity) -> usize
    ensures { Lays (laid out.old at) (kept_pieces place long id) out.new result }
{
    let apid = id.apid as u64;
    let a = put_entry(out, at, b"kept", place, long);
    let b = put_next(out, a, apid);
    let c = put_next(out, b, id.transaction);
    let d = put_flags(out, c, id.flags, id.counter);
    octets::lay(out, d, b"\n")
}

// The line of a skipped stretch.
fn put_skipped(out: &mut [u8], at: usize, place: usize, long: usize) -> usize
    ensures { Lays (laid out.old at) (skipped_pieces place long) out.new result }
{
    let a = put_entry(out, at, b"skipped", place, long);
    octets::lay(out, a, b",,,,\n")
}

// ---- an entry, with a part of the file in hand

// The kind of an entry is any number of a list: one of no kind is a stretch.

// What is written of an entry: of a kept one mark and packet as they stand in the part, of a stretch nothing.
pub fn kept_in(part: Part<'_>, kind: u64, place: usize, long: usize) -> &[u8]
    ensures { result.now ≡ kept_octets part.entry.octets.now part.entry.off kind place long }
{
    if kind != KEPT {
        return &[];
    }
    cells::span(part.octets, place.saturating_sub(part.off), long)
}

// The line of an entry, from a place on; the place after it.
pub fn put_line(
    out: &mut [u8],
    at: usize,
    part: Part,
    kind: u64,
    place: usize,
    long: usize,
) -> usize
    ensures { Lays (laid out.old at) (line_pieces part.entry.octets.now part.entry.off kind place long) out.new result }
{
    if kind != KEPT {
        return put_skipped(out, at, place, long);
    }
    let x = kept_in(part, kind, place, long);
    let id = whose(cells::span(x, MARK, long));
    put_kept(out, at, place, long, id)
}
