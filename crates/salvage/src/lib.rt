// Salvaging a damaged recording: packets, each after the mark 4D 50, with torn places.
//
// From the left, a mark with a packet after it that reading accepts within the file is kept; any other place is passed over by one
// octet. The list has an entry for each kept packet and for each stretch that was skipped, and together they cover the file. A call
// tests no more places than it was granted, ends too before a place if fewer than two entries are free, and tells where to resume; a
// stretch that is open there goes over to the next call.
//
// A file that does not fit in memory comes in parts: a call over a part in hand tests a place only if the longest packet lies in the part
// after it, or if the file ends with the part, so that what it lists is the file's.
//
// Few places have a mark: those without are passed over in blocks, and only at a mark is a packet read.
#![tactic(auto)]

ghost use Rattle.std.specs.Prelude.{◌≡◌, false, Some, None, [], ◌∷◌, ◌++◌, ◌+◌, ◌*◌, ◌/◌, ◌≤◌, length, eqb, slice_index};
ghost use Rattle.std.proofs.lemmas.List.Edits.{sets};
ghost use Rattle.octets.specs.Octets.{Octets, pick};
ghost use Rattle.packet.specs.Mark.{mark_first, mark_second};
ghost use Rattle.salvage.specs.Answer.{told, answered};
ghost use Rattle.salvage.specs.Listing.{kept, width_at, stretch, kept_entry};
ghost use Rattle.salvage.specs.Calling.{kind_number, entry_size, as_told, told_of, salvaged, list_after};
ghost use Rattle.salvage.specs.Parts.{off_most, length_in, till_in, holds, salvaged_in, list_in};
ghost use Rattle.salvage.specs.Inner.{Unmarked, Passed, end_at, Puts, told_after, list_with, end_after, call_with, Lies};

use packet::{MARK_FIRST, MARK_SECOND};
use walk::{Refused, Settings};

// The kinds of an entry, as numbers of a list.
pub const SKIPPED: u64 = 0;

pub const KEPT: u64 = 1;

// The numbers of an entry in a list: kind, place, length.
pub const NUMBERS: usize = 3;

// A mark and the shortest packet that a length field tells of; a mark and the longest.
const SHORTEST: usize = 9;

pub const LONGEST: usize = 65544;

// The most octets that may stand before the end of a part: one less than the largest number.
const OFF_MOST: usize = 0xffff_ffff_ffff_fffe;

// The places that are passed over at once.
const BLOCK: usize = 256;

// What an entry is: a stretch that is skipped, or a mark and a packet that are kept.
#[derive(Clone, Copy, Debug, PartialEq, Eq)]
pub enum Kind {
    Skipped,
    Kept,
}

#[derive(Clone, Copy, Debug, PartialEq, Eq)]
pub struct Entry {
    pub kind: Kind,
    pub place: usize,
    pub long: usize,
}

// Where a call begins or stops: where the open stretch begins, and which place is next; none is open if the two are the same.
#[derive(Clone, Copy, Debug, PartialEq, Eq)]
pub struct Stop {
    pub begin: usize,
    pub place: usize,
}

// A part of a file in hand: its octets from `off` on, and whether the file ends with it.
#[derive(Clone, Copy)]
pub struct Part<'a> {
    pub octets: &'a [u8],
    pub off: usize,
    pub ends: bool,
}

// What a call tells: the places that it tested, the entries that it listed, where it stopped, and whether the whole file is listed.
#[derive(Clone, Copy, Debug, PartialEq, Eq)]
pub struct Salvaged {
    pub tested: usize,
    pub entries: usize,
    pub stop: Stop,
    pub done: bool,
}

// Whether the mark stands at a place.
fn marked(first: u8, second: u8) -> bool
    ensures { result ≡ pick (eqb first mark_first) (eqb second mark_second) false }
{
    octets::both(first == MARK_FIRST, second == MARK_SECOND)
}

// Whether a mark stands at one of some places; `next` has the octet after each.
fn any_mark(here: &[u8], next: &[u8]) -> bool
    requires { length here.now ≡ length next.now }
    ensures { Unmarked here.now next.now result (length here.now) }
{
    let mut found = false;
    for i in 0..here.len() {
        found = octets::either(found, marked(here[i], next[i]));
    }
    found
}

// Passes over blocks with no mark, up to an end. It goes on by whole blocks while there is more than one left, so it is no loop over places.
fn pass_blocks(file: &[u8], from: usize, end: usize) -> usize
    requires from_le_end { from ≤ end }
    requires end_in_bounds { end ≤ length file.now }
    ensures { Passed file.now from end result }
{
    let mut at = from;
    while BLOCK < end - at {
        let till = at + BLOCK;
        let next = at + 1;
        let over = till + 1;
        if any_mark(&file[at..till], &file[next..over]) {
            return at;
        }
        at = till;
    }
    at
}

// Passes over the places with no mark, up to an end.
fn pass(file: &[u8], from: usize, end: usize) -> usize
    requires from_le_end { from ≤ end }
    requires end_in_bounds { end ≤ length file.now }
    ensures { Passed file.now from end result }
{
    for at in pass_blocks(file, from, end)..end {
        if marked(file[at], octets::octet_after(file, at, 1)) {
            return at;
        }
    }
    end
}

// The octets of mark and packet if the place is kept.
fn width(s: Settings, file: &[u8], at: usize) -> Option<usize>
    requires { at ≤ length file.now }
    ensures { result ≡ pick (kept s file.now at) (Some (width_at file.now at)) None }
{
    let rest = file.len() - at;
    if rest < SHORTEST {
        return None;
    }
    if !marked(file[at], file[at + 1]) {
        return None;
    }
    let size = octets::read::<u16>(file, at + 6) as usize + 7;
    if rest < 2 + size {
        return None;
    }
    let from = at + 2;
    let till = from + size;
    match packet::read(s, &file[from..till]) {
        Ok(_) => Some(2 + size),
        Err(_) => None,
    }
}

// The place before which a call ends if none on the way is kept.
fn end_at(at: usize, till: usize, grant: usize, free: usize) -> usize
    ensures { result ≡ end_at at till grant free }
{
    if free < 2 {
        return at;
    }
    at + grant.min(till.saturating_sub(at))
}

impl Kind {
    // Its number in a list.
    pub fn number(self) -> u64
        ensures { result ≡ kind_number self }
    {
        match self {
            Kind::Skipped => SKIPPED,
            Kind::Kept => KEPT,
        }
    }
}

impl Entry {
    // The entry of a list that stands after n others.
    pub fn at(list: &[u64], n: usize) -> Entry
        requires { n * entry_size + entry_size ≤ length list.now }
        ensures kind { kind_number result.kind ≡ pick (eqb (slice_index list.now (n * entry_size)) 1) 1 0 }
        ensures place { result.place ≡ slice_index list.now (n * entry_size + 1) }
        ensures long { result.long ≡ slice_index list.now (n * entry_size + 2) }
    {
        let at = n * NUMBERS;
        let kind = if list[at] == KEPT {
            Kind::Kept
        } else {
            Kind::Skipped
        };
        Entry {
            kind: kind,
            place: list[at + 1] as usize,
            long: list[at + 2] as usize,
        }
    }

    // Lays it in a list, after n others.
    fn put(self, list: &mut [u64], n: usize)
        requires { n * entry_size + entry_size ≤ length list.old }
        ensures { list.new ≡ sets list.old (n * entry_size) (kind_number self.kind ∷ self.place ∷ self.long ∷ []) }
    {
        let at = n * NUMBERS;
        list[at] = self.kind.number();
        list[at + 1] = self.place as u64;
        list[at + 2] = self.long as u64;
    }
}

// The stretch that is open at a stop, if one is, after n entries; how many entries there are then.
fn put_stretch(list: &mut [u64], n: usize, stop: Stop) -> usize
    requires { n * entry_size + entry_size ≤ length list.old }
    ensures { Puts list.old n (stretch stop) list.new result }
{
    if stop.begin < stop.place {
        let entry = Entry {
            kind: Kind::Skipped,
            place: stop.begin,
            long: stop.place - stop.begin,
        };
        entry.put(list, n);
        return n + 1;
    }
    n
}

// The stretch before a kept place, if one is open, and the place; how many entries there are then.
fn put_kept(list: &mut [u64], n: usize, stop: Stop, wide: usize) -> usize
    requires { n * entry_size + 2 * entry_size ≤ length list.old }
    ensures { Puts list.old n (stretch stop ++ (kept_entry stop.place wide ∷ [])) list.new result }
{
    let k = put_stretch(list, n, stop);
    let entry = Entry {
        kind: Kind::Kept,
        place: stop.place,
        long: wide,
    };
    entry.put(list, k);
    k + 1
}

// What is told of a call over a file of n octets.
fn told(n: usize, tested: usize, entries: usize, stop: Stop) -> Salvaged
    ensures { told result ≡ as_told n tested entries stop }
{
    let end = Stop { begin: n, place: n };
    Salvaged {
        tested: tested,
        entries: entries,
        stop: stop,
        done: stop == end,
    }
}

// The end of a call: at the end of a file of n octets an open stretch is listed if an entry is free.
fn finish(n: usize, list: &mut [u64], tested: usize, entries: usize, stop: Stop) -> Salvaged
    requires begin_le_place { stop.begin ≤ stop.place }
    requires entries_in_bounds { entries ≤ length list.old / entry_size }
    ensures value { told result ≡ told_after n tested entries (end_after n list.old entries stop) }
    ensures list_after { list.new ≡ list_with list.old entries (end_after n list.old entries stop) }
{
    let free = list.len() / NUMBERS;
    if stop.place != n {
        return told(n, tested, entries, stop);
    }
    if free <= entries {
        return told(n, tested, entries, stop);
    }
    let all = put_stretch(list, entries, stop);
    let end = Stop { begin: n, place: n };
    told(n, tested, all, end)
}

// How many octets there are; each is one.
fn count(octets: &[u8]) -> usize
    ensures length { result ≡ length octets.now }
    ensures are_octets { Octets octets.now }
{
    octets.len()
}

impl Part<'_> {
    // The octets of the file as far as they are known of: one more if the file does not end with the part.
    fn length(self) -> usize
        requires { self.off + length self.octets.now ≤ off_most }
        ensures value { result ≡ length_in self.entry.off self.entry.ends (length self.entry.octets.now) }
        ensures are_octets { Octets self.entry.octets.now }
    {
        let known = self.off + count(self.octets);
        if self.ends {
            return known;
        }
        known + 1
    }

    // The place from which on none is tested with the part in hand.
    fn till(self) -> usize
        requires { self.off + length self.octets.now ≤ off_most }
        ensures { result ≡ till_in self.entry.off self.entry.ends (length self.entry.octets.now) }
    {
        let n = self.octets.len();
        if self.ends {
            return self.off + n;
        }
        self.off + (n + 1).saturating_sub(LONGEST)
    }

    // Whether a state can be one with the part in hand.
    fn has(self, stop: Stop) -> bool
        ensures { result ≡ holds self.entry.off (length self.entry.octets.now) stop }
    {
        let n = self.octets.len();
        if OFF_MOST < self.off || OFF_MOST - self.off < n {
            return false;
        }
        if stop.place < stop.begin || stop.place < self.off {
            return false;
        }
        stop.place <= self.off + n
    }
}

// The places from one on are tested, as far as the part in hand, the grant and the list go.
fn along(s: Settings, part: Part, first: Stop, grant: usize, list: &mut [u64]) -> Salvaged
    requires { Lies part.off (length part.octets.now) first }
    ensures value { told result ≡ told_of (length_in part.entry.off part.entry.ends (length part.entry.octets.now))
        (call_with s part.entry.octets.now part.entry.off part.entry.ends first grant list.old) }
    ensures list_after { list.new
        ≡ list_with list.old 0 (call_with s part.entry.octets.now part.entry.off part.entry.ends first grant list.old) }
{
    let n = part.length();
    let till = part.till();
    let free = list.len() / NUMBERS;
    let mut from = first.begin;
    let mut at = first.place;
    let mut tested: usize = 0;
    let mut entries: usize = 0;
    loop {
        let stop = Stop {
            begin: from,
            place: at,
        };
        let end = end_at(at, till, grant - tested, free - entries);
        if end <= at {
            return finish(n, list, tested, entries, stop);
        }
        match width(s, part.octets, at - part.off) {
            None => {
                let next = part.off + pass(part.octets, at + 1 - part.off, end - part.off);
                tested += next - at;
                at = next;
            }
            Some(wide) => {
                entries = put_kept(list, entries, stop, wide);
                tested += 1;
                at += wide;
                from = at;
            }
        }
    }
}

// Salvages a file from a stop on, 0 and 0 at first: tests at most `grant` places, and lists what it finds in three numbers an entry,
// kind, place and length, from the first number of the list on. Two entries must be free before each place that is tested.
pub fn salvage(
    s: Settings,
    file: &[u8],
    stop: Stop,
    grant: usize,
    list: &mut [u64],
) -> Result<Salvaged, Refused>
    ensures answer { answered result ≡ salvaged s file.now stop grant (length list.old) }
    ensures list { list.new ≡ list_after s file.now stop grant list.old }
{
    let part = Part {
        octets: file,
        off: 0,
        ends: true,
    };
    salvage_part(s, part, stop, grant, list)
}

// The same with a part of the file in hand; `ends` tells whether the file ends with it. Begin, place and
// the places of the list are the file's. A place is tested only if the longest packet lies in the part after it, or if the file ends
// with the part; before any other the call ends, and wants another part. A place that does not lie in the part is refused as a state.
pub fn salvage_part(
    s: Settings,
    part: Part,
    stop: Stop,
    grant: usize,
    list: &mut [u64],
) -> Result<Salvaged, Refused>
    ensures answer { answered result ≡ salvaged_in s part.entry.octets.now part.entry.off part.entry.ends stop grant (length list.old) }
    ensures list { list.new ≡ list_in s part.entry.octets.now part.entry.off part.entry.ends stop grant list.old }
{
    s.check()?;
    if !part.has(stop) {
        return Err(Refused::State);
    }
    Ok(along(s, part, stop, grant, list))
}
