// One step along a recording: packets, each after the mark 4D 50, over the part of the recording in hand.
//
// A step looks at the octets from the place reached on, joins the packet that stands there, and tells how many octets it used up and
// how many of the output are to be written: for a message 4D 4D, the four-octet length of what follows, then what taking writes, and
// for a whole packet likewise. It goes on only over a whole packet, so 65,544 octets in hand are always enough: the mark, and the
// longest packet that a length field tells of. Settings and the store's order are checked once, by whoever begins; a step keeps them.
#![tactic(auto)]

ghost use Rattle.std.specs.Prelude.{ℕ, ◌≡◌, true, ◌∷◌, ◌+◌, ◌-◌, ◌≤◌, length, eqb};
ghost use Rattle.std.proofs.lemmas.List.Edits.{sets};
ghost use Rattle.octets.specs.Octets.{part, wide};
ghost use Rattle.cells.specs.Rows.{zero_row};
ghost use Rattle.cells.specs.Order.{count_in, gate};
ghost use Rattle.join.specs.Joining.{joining, store_joined};
ghost use Rattle.walk.specs.Walk.{refusal as refusal_of};
ghost use Rattle.walk.specs.Told.{said};
ghost use Rattle.join.specs.Answer.{joined_answer};
ghost use Rattle.join.specs.Told.{joined_of};
ghost use Rattle.join.specs.Inner.{is_late};
ghost use Rattle.arrival.specs.Arriving.{arrived};
ghost use Rattle.taking.specs.Forgetting.{lowest_record, forgot};
ghost use Rattle.steps.specs.Stepping.{found_in, begins, room, longest, unrecorded, roomed, came_at, came_of, store_after};
ghost use Rattle.steps.specs.Stepping.{without, wrote, stepped, store_behind, written_by};
ghost use Rattle.steps.specs.Answer.{told, answered};
ghost use Rattle.steps.specs.Told.{stands_of, done_came, done_of};
ghost use Rattle.steps.specs.Inner.{taken_in, left_as, stop_as};
ghost use Rattle.packet.specs.Format.{packet_most};

use join::{Came, Joined};
use packet::{MARK_FIRST, MARK_SECOND};
use walk::{REFUSED_FULL, REFUSED_INCOMPLETE, Refusal, Refused, Settings};

// The longest packet that is joined.
pub const LONGEST: usize = 32768;

// The room for a message in the output, after its mark and length.
pub const ROOM: usize = 65536;

// The octets of the mark and the length before a message.
pub const FRAME: usize = 6;

// The room for a message with its mark and length.
pub const SPACE: usize = 65542;

// What became of a packet: it is passed over as too long; it is refused; it is stored or held already, and nothing is complete; it is of a
// message that was taken, and nothing is complete; it came whole, or a message is joined, and so many octets of the output are to be written.
#[derive(Clone, Copy)]
pub enum Became {
    Passed,
    Refused(Refusal),
    Kept,
    Late,
    Whole { written: usize },
    Joined { written: usize },
}

// What a step comes to: more octets are wanted; the recording ends; no mark follows; a torn mark or packet follows; a packet with its mark is
// used up, and what became of it.
#[derive(Clone, Copy)]
pub enum Done {
    More,
    Ended,
    Unmarked,
    Torn,
    Packet { used: usize, became: Became },
}

// What stands at a place: no octet, no mark, a mark and packet that are not whole, or whole ones.
#[derive(Clone, Copy)]
pub enum Stands {
    Nothing,
    Other,
    Cut,
    Whole,
}

// Whether the octets begin as the mark does.
fn marked(x: &[u8]) -> bool
    ensures { result ≡ begins x.now }
{
    let mark: [u8; 2] = [MARK_FIRST, MARK_SECOND];
    let n = octets::within(2, 0, x.len());
    octets::same(cells::span(x, 0, 2), &mark[0..n])
}

// What stands where a part of a recording begins.
pub fn look(x: &[u8]) -> Stands
    ensures { result ≡ stands_of (found_in x.now) }
{
    if x.len() == 0 {
        return Stands::Nothing;
    }
    if !marked(x) {
        return Stands::Other;
    }
    if x.len() < 2 + (octets::read::<u16>(x, 6) as usize + 7) {
        return Stands::Cut;
    }
    Stands::Whole
}

impl Became {
    // The octets of the output to be written.
    pub fn written(self) -> usize
        ensures { result ≡ (told 0 self).written }
    {
        match self {
            Became::Whole { written } => written,
            Became::Joined { written } => written,
            _ => 0,
        }
    }
}

impl Done {
    // The octets used up.
    pub fn used(self) -> usize
        ensures { result ≡ (answered self).used }
    {
        match self {
            Done::Packet { used, .. } => used,
            _ => 0,
        }
    }

    // The octets of the output to be written.
    pub fn written(self) -> usize
        ensures { result ≡ (answered self).written }
    {
        match self {
            Done::Packet { became, .. } => became.written(),
            _ => 0,
        }
    }
}

// A stop if the recording ends; more octets are wanted if it does not.
fn stop(ends: bool, done: Done) -> Done
    ensures { answered result ≡ stop_as ends (answered done) }
{
    if ends {
        return done;
    }
    Done::More
}

// A packet that neither came whole nor completed a message; 20 refuses no packet.
fn left(refusal: Refusal, late: bool) -> Became
    ensures { (n : ℕ) → told n result ≡ left_as refusal late n }
{
    if refusal.number != REFUSED_INCOMPLETE {
        return Became::Refused(refusal);
    }
    if late {
        return Became::Late;
    }
    Became::Kept
}

// The mark and the length before a message of n octets.
fn put_frame(out: &mut [u8], n: usize)
    ensures { out.new ≡ sets out.old 0 (0x4d ∷ 0x4d ∷ wide 4 n) }
{
    octets::put_number(out, 0, 2, 0x4d4d);
    octets::put_number(out, 2, 4, n as u64);
}

// The mark and the length before a message of n octets; how many octets all are.
fn framed(out: &mut [u8], n: usize) -> usize
    requires { n ≤ room }
    ensures value { result ≡ 6 + n }
    ensures out_after { out.new ≡ sets out.old 0 (0x4d ∷ 0x4d ∷ wide 4 n) }
{
    put_frame(out, n);
    FRAME + n
}

// A whole packet without its octets 2 to 5, after the room for mark and length. How many octets that are.
fn put_whole(p: &[u8], out: &mut [u8]) -> usize
    requires { 6 + length p.now ≤ length out.old }
    ensures value { result ≡ length (without p.now) }
    ensures out_after { out.new ≡ sets out.old 6 (without p.now) }
{
    let at = octets::lay(out, FRAME, cells::span(p, 0, 2));
    let end = octets::lay(out, at, cells::span(p, 6, p.len()));
    end - FRAME
}

// Joining, with a message after the room for its mark and length.
fn join_after(
    s: Settings,
    store: &mut [u8],
    n: usize,
    zero: &[u8],
    p: &[u8],
    out: &mut [u8],
) -> Came
    requires zero_value { zero.now ≡ zero_row (length zero.now) }
    requires store_value { gate s (length zero.now) store.old ≡ 0 }
    requires n_value { n ≡ count_in (length zero.now) store.old }
    requires room_in_bounds { 6 + room ≤ length out.old }
    ensures joined_value { joined_answer result.joined ≡ joined_of (joining s (length zero.now) store.old p.now room) }
    ensures late_value { result.late ≡ is_late (arrived s (length zero.now) store.old p.now) }
    ensures store_after { store.new ≡ store_joined s (length zero.now) store.old p.now room }
    ensures out_after { out.new ≡ sets out.old 6
        (taken_in (joining s (length zero.now) store.old p.now room)) }
{
    let from: usize = FRAME;
    let to: usize = FRAME + ROOM;
    join::join_in(s, store, n, zero, p, &mut out[from..to])
}

// The record in the lowest cell that has one is forgotten; 31 if none has.
fn forget_lowest(s: Settings, store: &mut [u8], n: usize, zero: &[u8]) -> Result<(), Refused>
    requires zero_value { zero.now ≡ zero_row (length zero.now) }
    requires store_value { gate s (length zero.now) store.old ≡ 0 }
    requires n_value { n ≡ count_in (length zero.now) store.old }
    ensures value { said result ≡ refusal_of (forgot s (length zero.now) store.old
        (lowest_record s (length zero.now) store.old (count_in (length zero.now) store.old))) }
    ensures store_after { store.new ≡ unrecorded s (length zero.now) store.old }
{
    let i = taking::forgetting::lowest_record(s, store, n, zero);
    taking::forgetting::forget_in(s, store, n, zero, i)
}

// Whether a joining is refused because every cell is in use.
fn is_full(joined: Result<Joined, Refused>) -> bool
    ensures { result ≡ eqb (joined_answer joined).refusal.number 19 }
{
    match joined {
        Ok(_) => false,
        Err(r) => r.number() == REFUSED_FULL,
    }
}

// Joining; and once more, if every cell is in use and there is a record that can be forgotten.
fn join_roomed(
    s: Settings,
    store: &mut [u8],
    n: usize,
    zero: &[u8],
    p: &[u8],
    out: &mut [u8],
) -> Came
    requires zero_value { zero.now ≡ zero_row (length zero.now) }
    requires store_value { gate s (length zero.now) store.old ≡ 0 }
    requires n_value { n ≡ count_in (length zero.now) store.old }
    requires room_in_bounds { 6 + room ≤ length out.old }
    ensures joined_value { joined_answer result.joined ≡ joined_of (joining s (length zero.now)
        (roomed s (length zero.now) store.old p.now) p.now room) }
    ensures late_value { result.late ≡ is_late (arrived s (length zero.now)
        (roomed s (length zero.now) store.old p.now) p.now) }
    ensures store_after { store.new ≡ store_joined s (length zero.now)
        (roomed s (length zero.now) store.old p.now) p.now room }
    ensures out_after { out.new ≡ sets out.old 6 (taken_in (joining s (length zero.now)
        (roomed s (length zero.now) store.old p.now) p.now room)) }
{
    let came = join_after(s, store, n, zero, p, out);
    if !is_full(came.joined) {
        return came;
    }
    if forget_lowest(s, store, n, zero).is_err() {
        return came;
    }
    join_after(s, store, n, zero, p, out)
}

// A packet that is not too long is joined, and what is to be written stands in the output.
fn join_packet(
    s: Settings,
    store: &mut [u8],
    n: usize,
    zero: &[u8],
    p: &[u8],
    out: &mut [u8],
) -> Done
    requires zero_value { zero.now ≡ zero_row (length zero.now) }
    requires store_value { gate s (length zero.now) store.old ≡ 0 }
    requires n_value { n ≡ count_in (length zero.now) store.old }
    requires room_in_bounds { 6 + room ≤ length out.old }
    requires p_len_bound { length p.now ≤ longest }
    ensures value { answered result ≡ done_came p.now (came_at s (length zero.now)
        (roomed s (length zero.now) store.old p.now) p.now) }
    ensures store_after { store.new ≡ store_joined s (length zero.now)
        (roomed s (length zero.now) store.old p.now) p.now room }
    ensures out_after { out.new ≡ sets out.old 0 (wrote p.now (came_at s (length zero.now)
        (roomed s (length zero.now) store.old p.now) p.now)) }
{
    let used = 2 + p.len();
    let came = join_roomed(s, store, n, zero, p, out);
    match came.joined {
        Err(r) => {
            let became = left(walk::telling(r.number(), r.octets(), r.place()), came.late);
            Done::Packet { used, became }
        }
        Ok(Joined::Packet { .. }) => {
            let long = put_whole(p, out);
            let written = framed(out, long);
            Done::Packet {
                used,
                became: Became::Whole { written },
            }
        }
        Ok(Joined::Message { place, taken }) => {
            let written = framed(out, place + taken.body);
            Done::Packet {
                used,
                became: Became::Joined { written },
            }
        }
    }
}

// A packet is passed over as too long, or joined.
fn step_packet(
    s: Settings,
    store: &mut [u8],
    n: usize,
    zero: &[u8],
    p: &[u8],
    out: &mut [u8],
) -> Done
    requires zero_value { zero.now ≡ zero_row (length zero.now) }
    requires store_value { gate s (length zero.now) store.old ≡ 0 }
    requires n_value { n ≡ count_in (length zero.now) store.old }
    requires room_in_bounds { 6 + room ≤ length out.old }
    requires p_len_bound { length p.now ≤ packet_most }
    ensures value { answered result ≡ done_came p.now (came_of s (length zero.now) store.old p.now) }
    ensures store_after { store.new ≡ store_after s (length zero.now) store.old p.now }
    ensures out_after { out.new ≡ sets out.old 0
        (wrote p.now (came_of s (length zero.now) store.old p.now)) }
{
    if LONGEST < p.len() {
        return Done::Packet {
            used: 2 + p.len(),
            became: Became::Passed,
        };
    }
    join_packet(s, store, n, zero, p, out)
}

// A step along a recording: `window` is the part in hand from the place reached on, and `ends` says that the recording ends with it.
pub fn step(
    s: Settings,
    store: &mut [u8],
    n: usize,
    zero: &[u8],
    window: &[u8],
    ends: bool,
    out: &mut [u8],
) -> Done
    requires zero_value { zero.now ≡ zero_row (length zero.now) }
    requires store_value { gate s (length zero.now) store.old ≡ 0 }
    requires n_value { n ≡ count_in (length zero.now) store.old }
    requires room_in_bounds { 6 + room ≤ length out.old }
    ensures value { answered result ≡ done_of (stepped s (length zero.now) store.old window.now ends) }
    ensures store_after { store.new ≡ store_behind s (length zero.now) store.old
        (stepped s (length zero.now) store.old window.now ends) }
    ensures out_after { out.new ≡ sets out.old 0
        (written_by (stepped s (length zero.now) store.old window.now ends)) }
{
    match look(window) {
        Stands::Nothing => stop(ends, Done::Ended),
        Stands::Other => Done::Unmarked,
        Stands::Cut => stop(ends, Done::Torn),
        Stands::Whole => step_packet(s, store, n, zero, cells::packet_in(window), out),
    }
}

// A step with the rest of a recording in hand; what it writes goes to the output from a place on, through a spare buffer.
fn step_spare(
    s: Settings,
    store: &mut [u8],
    n: usize,
    zero: &[u8],
    rest: &[u8],
    spare: &mut [u8],
    out: &mut [u8],
    at: usize,
) -> Done
    requires zero_value { zero.now ≡ zero_row (length zero.now) }
    requires store_value { gate s (length zero.now) store.old ≡ 0 }
    requires n_value { n ≡ count_in (length zero.now) store.old }
    requires room_in_bounds { 6 + room ≤ length spare.old }
    ensures value { answered result ≡ done_of (stepped s (length zero.now) store.old rest.now true) }
    ensures store_after { store.new ≡ store_behind s (length zero.now) store.old
        (stepped s (length zero.now) store.old rest.now true) }
    ensures out_after { out.new ≡ sets out.old at
        (written_by (stepped s (length zero.now) store.old rest.now true)) }
{
    let d = step(s, store, n, zero, rest, true, spare);
    let written = d.written();
    octets::copy(out, at, &spare[0..written]);
    d
}

// A step that writes straight into the output from a place on, which has room there for the longest message.
pub fn step_there(
    s: Settings,
    store: &mut [u8],
    n: usize,
    zero: &[u8],
    rest: &[u8],
    ends: bool,
    out: &mut [u8],
    at: usize,
) -> Done
    requires zero_value { zero.now ≡ zero_row (length zero.now) }
    requires store_value { gate s (length zero.now) store.old ≡ 0 }
    requires n_value { n ≡ count_in (length zero.now) store.old }
    requires room_in_bounds { at + (6 + room) ≤ length out.old }
    ensures value { answered result ≡ done_of (stepped s (length zero.now) store.old rest.now ends) }
    ensures store_after { store.new ≡ store_behind s (length zero.now) store.old
        (stepped s (length zero.now) store.old rest.now ends) }
    ensures out_after { out.new ≡ sets out.old at
        (written_by (stepped s (length zero.now) store.old rest.now ends)) }
{
    let to = at + SPACE;
    step(s, store, n, zero, rest, ends, &mut out[at..to])
}

// Straight into the output, but for the messages that come near its end.
pub fn step_at(
    s: Settings,
    store: &mut [u8],
    n: usize,
    zero: &[u8],
    rest: &[u8],
    spare: &mut [u8],
    out: &mut [u8],
    at: usize,
) -> Done
    requires zero_value { zero.now ≡ zero_row (length zero.now) }
    requires store_value { gate s (length zero.now) store.old ≡ 0 }
    requires n_value { n ≡ count_in (length zero.now) store.old }
    requires room_in_bounds { 6 + room ≤ length spare.old }
    requires at_in_bounds { at ≤ length out.old }
    ensures value { answered result ≡ done_of (stepped s (length zero.now) store.old rest.now true) }
    ensures store_after { store.new ≡ store_behind s (length zero.now) store.old
        (stepped s (length zero.now) store.old rest.now true) }
    ensures out_after { out.new ≡ sets out.old at
        (written_by (stepped s (length zero.now) store.old rest.now true)) }
{
    if out.len() - at < SPACE {
        return step_spare(s, store, n, zero, rest, spare, out, at);
    }
    step_there(s, store, n, zero, rest, true, out, at)
}
