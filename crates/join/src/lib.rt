// Joining: a packet arrives, and if it came whole its body is told, else what is complete is taken out; and the view of a body.
//
// Joining tells where the body is: in which buffer, from which place on, how long; the view hands that part out, read only. For a
// packet that came whole neither the store nor the output is touched. If taking refuses, the arrived segment stays in the store. Settings
// and the store's order are checked once; what follows is an inner function that takes any octets, for whoever keeps a store in order.
#![tactic(auto)]

ghost use Rattle.std.specs.Prelude.{◌≡◌, ◌<◌, length, IfOk};
ghost use Rattle.cells.specs.Rows.{zero_row};
ghost use Rattle.cells.specs.Order.{cell_size};
ghost use Rattle.join.specs.Viewing.{inside, viewed};
ghost use Rattle.join.specs.Joining.{unjoined, joining, store_joined, out_joined};
ghost use Rattle.join.specs.Answer.{joined_answer};
ghost use Rattle.join.specs.Told.{joined_of};
ghost use Rattle.join.specs.Inner.{body_read, output_taken, is_late, joining_in, store_joined_in, out_joined_in};
ghost use Rattle.arrival.specs.Arriving.{arrived_in};

use arrival::Kind;
use cells::CELL;
use packet::Header;
use taking::Taken;
use walk::{Refused, Settings};

// Which buffer holds a body: the packet as it arrived, or the one where it was joined; nothing if there is no body.
#[derive(Clone, Copy)]
pub enum Which {
    Packet,
    Joined,
    Nothing,
}

// What joining tells: the place and length of the body in the packet that came whole; or its place in the output, and what taking told of
// the message.
#[derive(Clone, Copy)]
pub enum Joined {
    Packet { place: usize, length: usize },
    Message { place: usize, taken: Taken },
}

// What the inner joining answers: beside that, whether the packet is of a message that was taken before.
#[derive(Clone, Copy)]
pub struct Came {
    pub joined: Result<Joined, Refused>,
    pub late: bool,
}

// The part of a buffer at a place, empty if it does not lie inside.
fn part_inside(x: &[u8], place: usize, long: usize) -> &[u8]
    ensures { result.now ≡ inside x.now place long }
{
    if x.len() < place {
        return &x[0..0];
    }
    if x.len() - place < long {
        return &x[0..0];
    }
    let to = place + long;
    &x[place..to]
}

// The part of the named buffer at a place.
pub fn view<'a>(
    packet: &'a [u8],
    joined: &'a [u8],
    which: Which,
    place: usize,
    long: usize,
) -> &'a [u8]
    ensures { result.now ≡ viewed which packet.now joined.now place long }
{
    match which {
        Which::Packet => part_inside(packet, place, long),
        Which::Joined => part_inside(joined, place, long),
        Which::Nothing => &packet[0..0],
    }
}

// The body of a packet that came whole, where reading told that it stands.
fn in_packet(read: Result<Header, Refused>) -> Result<Joined, Refused>
    ensures { result ≡ body_read read }
{
    read.map(|h| Joined::Packet {
        place: h.body.at,
        length: h.body.length,
    })
}

// What taking answered, with the place of the body: it stands after the two octets of identification and the header.
fn in_output(t: Result<Taken, Refused>) -> Result<Joined, Refused>
    requires { IfOk t (λ x. x.header < 18446744073709551614) }
    ensures { result ≡ output_taken t }
{
    t.map(|taken| Joined::Message {
        place: 2 + taken.header,
        taken,
    })
}

// Joining at the first n cells of any octets, beside a zero cell: neither settings nor order are tested.
pub fn join_in(
    s: Settings,
    store: &mut [u8],
    n: usize,
    zero: &[u8],
    p: &[u8],
    out: &mut [u8],
) -> Came
    requires { zero.now ≡ zero_row (length zero.now) }
    ensures joined_value { joined_answer result.joined ≡ joined_of (joining_in s (length zero.now) store.old n p.now (length out.old)) }
    ensures late_value { result.late ≡ is_late (arrived_in s (length zero.now) store.old n p.now) }
    ensures store_after { store.new ≡ store_joined_in s (length zero.now) store.old n p.now (length out.old) }
    ensures out_after { out.new ≡ out_joined_in s (length zero.now) store.old n p.now out.old }
{
    let read = packet::read(s, p);
    let kind = match arrival::arrive_in(s, store, n, zero, p, read) {
        Ok(kind) => kind,
        Err(r) => {
            return Came {
                joined: Err(r),
                late: false,
            };
        }
    };
    if let Kind::Whole = kind {
        return Came {
            joined: in_packet(read),
            late: false,
        };
    }
    Came {
        joined: in_output(taking::take_in(s, store, n, zero, out)),
        late: matches!(kind, Kind::Taken),
    }
}

// A packet arrives; its body is told if it came whole, else the complete message with its first in the lowest cell is taken out.
pub fn join(s: Settings, store: &mut [u8], p: &[u8], out: &mut [u8]) -> Result<Joined, Refused>
    ensures value { joined_answer result ≡ joined_of (joining s cell_size store.old p.now (length out.old)) }
    ensures store_after { store.new ≡ store_joined s cell_size store.old p.now (length out.old) }
    ensures out_after { out.new ≡ out_joined s cell_size store.old p.now out.old }
{
    let zero = [0u8; CELL];
    let n = cells::opening::check(s, store, &zero)?;
    join_in(s, store, n, &zero, p, out).joined
}
