// Carrying to the office and back over plain numbers: what is handed to other languages, as `flat` has the calls on packets.
//
// Every number is one of 64 bits, and an answer is an array of them, the refusal first. A number that is too wide for the type of its field
// stands for the widest, which no field of a packet or PDU has either: so it is 22, in its turn.
#![tactic(auto)]

ghost use Rattle.std.specs.Prelude.{◌≡◌, length};
ghost use Rattle.walk.specs.Walk.{settings_of};
ghost use Rattle.carry.specs.There.{to_pdu_answer, to_pdu_output};
ghost use Rattle.carry.specs.Back.{to_message_answer, to_message_output};
ghost use Rattle.flat_office.specs.Numbers.{widest16, within as within_of, route_of, written_numbers, carried_numbers};

use carry::{Carried, Route};
use packet::{Apid, SecondaryApid};
use pdu::Written;
use walk::Settings;

// The widest numbers of 8, 16 and 32 bits.
const WIDEST_8: u64 = 255;

const WIDEST_16: u64 = 65535;

const WIDEST_32: u64 = 4294967295;

// A number, or the widest if it is wider.
fn within(most: u64, n: u64) -> u64
    ensures { result ≡ within_of most n }
{
    if most < n {
        return most;
    }
    n
}

fn route_of(l: &[u64; 4]) -> Route
    ensures { result ≡ route_of l.now }
{
    let packet_type = within(WIDEST_8, l[0]) as u8;
    let apid = Apid(within(WIDEST_16, l[1]) as u16);
    let secondary_apid = SecondaryApid(within(WIDEST_16, l[2]) as u16);
    let qualifier = within(WIDEST_32, l[3]) as u32;
    Route {
        packet_type: packet_type,
        apid: apid,
        secondary_apid: secondary_apid,
        qualifier: qualifier,
    }
}

fn written_numbers(w: Written) -> [u64; 4]
    ensures { result ≡ written_numbers w }
{
    let refusal = w.refusal;
    [
        refusal.number as u64,
        w.length as u64,
        w.header as u64,
        refusal.place as u64,
    ]
}

fn carried_numbers(c: Carried) -> [u64; 6]
    ensures { result ≡ carried_numbers c }
{
    let refusal = c.refusal;
    [
        refusal.number as u64,
        c.header as u64,
        c.body as u64,
        c.encoding as u64,
        refusal.octets as u64,
        refusal.place as u64,
    ]
}

// A message is carried to the office: the refusal, the octets written, those before the body, the place beside 6.
pub fn to_pdu(t: u64, profile: u64, message: &[u8], encoding: u64, out: &mut [u8]) -> [u64; 4]
    ensures value { result ≡ written_numbers (to_pdu_answer (settings_of t profile) (within_of widest16 encoding) message.now (length out.old)) }
    ensures out_after { out.new ≡ to_pdu_output (settings_of t profile) (within_of widest16 encoding) message.now out.old }
{
    let s = Settings {
        t: t as usize,
        profile: profile,
    };
    let e = within(WIDEST_16, encoding) as u16;
    written_numbers(carry::to_pdu(s, message, e, out))
}

// A PDU is carried back: the refusal, H, B, the encoding id, the octets missing or left over, the place beside 6.
pub fn to_message(t: u64, profile: u64, pdu: &[u8], lent: &[u64; 4], out: &mut [u8]) -> [u64; 6]
    ensures value { result ≡ carried_numbers (to_message_answer (settings_of t profile) (route_of lent.now) pdu.now (length out.old)) }
    ensures out_after { out.new ≡ to_message_output (settings_of t profile) (route_of lent.now) pdu.now out.old }
{
    let s = Settings {
        t: t as usize,
        profile: profile,
    };
    let l = route_of(lent);
    carried_numbers(carry::to_message(s, pdu, l, out))
}
