// Reading and writing a PDU over plain numbers: what is handed to other languages, as `flat` has the calls on packets.
//
// Every number is one of 64 bits, and an answer is an array of them, the refusal first. A number is tested against the type of its
// field before it is made narrower: one too wide is 22. Then the call itself is made, and its answer told.
#![tactic(auto)]

ghost use Rattle.std.specs.Prelude.{◌≡◌, true, false, length, MatchResult};
ghost use Rattle.write.specs.Given.{lent_of};
ghost use Rattle.pdu.specs.Reading.{read_pdu};
ghost use Rattle.flat_pdu.specs.Numbers.{fixed_numbers, ids_numbers, read_numbers, pdu_fits, values_of, written_numbers, write_numbers, write_out};

use flat::TooWide;
use pdu::{Fixed, Header, Ids, PduValues, Written};
use write::LentTexts;

// How many numbers reading answers, writing is given, and writing answers.
pub const READ: usize = 70;

pub const VALUES: usize = 19;

pub const WRITTEN: usize = 3;

// The refusal of a number that is too wide for its field.
const TOO_WIDE: u64 = 22;

// ---- the answer of reading

fn fixed_numbers(f: Fixed) -> [u64; 9]
    ensures { result ≡ fixed_numbers f }
{
    [
        f.sdu as u64,
        f.area as u64,
        f.service as u64,
        f.operation as u64,
        f.version as u64,
        f.error as u64,
        f.qos as u64,
        f.session as u64,
        f.transaction,
    ]
}

fn ids_numbers(ids: Ids) -> [u64; 5]
    ensures { result ≡ ids_numbers ids }
{
    [
        ids.source.at as u64,
        ids.source.length as u64,
        ids.destination.at as u64,
        ids.destination.length as u64,
        ids.priority as u64,
    ]
}

// The numbers of a header that was read.
fn header_numbers(h: Header) -> [u64; READ]
    ensures { result ≡ read_numbers h }
{
    let mut answer = [0; READ];
    answer[0] = h.refusal.number as u64;
    flat::put(&mut answer, 1, &fixed_numbers(h.fixed));
    flat::put(&mut answer, 10, &flat::present_numbers(h.has));
    answer[18] = h.fixed.encoding as u64;
    flat::put(&mut answer, 19, &ids_numbers(h.ids));
    flat::put(&mut answer, 24, &flat::text_numbers(h.texts));
    answer[65] = h.variable as u64;
    flat::put(&mut answer, 66, &flat::place_numbers(h.body));
    answer[68] = h.refusal.octets as u64;
    answer[69] = h.refusal.place as u64;
    answer
}

// Reading a PDU.
pub fn pdu_read(pdu: &[u8]) -> [u64; READ]
    ensures { result ≡ read_numbers (read_pdu pdu.now) }
{
    header_numbers(pdu::read(pdu))
}

// ---- numbers to values

fn values_of(l: &[u64; VALUES]) -> Result<PduValues, TooWide>
    ensures { MatchResult result (λ v. (pdu_fits l.now ≡ true) × (v ≡ values_of l.now)) (λ _. pdu_fits l.now ≡ false) }
{
    Ok(PduValues {
        sdu: u8::try_from(l[0])?,
        area: u32::try_from(l[1])?,
        service: u32::try_from(l[2])?,
        operation: u32::try_from(l[3])?,
        version: u16::try_from(l[4])?,
        error: u8::try_from(l[5])?,
        qos: u8::try_from(l[6])?,
        session: u8::try_from(l[7])?,
        transaction: l[8],
        has: flat::present_of(l, 9)?,
        encoding: u16::try_from(l[17])?,
        priority: l[18],
    })
}

fn written_numbers(w: Written) -> [u64; WRITTEN]
    ensures { result ≡ written_numbers w }
{
    [w.refusal.number as u64, w.length as u64, w.header as u64]
}

// Writing a PDU.
pub fn pdu_write(
    values: &[u64; VALUES],
    source: &[u8],
    destination: &[u8],
    texts: LentTexts,
    body: &[u8],
    out: &mut [u8],
) -> [u64; WRITTEN]
    ensures { let x = lent_of texts.entry in
        (result ≡ write_numbers values.now source.now destination.now x body.now (length out.old))
        × (out.new ≡ write_out values.now source.now destination.now x body.now out.old) }
{
    let Ok(v) = values_of(values) else {
        return [TOO_WIDE, 0, 0];
    };
    written_numbers(pdu::write(v, source, destination, texts, body, out))
}
