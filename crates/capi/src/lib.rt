// The calls for programs in other languages. `include/orlyukan.h` declares them for C and says what each number means.
//
// Each export hands its numbers and slices to a call of crate `flat`, or of `filling` or `laying` for what goes a short way; in `stored` of
// `flat_store`, in `office` of `flat_office` and in `pdus` of `flat_pdu`; and puts what it answers into the lent array, the refusal first.
// A slice is a pointer and a length, an array is one pointer; no struct goes by value and no reference comes back.
#![tactic(auto)]

mod office;
mod pdus;
mod stored;

ghost use Rattle.std.specs.Prelude.{◌≡◌, length};
ghost use Rattle.packet.specs.Reading.{read_packet};
ghost use Rattle.write.specs.Given.{lent};
ghost use Rattle.walk.specs.Walk.{settings_of};
ghost use Rattle.flat.specs.Told.{read_numbers};
ghost use Rattle.flat.specs.Answers.{next_numbers, write_numbers, write_out, after_packet_numbers, after_segment_numbers, count_numbers, packet_numbers, packet_out};

use write::LentTexts;

// The next sequence count: 0 follows 16,383.
#[unsafe(no_mangle)]
pub extern "C" fn orl_next_sequence_count(sequence_count: u64, answer: &mut [u64; 2])
    ensures { answer.new ≡ next_numbers sequence_count }
{
    *answer = flat::next_sequence_count(sequence_count);
}

// Reading a packet.
#[unsafe(no_mangle)]
pub extern "C" fn orl_read(t: u64, profile: u64, packet: &[u8], answer: &mut [u64; 75])
    ensures { answer.new ≡ read_numbers (read_packet (settings_of t profile) packet.now) }
{
    filling::read_into(t, profile, packet, answer);
}

// Writing one packet.
#[unsafe(no_mangle)]
pub extern "C" fn orl_write(
    t: u64,
    profile: u64,
    header: &[u64; 24],
    timestamp: &[u8],
    zone: &[u8],
    name: &[u8],
    domain: &[u8],
    lengths: &[u64],
    authentication: &[u8],
    flags: u64,
    sequence_count: u64,
    counter: u64,
    body: &[u8],
    out: &mut [u8],
    answer: &mut [u64; 2],
)
    ensures { let x = lent timestamp.now zone.now name.now domain.now lengths.now
        authentication.now in let s = settings_of t profile in
        (answer.new ≡ write_numbers s header.now x flags sequence_count counter body.now (length out.old))
        × (out.new ≡ write_out s header.now x flags sequence_count counter body.now out.old) }
{
    *answer = laying::write(
        t,
        profile,
        header,
        LentTexts {
            timestamp,
            zone,
            session_name: name,
            domain,
            lengths,
            authentication,
        },
        flags,
        sequence_count,
        counter,
        body,
        out,
    );
}

// The sender's numbers after an unsegmented packet.
#[unsafe(no_mangle)]
pub extern "C" fn orl_after_packet(sender: &[u64; 2], answer: &mut [u64; 3])
    ensures { answer.new ≡ after_packet_numbers sender.now }
{
    *answer = flat::after_packet(sender);
}

// The sender's numbers after a segment.
#[unsafe(no_mangle)]
pub extern "C" fn orl_after_segment(sender: &[u64; 2], answer: &mut [u64; 3])
    ensures { answer.new ≡ after_segment_numbers sender.now }
{
    *answer = flat::after_segment(sender);
}

// How many packets a message is cut into, and the sender's numbers after it.
#[unsafe(no_mangle)]
pub extern "C" fn orl_cut_count(
    t: u64,
    profile: u64,
    p: u64,
    header: &[u64; 24],
    timestamp: &[u8],
    zone: &[u8],
    name: &[u8],
    domain: &[u8],
    lengths: &[u64],
    authentication: &[u8],
    body: u64,
    sender: &[u64; 2],
    answer: &mut [u64; 4],
)
    ensures { answer.new ≡ count_numbers (settings_of t profile) p header.now
        (lent timestamp.now zone.now name.now domain.now lengths.now
        authentication.now) body sender.now }
{
    *answer = laying::cut_count(
        t,
        profile,
        p,
        header,
        LentTexts {
            timestamp,
            zone,
            session_name: name,
            domain,
            lengths,
            authentication,
        },
        body,
        sender,
    );
}

// Packet number i of a message.
#[unsafe(no_mangle)]
pub extern "C" fn orl_cut_packet(
    t: u64,
    profile: u64,
    p: u64,
    header: &[u64; 24],
    timestamp: &[u8],
    zone: &[u8],
    name: &[u8],
    domain: &[u8],
    lengths: &[u64],
    authentication: &[u8],
    body: &[u8],
    sender: &[u64; 2],
    i: u64,
    out: &mut [u8],
    answer: &mut [u64; 4],
)
    ensures { let x = lent timestamp.now zone.now name.now domain.now lengths.now
        authentication.now in let s = settings_of t profile in
        (answer.new ≡ packet_numbers s p header.now x body.now sender.now i (length out.old))
        × (out.new ≡ packet_out s p header.now x body.now sender.now i out.old) }
{
    *answer = laying::cut_packet(
        t,
        profile,
        p,
        header,
        LentTexts {
            timestamp,
            zone,
            session_name: name,
            domain,
            lengths,
            authentication,
        },
        body,
        sender,
        i,
        out,
    );
}
