// The office's half: a message carried to a PDU, and a PDU back.
ghost use Rattle.std.specs.Prelude.{◌≡◌, length};
ghost use Rattle.walk.specs.Walk.{settings_of};
ghost use Rattle.carry.specs.There.{to_pdu_answer, to_pdu_output};
ghost use Rattle.carry.specs.Back.{to_message_answer, to_message_output};
ghost use Rattle.flat_office.specs.Numbers.{widest16, within as within_of, route_of, written_numbers, carried_numbers};

// A message is carried to the office.
#[unsafe(no_mangle)]
pub extern "C" fn orl_to_pdu(
    t: u64,
    profile: u64,
    message: &[u8],
    encoding: u64,
    out: &mut [u8],
    answer: &mut [u64; 4],
)
    ensures answer_after { answer.new ≡ written_numbers (to_pdu_answer (settings_of t profile) (within_of widest16 encoding) message.now
        (length out.old)) }
    ensures out_after { out.new ≡ to_pdu_output (settings_of t profile) (within_of widest16 encoding) message.now out.old }
{
    *answer = flat_office::to_pdu(t, profile, message, encoding, out);
}

// A PDU is carried back.
#[unsafe(no_mangle)]
pub extern "C" fn orl_to_message(
    t: u64,
    profile: u64,
    pdu: &[u8],
    lent: &[u64; 4],
    out: &mut [u8],
    answer: &mut [u64; 6],
)
    ensures answer_after { answer.new ≡ carried_numbers (to_message_answer (settings_of t profile) (route_of lent.now) pdu.now
        (length out.old)) }
    ensures out_after { out.new ≡ to_message_output (settings_of t profile) (route_of lent.now) pdu.now out.old }
{
    *answer = flat_office::to_message(t, profile, pdu, lent, out);
}
