// The office's PDU itself: reading one, and writing one.
ghost use Rattle.std.specs.Prelude.{◌≡◌, length};
ghost use Rattle.write.specs.Given.{lent};
ghost use Rattle.pdu.specs.Reading.{read_pdu};
ghost use Rattle.flat_pdu.specs.Numbers.{read_numbers, write_numbers, write_out};

use write::LentTexts;

// Reading a PDU.
#[unsafe(no_mangle)]
pub extern "C" fn orl_pdu_read(pdu: &[u8], answer: &mut [u64; 70])
    ensures { answer.new ≡ read_numbers (read_pdu pdu.now) }
{
    *answer = flat_pdu::pdu_read(pdu);
}

// Writing a PDU.
#[unsafe(no_mangle)]
pub extern "C" fn orl_pdu_write(
    values: &[u64; 19],
    source: &[u8],
    destination: &[u8],
    timestamp: &[u8],
    zone: &[u8],
    name: &[u8],
    domain: &[u8],
    lengths: &[u64],
    authentication: &[u8],
    body: &[u8],
    out: &mut [u8],
    answer: &mut [u64; 3],
)
    ensures { let x = lent timestamp.now zone.now name.now domain.now lengths.now
        authentication.now in
        (answer.new ≡ write_numbers values.now source.now destination.now x body.now
        (length out.old))
        × (out.new ≡ write_out values.now source.now destination.now x body.now out.old) }
{
    *answer = flat_pdu::pdu_write(
        values,
        source,
        destination,
        LentTexts {
            timestamp,
            zone,
            session_name: name,
            domain,
            lengths,
            authentication,
        },
        body,
        out,
    );
}
