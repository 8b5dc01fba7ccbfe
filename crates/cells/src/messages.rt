// What arrival and taking both stand on: messages in the store by definition, with their laws, and the segment in its cell.
ghost use Rattle.std.specs.Prelude.{◌≡◌};
ghost use Rattle.packet.specs.Reading.{read_packet};
ghost use Rattle.cells.specs.Rows.{packet_in};
ghost use Rattle.cells.specs.Pieces.{piece_of};

use walk::Settings;

// A segment in its cell: its flags, and where its body stands in its packet.
#[derive(Clone, Copy)]
pub struct Piece {
    pub flags: u8,
    pub at: usize,
    pub length: usize,
}

// The segment of a held cell.
pub fn piece_in(s: Settings, row: &[u8]) -> Piece
    ensures { result ≡ piece_of (read_packet s (packet_in row.now)) }
{
    match packet::read(s, crate::packet_in(row)) {
        Ok(h) => Piece {
            flags: h.primary.flags,
            at: h.body.at,
            length: h.body.length,
        },
        Err(_) => Piece {
            flags: 0,
            at: 0,
            length: 0,
        },
    }
}
