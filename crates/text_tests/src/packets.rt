//! Packets as the texts of results.
use set_model::{Memory, Packet, Packets};
use text_pieces::{Piece, append_pieces};

/// Appends a packet: its set, the values of its key and its moment, as `0 80 at 5;`.
fn append_packet(packet: &Packet, told: &mut Vec<u8>) -> Result<(), Memory> {
    append_pieces(&[Piece::Number(u64::from(packet.set))], told)?;
    for value in packet.key.as_slice() {
        append_pieces(&[Piece::Word(b" "), Piece::Sum(*value)], told)?;
    }
    append_pieces(
        &[
            Piece::Word(b" at "),
            Piece::Number(packet.now),
            Piece::Word(b";"),
        ],
        told,
    )
}

/// Appends packets, one after another.
pub fn append_packets(packets: &Packets, told: &mut Vec<u8>) -> Result<(), Memory> {
    for packet in packets.as_slice() {
        append_packet(packet, told)?;
    }
    Ok(())
}
