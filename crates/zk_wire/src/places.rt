//! The bytes of a packet by their places.

ghost use Rattle.std.specs.Prelude.{◌≡◌, slice_index};

/// The byte at a place of a packet, or 0 after its end.
pub fn byte_at(packet: &[u8], place: usize) -> u8
    ensures { result ≡ slice_index packet.now place }
{
    if place < packet.len() {
        packet[place]
    } else {
        0
    }
}
