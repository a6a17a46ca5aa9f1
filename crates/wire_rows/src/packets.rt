//! Packets and texts in rows.

use row_files::{push_word, word_of};
use std::alloc::Global;
use zk_wire::{CutFault, Cutter};
use zx_base::{Bytes, Memory, Text};

/// Adds a blank and a name, and then a blank and a text for each text.
pub fn push_texts(all: &mut String, name: &str, texts: &[Text]) -> Result<(), Memory> {
    push_word(all, name)?;
    for text in texts {
        push_word(all, word_of(text.as_slice()))?;
    }
    Ok(())
}

/// The one frame of a packet; None where the packet is not one frame.
pub fn frame_of(alloc: Global, packet: &[u8]) -> Result<Option<Bytes>, Memory> {
    let mut cutter = Cutter::new(alloc);
    let mut frames = match cutter.take(packet) {
        Ok(frames) => frames,
        Err(CutFault::Memory) => return Err(Memory),
        Err(_) => return Ok(None),
    };
    if frames.len() == 1 {
        Ok(frames.pop())
    } else {
        Ok(None)
    }
}

/// Whether a packet that was written is this one, in no more room than it needs.
pub fn is_written(written: &Vec<u8>, packet: &[u8]) -> bool {
    written.capacity() == written.len() && written.as_slice() == packet
}

/// What stands after the fields of a packet that was read, by whether it is written again as it was.
pub fn note_of(same: bool) -> &'static str {
    if same { "" } else { " (written otherwise)" }
}
