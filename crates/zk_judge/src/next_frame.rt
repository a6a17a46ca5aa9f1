//! The next frame of a connection to answer.

ghost use Rattle.std.specs.Prelude.{◌≡◌, MatchOption, None, IfOk, IfSome};
ghost use Rattle.zk_transcript.specs.Walks.{placed_frame as placed_frame_of};
ghost use Rattle.zk_judge.specs.NextFrames.{IsNextFrame};

use crate::frames::{FrameRead, frame_of};
use crate::index::Index;
use std::alloc::Global;
use zk_service::UpdateRec;
use zx_base::Memory;

/// A frame of a connection.
#[derive(Drop)]
pub struct NextFrame {
    /// Its index among the connection's frames, and the place of its line.
    pub index: u64,
    pub place: usize,
    /// What it is read as.
    pub read: FrameRead,
    /// The update that carries out its request, and the place of that line.
    pub own: Option<(usize, UpdateRec)>,
}

impl NextFrame {
    /// The frame of a connection with this index.
    pub fn of(
        alloc: Global,
        index: &Index,
        connection: u32,
        next: u64,
    ) -> Result<Option<NextFrame>, Memory>
        ensures found { IfOk result (λ o. MatchOption o (placed_frame_of connection next index.now.lines.now ≡ None) (IsNextFrame index.now.lines.now connection)) }
        ensures index { IfOk result (λ o. IfSome o (λ x. x.index ≡ next)) }
    {
        let Some((place, bytes)) = index.placed_frame(connection, next) else {
            return Ok(None);
        };
        Ok(Some(NextFrame {
            index: next,
            place,
            read: frame_of(alloc, bytes)?,
            own: index.own_update(connection, next),
        }))
    }
}
