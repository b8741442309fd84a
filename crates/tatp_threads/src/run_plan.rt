//! What the threads of a run are to do.
use tatp_calls::Ask;

/// What the threads of a run are to do.
#[derive(Clone, Copy)]
pub struct RunPlan<'w> {
    /// Into how many partitions the extents are dealt.
    pub partitions: u8,
    /// What each client asks, client 0 first.
    pub lists: &'w [Vec<Ask>],
    /// What the mover does, one move after another: an extent, and the partition to which it is to
    /// be moved.
    pub moves: &'w [(u32, u8)],
    /// What the debugger does, one stop after another: the partition that is to be stopped.
    pub stops: &'w [u8],
    /// How many entries a log has, or more, when it is handed out as a chapter.
    pub chapter: u64,
}
