//! Chapters that are handed out, until there are 65,535.

use super::extents::clean_rows;
use std::alloc::Global;
use std::test::Fail;
use tatp_extents::{Chapter, CheckpointError, Discard, Extent, Homeless, discard_all, open};

/// Why no chapter was handed out; one that was is discarded.
fn refused(handed_out: Result<Chapter, CheckpointError>) -> Option<CheckpointError> {
    match handed_out {
        Ok(chapter) => {
            chapter.discard();
            None
        }
        Err(error) => Some(error),
    }
}

/// The extent, the index, how many homes were before, how many calls there were, and how many homes
/// after.
fn shape(handed_out: Result<Chapter, CheckpointError>) -> Option<(u32, u16, usize, usize, usize)> {
    match handed_out {
        Ok(chapter) => {
            let shape = (
                chapter.extent(),
                chapter.index(),
                chapter.before().len(),
                chapter.entries().len(),
                chapter.after().len(),
            );
            chapter.discard();
            Some(shape)
        }
        Err(_) => None,
    }
}

/// How many chapters came before the first that was refused, and why that was, of 65,536
/// checkpoints.
fn chapters_without_homes(
    homeless: &mut Homeless,
    alloc: Global,
) -> Option<(u32, CheckpointError)> {
    for count in 0..65536 {
        if let Some(error) = refused(homeless.checkpoint(alloc)) {
            return Some((count, error));
        }
    }
    None
}

/// The same of an extent.
fn chapters_of(extent: &mut Extent, alloc: Global) -> Option<(u32, CheckpointError)> {
    for count in 0..65536 {
        if let Some(error) = refused(extent.checkpoint(alloc)) {
            return Some((count, error));
        }
    }
    None
}

#[test]
fn calls_without_a_home_have_65535_chapters(rt: HostRuntime) -> Result<(), Fail> {
    let mut homeless = Homeless::new(rt.alloc());
    let first = shape(homeless.checkpoint(rt.alloc()));
    let full = chapters_without_homes(&mut homeless, rt.alloc());
    let left = (
        homeless.is_mixed(),
        homeless.chapters(),
        homeless.log_len(),
        homeless.last_stamp(),
    );
    homeless.end_mixed();
    let ended = refused(homeless.checkpoint(rt.alloc()));
    assert_eq!(rt; first, Some((0, 0, 0, 0, 0)));
    assert_eq!(rt; full, Some((65534, CheckpointError::ChapterCountFull)));
    assert_eq!(rt; left, (false, 65535, 0, 0));
    assert_eq!(rt; ended, Some(CheckpointError::LogEnded));
    Ok(())
}

/// The chapters, the homes at the last checkpoint and now, the length of the log and the last
/// stamp.
fn state(extent: &Extent) -> (u16, usize, usize, u64, u64) {
    (
        extent.chapters(),
        extent.opening().len(),
        extent.homes().len(),
        extent.log_len(),
        extent.last_stamp(),
    )
}

/// Why an extent hands out no chapter after a call that is no standard transaction.
fn refused_when_mixed(extent: Extent, alloc: Global, s_id: u64) -> Option<CheckpointError> {
    if extent.home(s_id).is_none() {
        let _ = extent.close();
        return None;
    }
    match extent.pin(alloc, s_id) {
        Ok(pinned) => {
            let mut mixed = pinned.end_mixed();
            let ended = refused(mixed.checkpoint(alloc));
            let _ = mixed.close();
            ended
        }
        Err(extent) => {
            let _ = extent.close();
            None
        }
    }
}

#[test]
fn an_extent_has_65535_chapters(rt: HostRuntime) -> Result<(), Fail> {
    let (mut extents, _directory) = open(rt.alloc(), clean_rows(rt.alloc(), 65)?, 1)?;
    let mut first = None;
    let mut full = None;
    let mut left = None;
    let mut ended = None;
    if let Some(mut extent) = extents.pop() {
        first = shape(extent.checkpoint(rt.alloc()));
        full = chapters_of(&mut extent, rt.alloc());
        left = Some(state(&extent));
        ended = refused_when_mixed(extent, rt.alloc(), 65);
    }
    discard_all(extents);
    assert_eq!(rt; first, Some((2, 0, 1, 0, 1)));
    assert_eq!(rt; full, Some((65534, CheckpointError::ChapterCountFull)));
    assert_eq!(rt; left, Some((65535, 1, 1, 0, 0)));
    assert_eq!(rt; ended, Some(CheckpointError::LogEnded));
    Ok(())
}
