//! Chapters that a site hands out, and checkpoints that are refused.

use super::calls::told;
use crate::sites::{begins, module, opened, spend_site};
use std::alloc::Global;
use std::test::Fail;
use tatp_calls::{Ask, Call, Outputs, Raw, Reply};
use tatp_extents::{Chapter, Discard};
use tatp_numbers::Key;
use tatp_partition::{Item, Site, SiteRefusal};

/// A call on subscriber 129, of a client that has seen this stamp.
fn asked(ask: Ask, seen: u64) -> Item {
    Item {
        client: 4,
        number: 9,
        seen,
        ask,
        home: Some(129),
    }
}

/// A call of UPDATE_LOCATION.
fn update(vlr_location: u64, seen: u64) -> Item {
    let call = Call::UpdateLocation {
        sub_nbr: 129,
        vlr_location,
    };
    asked(Ask::Txn(call), seen)
}

/// The procedure GET_ACCESS_DATA, which so called is no transaction.
fn raw() -> Item {
    asked(Ask::Raw(Raw::new(2, &[129, 1], Key::Id(129))), 0)
}

/// The extent, the index, the location of subscriber 129 before, how many calls there were, and the
/// location after.
type Told = (u32, u16, Option<u64>, u64, Option<u64>);

/// What a chapter says, which is then spent.
fn told_by(chapter: Chapter) -> Told {
    let before = chapter
        .before()
        .first()
        .and_then(|home| home.get(33, [129, 0, 0]));
    let after = chapter
        .after()
        .first()
        .and_then(|home| home.get(33, [129, 0, 0]));
    let told = (
        chapter.extent(),
        chapter.index(),
        before,
        chapter.entries().len() as u64,
        after,
    );
    chapter.discard();
    told
}

/// What a checkpoint of a site answers.
fn checkpoint(site: &mut Site<'_>, alloc: Global, e: u32) -> Result<Told, SiteRefusal> {
    match site.checkpoint(alloc, e) {
        Ok(chapter) => Ok(told_by(chapter)),
        Err(refusal) => Err(refusal),
    }
}

#[test]
fn a_logged_call_is_handed_out(rt: HostRuntime) -> Result<(), Fail> {
    let loaded = module(rt.alloc())?;
    let mut site = opened(rt.alloc(), &loaded, 130, 0)?;
    let began = begins(&mut site, rt.alloc(), update(7, 6));
    let running = checkpoint(&mut site, rt.alloc(), 3);
    let none_logged = site.log_len(3);
    let done = Reply::Values(Outputs::from_slice(&[]));
    let logged_call = told(&mut site, &done);
    let logged = (site.log_len(3), site.log_len(0), site.log_len(4));
    let stopped = site.stop();
    let first = checkpoint(&mut site, rt.alloc(), 3);
    let left = site.log_len(3);
    let second = checkpoint(&mut site, rt.alloc(), 3);
    let homeless = checkpoint(&mut site, rt.alloc(), 0);
    let not_here = checkpoint(&mut site, rt.alloc(), 4);
    spend_site(site);
    assert_eq!(rt; (began, running), (Ok(true), Err(SiteRefusal::Running)));
    assert_eq!(rt; (none_logged, stopped), (0, Ok(())));
    assert_eq!(rt; logged_call, Some((3, 4, 9, 7, true)));
    assert_eq!(rt; (logged, left), ((1, 0, 0), 0));
    assert_eq!(rt; first, Ok((3, 0, Some(1), 1, Some(7))));
    assert_eq!(rt; second, Ok((3, 1, Some(7), 0, Some(7))));
    assert_eq!(rt; homeless, Ok((0, 0, None, 0, None)));
    assert_eq!(rt; not_here, Err(SiteRefusal::NotHere));
    Ok(())
}

// The stamp continues after a checkpoint, though the log is empty.
#[test]
fn checkpoints_of_extents_that_are_mixed_or_elsewhere(rt: HostRuntime) -> Result<(), Fail> {
    let loaded = module(rt.alloc())?;
    let mut site = opened(rt.alloc(), &loaded, 130, 1)?;
    let elsewhere = checkpoint(&mut site, rt.alloc(), 0);
    let began = begins(&mut site, rt.alloc(), update(7, 6));
    let done = Reply::Values(Outputs::from_slice(&[]));
    let first = told(&mut site, &done);
    let handed_out = checkpoint(&mut site, rt.alloc(), 3);
    let again = begins(&mut site, rt.alloc(), update(8, 0));
    let next = told(&mut site, &done);
    let other = begins(&mut site, rt.alloc(), raw());
    let access = Reply::Values(Outputs::from_slice(&[0, 0, 4276545, 280267669825]));
    let last = told(&mut site, &access);
    let mixed = checkpoint(&mut site, rt.alloc(), 3);
    spend_site(site);
    assert_eq!(rt; elsewhere, Err(SiteRefusal::NotHere));
    assert_eq!(rt; (began, again, other), (Ok(true), Ok(true), Ok(true)));
    assert_eq!(rt;
        (first, next, last),
        (
            Some((3, 4, 9, 7, true)),
            Some((3, 4, 9, 8, true)),
            Some((3, 4, 9, 9, true))
        )
    );
    assert_eq!(rt; handed_out, Ok((3, 0, Some(1), 1, Some(7))));
    assert_eq!(rt; mixed, Err(SiteRefusal::LogEnded));
    Ok(())
}
