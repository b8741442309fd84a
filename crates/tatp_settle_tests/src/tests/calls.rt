//! A call from its beginning to its end, and calls that don't begin.

use crate::sites::{begins, ended, module, opened, refused_take, spend_site};
use std::test::Fail;
use tatp_calls::{Ask, Call, Outputs, Reply};
use tatp_partition::{Item, Site, SiteRefusal};

/// A call of GET_ACCESS_DATA on a subscriber, of a client that has seen this stamp.
fn reading(s_id: u64, home: Option<u64>, seen: u64) -> Item {
    Item {
        client: 4,
        number: 9,
        seen,
        ask: Ask::Txn(Call::GetAccessData { s_id, ai_type: 1 }),
        home,
    }
}

/// Steps the running call to its end: its extent, its client and number, its stamp, and whether it
/// was answered so.
pub fn told(site: &mut Site<'_>, reply: &Reply) -> Option<(u32, u64, u64, u64, bool)> {
    let completion = ended(site)?;
    let entry = &completion.entry;
    let same = entry.reply == *reply;
    Some((
        completion.extent,
        entry.client,
        entry.number,
        entry.stamp,
        same,
    ))
}

#[test]
fn a_call_is_logged(rt: HostRuntime) -> Result<(), Fail> {
    let loaded = module(rt.alloc())?;
    let mut site = opened(rt.alloc(), &loaded, 130, 0)?;
    let began = begins(&mut site, rt.alloc(), reading(129, Some(129), 6));
    let running = begins(&mut site, rt.alloc(), reading(1, Some(1), 0));
    let pinned = refused_take(&mut site, 3);
    let home = site.home(129).is_some() && site.machine().is_some();
    let access = Reply::Values(Outputs::from_slice(&[0, 0, 4276545, 280267669825]));
    let first = told(&mut site, &access);
    let again = begins(&mut site, rt.alloc(), reading(130, Some(130), 0));
    let next = told(&mut site, &access);
    spend_site(site);
    assert_eq!(rt;
        (began, running, again),
        (Ok(true), Err(SiteRefusal::Running), Ok(true))
    );
    assert_eq!(rt; (pinned, home), (Some(SiteRefusal::Pinned), true));
    assert_eq!(rt;
        (first, next),
        (Some((3, 4, 9, 7, true)), Some((3, 4, 9, 8, true)))
    );
    Ok(())
}

#[test]
fn calls_that_do_not_begin(rt: HostRuntime) -> Result<(), Fail> {
    let loaded = module(rt.alloc())?;
    let mut site = opened(rt.alloc(), &loaded, 130, 0)?;
    let away = begins(&mut site, rt.alloc(), reading(131, Some(131), 0));
    let wrong_home = begins(&mut site, rt.alloc(), reading(5, Some(6), 0));
    let stamp_full = begins(&mut site, rt.alloc(), reading(5, Some(5), u64::MAX));
    let homeless = begins(&mut site, rt.alloc(), reading(131, None, 0));
    let found_nothing = told(&mut site, &Reply::Failed(1));
    spend_site(site);
    assert_eq!(rt;
        (away, wrong_home, stamp_full, homeless),
        (
            Ok(false),
            Err(SiteRefusal::WrongHome),
            Err(SiteRefusal::StampFull),
            Ok(true)
        )
    );
    assert_eq!(rt; found_nothing, Some((0, 4, 9, 1, true)));
    Ok(())
}
