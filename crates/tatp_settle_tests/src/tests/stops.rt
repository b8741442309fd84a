//! Stops and breakpoints.

use crate::sites::{module, opened, spend_site};
use std::test::Fail;
use tatp_partition::{Site, SiteRefusal};

/// Sets the first eight breakpoints of the first procedure; whether each was set.
fn eight_set(site: &mut Site<'_>) -> bool {
    for pc in 0..8 {
        if site.set_break(0, pc).is_err() {
            return false;
        }
    }
    true
}

#[test]
fn eight_breakpoints_and_stops(rt: HostRuntime) -> Result<(), Fail> {
    let loaded = module(rt.alloc())?;
    let mut site = opened(rt.alloc(), &loaded, 130, 0)?;
    let eight = eight_set(&mut site);
    let ninth = site.set_break(0, 8);
    let fourth = site.set_break(0, 3);
    let cleared = site.clear_break(0, 3);
    let gone = site.clear_break(0, 3);
    let eighth = site.set_break(0, 8);
    let stopped = (
        site.resume(),
        site.stop(),
        site.stop(),
        site.resume(),
        site.stops(),
    );
    spend_site(site);
    assert_eq!(rt;
        (eight, ninth, fourth),
        (true, Err(SiteRefusal::TooManyBreaks), Ok(()))
    );
    assert_eq!(rt; (cleared, gone, eighth), (true, false, Ok(())));
    assert_eq!(rt;
        stopped,
        (
            Err(SiteRefusal::NotStopped),
            Ok(()),
            Err(SiteRefusal::Stopped),
            Ok(()),
            1
        )
    );
    Ok(())
}
