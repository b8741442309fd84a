//! Which subscribers lie in which extent: as many in a row as one has, and the first in extent 1.
ghost use Rattle.std.specs.Prelude.{◌≡◌, ◌≤◌};
ghost use Rattle.tatp_extents.specs.Extents.{extent_of, first_subscriber};
ghost use Rattle.tatp_extents.specs.Opening.{extent_count};

use tatp_limits::EXTENT_SUBSCRIBERS;

/// The number of the extent in which a subscriber lies, 0 for 0.
pub fn extent_of(s_id: u64) -> u64
    ensures { result ≡ extent_of s_id }
{
    s_id.div_ceil(EXTENT_SUBSCRIBERS)
}

/// Into how many extents the subscribers are divided.
pub fn extent_count(subscribers: u64) -> u64
    ensures { result ≡ extent_count subscribers }
{
    subscribers.div_ceil(EXTENT_SUBSCRIBERS)
}

/// The first subscriber of an extent.
pub fn first_subscriber(extent: u32) -> u64
    requires { 1 ≤ extent }
    ensures { result ≡ first_subscriber extent }
{
    EXTENT_SUBSCRIBERS * (extent as u64 - 1) + 1
}
