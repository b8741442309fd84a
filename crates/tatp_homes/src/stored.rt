//! Rows as a home keeps them: each column in as few bytes as its domain needs.
ghost use Rattle.std.specs.Prelude.{◌≡◌};

mod access;
mod facility;
mod forwarding;
mod subscriber;

pub use access::{StoredAccess, accesses_in, put_access};
pub use facility::{StoredFacility, facilities_in, put_facility};
pub use forwarding::{StoredForwarding, forwardings_in, put_forwarding, take_forwarding};
pub use subscriber::{StoredSubscriber, copy_subscriber, put_subscriber, subscriber_in};

/// The same cells.
pub fn copy_cells<T: Copy, const N: usize>(cells: &[T; N]) -> [T; N]
    ensures { result ≡ cells.now }
{
    *cells
}
