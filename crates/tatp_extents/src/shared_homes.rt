//! Homes that no one changes, shared by those who keep them.
ghost use Rattle.std.specs.Prelude.{◌≡◌, [], IfOk};

use crate::homes::copies;
use std::alloc::{AllocError, Global};
use std::marker::Model;
use std::sync::Arc;
use tatp_homes::Home;

/// The homes of an extent as they were at a checkpoint. The chapters on its two sides and the
/// extent that continues from it keep them together: they are copied once.
#[derive(Debug, Drop)]
pub struct SharedHomes {
    /// Nothing where there are no homes, which takes no memory.
    homes: Option<Arc<Vec<Home>>>,
}

impl Model for SharedHomes {
    ghost use Rattle.std.specs.Coded.{coded_list};
    ghost use Rattle.std.specs.Prelude.{List};
    ghost use Rattle.tatp_homes.specs.Home.{SubscriberRows, subscriber_rows_code};
    ghost use Rattle.tatp_extents.specs.SharedHomes.{homes_held};

    ghost Value = { List SubscriberRows };

    ghost coded = { coded_list subscriber_rows_code };

    ghost view = { λ a. homes_held a.homes };
}

impl SharedHomes {
    /// No homes.
    pub(crate) fn none() -> SharedHomes
        ensures { result ≡ [] }
    {
        SharedHomes { homes: None }
    }

    /// Copies of these homes.
    pub(crate) fn of(alloc: Global, homes: &[Home]) -> Result<SharedHomes, AllocError>
        ensures { IfOk result (λ shared. shared ≡ homes.now) }
    {
        let homes = Arc::new(alloc, copies(alloc, homes)?)?;
        Ok(SharedHomes { homes: Some(homes) })
    }

    /// The same homes, kept once more.
    pub(crate) fn share(&self) -> Result<SharedHomes, AllocError>
        ensures { IfOk result (λ shared. shared ≡ self.now) }
    {
        match &self.homes {
            None => Ok(SharedHomes::none()),
            Some(homes) => Ok(SharedHomes {
                homes: Some(Arc::try_clone(homes)?),
            }),
        }
    }

    /// The homes.
    pub fn as_slice(&self) -> &[Home]
        ensures { result.now ≡ self.now }
    {
        match &self.homes {
            None => &[],
            Some(homes) => homes,
        }
    }
}
