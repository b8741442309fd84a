//! The homes of an extent: one is found, all are copied, and their rows are listed.
ghost use Rattle.std.specs.Prelude.{◌≡◌, ◌+◌, ◌<◌, ◌≤◌, ◌↔◌, IfOk, IsSome, OnOk, length};
ghost use Rattle.std.specs.List.{range_with_len};
ghost use Rattle.std.specs.Option.{option_copied};
ghost use Rattle.tatp_extents.specs.Extents.{s_ids, home_among};
ghost use Rattle.tatp_extents.specs.HomeRows.{with_homes};

use std::alloc::{AllocError, Global};
use tatp_homes::Home;
use tatp_tables::Rows;

/// The home of a subscriber among those of subscribers in a row, from the first on.
#[tactic(auto, using(crate::proofs::ExtentLaws::no_home_before, crate::proofs::ExtentLaws::home_got))]
pub(crate) fn home_in_row(homes: &[Home], first: u64, s_id: u64) -> Option<&Home>
    requires { s_ids homes.now ≡ range_with_len first (length homes.now) }
    ensures home { option_copied result ≡ home_among s_id homes.now }
    ensures lies { IsSome result ↔ ((first ≤ s_id) × (s_id < first + length homes.now)) }
{
    let place = s_id.checked_sub(first)?;
    homes.get(place as usize)
}

/// Copies of homes.
pub(crate) fn copies(alloc: Global, homes: &[Home]) -> Result<Vec<Home>, AllocError>
    ensures { IfOk result (λ copies. copies.items ≡ homes.now) }
{
    let mut copies = Vec::with_capacity(alloc, homes.len())?;
    for home in homes {
        copies.push(home.copy())?;
    }
    Ok(copies)
}

/// Appends the rows of homes, home by home. An error may leave some.
pub(crate) fn add_rows(homes: &[Home], rows: &mut Rows) -> Result<(), AllocError>
    ensures { OnOk result (rows.new ≡ with_homes rows.old homes.now) }
{
    for home in homes {
        home.add_rows(rows)?;
    }
    Ok(())
}
