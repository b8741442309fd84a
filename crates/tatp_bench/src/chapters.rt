//! The chapters that all executors kept, in one list.
ghost use Rattle.std.specs.Prelude.{◌≡◌, ◌++◌, IfOk};
ghost use Rattle.tatp_logs.specs.Lists.{lists_of};
ghost use Rattle.tatp_settle.specs.Runs.{joined};

use std::alloc::{AllocError, Global};
use tatp_extents::{Chapter, discard_all};

/// Two lists in one. Without memory for it they are spent.
fn join_two(first: Vec<Chapter>, second: Vec<Chapter>) -> Result<Vec<Chapter>, AllocError>
    ensures { IfOk result (λ both. both.items ≡ first.items ++ second.items) }
{
    let mut both = first;
    let mut rest = second;
    match both.append(&mut rest) {
        Ok(()) => {
            rest.destroy_empty();
            Ok(both)
        }
        Err(error) => {
            discard_all(both);
            discard_all(rest);
            Err(error)
        }
    }
}

/// All lists in one, in their order. Without memory for it they are spent.
pub(crate) fn join_chapters(
    alloc: Global,
    lists: Vec<Vec<Chapter>>,
) -> Result<Vec<Chapter>, AllocError>
    ensures { IfOk result (λ all. all.items ≡ joined (lists_of lists.items)) }
{
    let mut rest = lists;
    let mut all = Vec::new(alloc);
    while let Some(last) = rest.pop() {
        match join_two(last, all) {
            Ok(both) => all = both,
            Err(error) => {
                discard_all(rest);
                return Err(error);
            }
        }
    }
    rest.destroy_empty();
    Ok(all)
}
