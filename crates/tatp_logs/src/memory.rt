//! Memory of lists, reserved and written to.
ghost use Rattle.std.specs.Prelude.{◌≡◌, ◌+◌, ◌≤◌, OnOk, vec_len};
ghost use Rattle.std.specs.Vec.{vec_capacity};

use std::alloc::AllocError;

/// How many outputs a call has, where memory for many is reserved: one of the mix has 13 on
/// average.
pub(crate) const OUTPUTS_A_CALL: usize = 15;

/// Reserves memory for `more` values. A list that is full grows fourfold, since what it has is
/// copied.
pub(crate) fn make_room<T>(list: &mut Vec<T>, more: usize) -> Result<(), AllocError>
    ensures items { list.new.items ≡ list.old.items }
    ensures room { OnOk result (vec_len list.new + more ≤ vec_capacity list.new) }
{
    if more <= list.capacity() - list.len() {
        return Ok(());
    }
    list.reserve(list.len().saturating_mul(3).max(more))
}

/// Writes to the memory that is reserved in a list, for at most `more` values. The first write to
/// new memory takes long.
pub(crate) fn touch<T: Copy>(list: &mut Vec<T>, value: T, more: usize)
    ensures items { list.new.items ≡ list.old.items }
    ensures capacity { vec_capacity list.new ≡ vec_capacity list.old }
{
    let len = list.len();
    let more = more.min(list.capacity() - len);
    for _ in 0..more {
        list.push_reserved(value);
    }
    list.truncate(len);
}
