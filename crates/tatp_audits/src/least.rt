//! The least of keys that fail.
ghost use Rattle.std.specs.Prelude.{◌≡◌, ◌||◌, ◌⊎◌, Bool};
ghost use Rattle.tatp_tables.specs.Tuples.{Tuple, same};
ghost use Rattle.tatp_audits.specs.Failing.{Finds};

/// The lower of the least key so far and one more.
pub(crate) fn keep_least<const N: usize>(best: Option<[u64; N]>, key: [u64; N]) -> Option<[u64; N]>
    ensures least { (fails : Tuple → Bool) → Finds fails best.entry
        → Finds (λ k. fails k || same k key.entry) result }
    ensures one { (result ≡ best.entry) ⊎ (result ≡ Some key.entry) }
{
    let Some(other) = best else {
        return Some(key);
    };
    if other.cmp(&key).is_gt() {
        Some(key)
    } else {
        Some(other)
    }
}

/// The lower of the least keys that fail two tests: the least that fails one of them.
pub(crate) fn lower<const N: usize>(
    first: Option<[u64; N]>,
    second: Option<[u64; N]>,
) -> Option<[u64; N]>
    ensures { (f g : Tuple → Bool) → Finds f first.entry → Finds g second.entry
        → Finds (λ k. f k || g k) result }
{
    let Some(one) = first else {
        return second;
    };
    let Some(other) = second else {
        return Some(one);
    };
    if one.cmp(&other).is_gt() {
        Some(other)
    } else {
        Some(one)
    }
}
