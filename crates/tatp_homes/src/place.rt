//! The places of a home's cells.
ghost use Rattle.std.specs.Prelude.{◌≡◌, ℕ, ◌+◌, ◌*◌, ◌<◌, ◌∷◌, [], ◌&&◌, IfSome, IfNone, Some, false, is_some, slice_get, slice_index};
ghost use Rattle.std.specs.List.{list_any};
ghost use Rattle.tatp_tables.specs.Keys.{has_key};
ghost use Rattle.tatp_tables.specs.Domains.{is_in_domain, are_in_domain};
ghost use Rattle.tatp_homes.specs.Cells.{type_keys, forwarding_keys};

use tatp_tables::in_domain;

/// The place of a type, which is 1 to 4.
#[tactic(auto, unfolding(tatp_tables::specs::Domains::is_in_domain))]
pub fn type_place(kind: u64) -> Option<usize>
    ensures some { IfSome result (λ i. slice_get type_keys i ≡ Some (kind ∷ [])) }
    ensures number { IfSome result (λ i. (i < 4) × (kind ≡ i + 1)) }
    ensures domain { is_some result ≡ is_in_domain 47 kind }
    ensures none { IfNone result (list_any (has_key (kind ∷ [])) type_keys ≡ false) }
{
    match kind {
        1 => Some(0),
        2 => Some(1),
        3 => Some(2),
        4 => Some(3),
        _ => None,
    }
}

/// The place of a type and a start time, which is 0, 8 or 16.
#[tactic(auto, unfolding(tatp_tables::specs::Domains::is_in_domain))]
pub fn forwarding_place(kind: u64, start: u64) -> Option<usize>
    ensures some { IfSome result (λ i. slice_get forwarding_keys i ≡ Some (kind ∷ start ∷ [])) }
    ensures within { IfSome result (λ i. i < 12) }
    ensures domain { is_some result ≡ (is_in_domain 47 kind && is_in_domain 48 start) }
    ensures none { IfNone result (list_any (has_key (kind ∷ start ∷ [])) forwarding_keys ≡ false) }
{
    let first = 3 * type_place(kind)?;
    match start {
        0 => Some(first),
        8 => Some(first + 1),
        16 => Some(first + 2),
        _ => None,
    }
}

/// The place of a Call_Forwarding row, where each of its columns is in its domain.
pub fn place_of_row(row: &[u64; 5]) -> Option<usize>
    ensures domain { is_some result ≡ are_in_domain 46 row.now }
    ensures some { IfSome result (λ i. slice_get forwarding_keys i
        ≡ Some (slice_index row.now 1 ∷ slice_index row.now 2 ∷ [])) }
    ensures within { IfSome result (λ i. i < 12) }
{
    if in_domain(46, row[0]) && in_domain(49, row[3]) && in_domain(50, row[4]) {
        forwarding_place(row[1], row[2])
    } else {
        None
    }
}
