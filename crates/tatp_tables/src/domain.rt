//! The values that each column may have.
ghost use Rattle.std.specs.Prelude.{◌≡◌};
ghost use Rattle.tatp_lines.specs.Numbers.{is_between};
ghost use Rattle.tatp_tables.specs.Domains.{is_in_domain, are_letters};

fn is_letter(value: u64) -> bool
    ensures { result ≡ is_between 65 90 value }
{
    value >= 65 && value <= 90
}

/// Whether the value is three letters A..Z, packed as bytes.
fn is_three_letters(value: u64) -> bool
    ensures { result ≡ are_letters 3 value }
{
    is_letter(value % 256)
        && is_letter(value / 256 % 256)
        && is_letter(value / 256 / 256 % 256)
        && value / 256 / 256 / 256 == 0
}

/// Whether the value is five letters A..Z, packed as bytes.
fn is_five_letters(value: u64) -> bool
    ensures { result ≡ are_letters 5 value }
{
    is_letter(value % 256) && is_letter(value / 256 % 256) && is_three_letters(value / 256 / 256)
}

/// Whether a column may have this value; false where there is no such column (above 50).
#[tactic(auto, unfolding(crate::specs::Domains::is_in_domain))]
pub fn in_domain(column: u8, value: u64) -> bool
    ensures { result ≡ is_in_domain column value }
{
    match column {
        0 => value >= 1 && value <= 4294967295,
        1 => value <= 999999999999999,
        2..=11 => value <= 1,
        12..=21 => value <= 15,
        22..=31 => value <= 255,
        32..=34 => value >= 1 && value <= 4294967295,
        35 => value >= 1 && value <= 4,
        36..=37 => value <= 255,
        38 => is_three_letters(value),
        39 => is_five_letters(value),
        40 => value >= 1 && value <= 4294967295,
        41 => value >= 1 && value <= 4,
        42 => value <= 1,
        43..=44 => value <= 255,
        45 => is_five_letters(value),
        46 => value >= 1 && value <= 4294967295,
        47 => value >= 1 && value <= 4,
        48 => value == 0 || value == 8 || value == 16,
        49 => value >= 1 && value <= 24,
        50 => value <= 999999999999999,
        _ => false,
    }
}
