//! The form that a column's values have in text.
ghost use Rattle.std.specs.Prelude.{◌≡◌};
ghost use Rattle.tatp_texts.specs.Text.{form_of, is_decimal};

/// How a value in its column's domain is written. A value outside it is written in decimal.
#[derive(Clone, Copy, Debug, PartialEq, Eq)]
pub enum Form {
    /// A number without leading zeros.
    Decimal,
    /// A number as exactly fifteen digits.
    FifteenDigits,
    /// This many letters A..Z.
    Letters(usize),
}

/// The form of a column.
#[inline(always)]
pub fn form_of(column: u8) -> Form
    ensures { result ≡ form_of column }
{
    match column {
        1 | 50 => Form::FifteenDigits,
        38 => Form::Letters(3),
        39 | 45 => Form::Letters(5),
        _ => Form::Decimal,
    }
}

/// Whether a column's values are all written in decimal.
#[inline(always)]
pub fn is_decimal(column: u8) -> bool
    ensures { result ≡ is_decimal (form_of column) }
{
    matches!(form_of(column), Form::Decimal)
}
