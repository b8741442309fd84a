//! The four tables and their columns.
ghost use Rattle.std.specs.Prelude.{◌≡◌, ◌≤◌};
ghost use Rattle.tatp_tables.specs.Columns.{table_of, first_column, is_fixed};

/// The four tables (TATP Benchmark Description 1.0, schema).
#[derive(Clone, Copy, Debug, PartialEq, Eq)]
pub enum Table {
    /// 34 columns, key (s_id).
    Subscriber,
    /// 6 columns, key (s_id, ai_type).
    AccessInfo,
    /// 6 columns, key (s_id, sf_type).
    SpecialFacility,
    /// 5 columns, key (s_id, sf_type, start_time).
    CallForwarding,
}

impl Table {
    /// The table of a column, of which there are 51: 0..=33, 34..=39, 40..=45, 46..=50.
    pub fn of_column(column: u8) -> Table
        requires { column ≤ 50 }
        ensures { result ≡ table_of column }
    {
        match column {
            0..=33 => Table::Subscriber,
            34..=39 => Table::AccessInfo,
            40..=45 => Table::SpecialFacility,
            _ => Table::CallForwarding,
        }
    }

    /// The number of its first column.
    pub fn first_column(self) -> u8
        ensures { result ≡ first_column self }
    {
        match self {
            Table::Subscriber => 0,
            Table::AccessInfo => 34,
            Table::SpecialFacility => 40,
            Table::CallForwarding => 46,
        }
    }
}

/// Whether a column never changes: one of a primary key, or a subscriber's number.
pub fn is_fixed(column: u8) -> bool
    ensures { result ≡ is_fixed column }
{
    matches!(column, 0 | 1 | 34 | 35 | 40 | 41 | 46 | 47 | 48)
}
