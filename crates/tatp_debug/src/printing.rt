//! The text of a snapshot.
ghost use Rattle.std.specs.Prelude.{Some};
ghost use Rattle.std.specs.List.{flat_map};
ghost use Rattle.tatp_debug.specs.Printing.{key_field, value_field, current_text, snapshot_text};

use crate::{CurrentKeys, Snapshot};
use std::fmt;
use tatp_tables::Table;

/// The key of a table's current row, or none.
#[derive(Clone, Copy)]
struct KeyField {
    table: Table,
    key: Option<[u64; 3]>,
}

impl fmt::Display for KeyField {
    ghost output = { λ field. Some (key_field field.table field.key) };

    fn fmt<W: fmt::Write>(&self, f: &mut fmt::Formatter<W>) -> fmt::Result {
        match self.key {
            None => write!(f, "-"),
            Some(key) => {
                let [first, second, third] = key;
                match self.table {
                    Table::Subscriber => write!(f, "{first}"),
                    Table::AccessInfo | Table::SpecialFacility => write!(f, "{first}.{second}"),
                    Table::CallForwarding => write!(f, "{first}.{second}.{third}"),
                }
            }
        }
    }
}

/// Values, each after a space.
#[derive(Clone, Copy)]
struct ValueFields<'a>(&'a [u64]);

impl<'a> fmt::Display for ValueFields<'a> {
    ghost output = { λ fields. Some (flat_map value_field fields.0.now) };

    fn fmt<W: fmt::Write>(&self, f: &mut fmt::Formatter<W>) -> fmt::Result {
        for value in self.0 {
            write!(f, " {value}")?;
        }
        Ok(())
    }
}

/// The key of the current row of each table, or a hyphen.
impl fmt::Display for CurrentKeys {
    ghost output = { λ keys. Some (current_text keys) };

    fn fmt<W: fmt::Write>(&self, f: &mut fmt::Formatter<W>) -> fmt::Result {
        let subscriber = KeyField {
            table: Table::Subscriber,
            key: self.subscriber,
        };
        let access = KeyField {
            table: Table::AccessInfo,
            key: self.access,
        };
        let facility = KeyField {
            table: Table::SpecialFacility,
            key: self.facility,
        };
        let forwarding = KeyField {
            table: Table::CallForwarding,
            key: self.forwarding,
        };
        write!(f, "{subscriber} {access} {facility} {forwarding}")
    }
}

/// Four lines: where it is, the registers, the current keys, the outputs. The last has no line
/// feed.
impl fmt::Display for Snapshot {
    ghost output = { λ snapshot. Some (snapshot_text snapshot) };

    fn fmt<W: fmt::Write>(&self, f: &mut fmt::Formatter<W>) -> fmt::Result {
        let name = self.name.as_str();
        let pc = self.pc;
        let line = self.line.as_str();
        let registers = ValueFields(&self.registers);
        let current = self.current;
        let outputs = ValueFields(self.outputs.as_slice());
        write!(
            f,
            "AT {name} {pc} {line}\nREGS{registers}\nCURRENT {current}\nOUT{outputs}"
        )
    }
}
