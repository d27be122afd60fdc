//! Reads the rows of printed tables.
ghost use Rattle.std.specs.Prelude.{◌≡◌, ◌<◌, ◌-◌, ◌^◌, None, length, IfErr, IfOk, OnOk};
ghost use Rattle.table_audit.specs.Reading.{SaysWhy};
ghost use Rattle.table_audit.specs.Tables.{first_misspelled, rows_of};

use crate::lines::{Says, read_line};
use crate::rows::AuditRow;
use std::alloc::Global;
use text_lines::Lines;

/// Why the rows of a text cannot be read.
#[derive(Clone, Copy, Debug, PartialEq, Eq)]
pub enum RowsEnd {
    NoMemory,
    /// The first line, counted from 1, that begins with the word `table` but is not a line of a table.
    Misspelled(u32),
}

/// The rows of a text, by line; or else its first misspelled line. Takes time linear in the bytes.
pub fn read_rows(alloc: Global, text: &[u8]) -> Result<Vec<AuditRow>, RowsEnd>
    requires { length text.now < 2 ^ 32 - 1 }
    ensures rows { IfOk result (λ rows. rows.items ≡ rows_of text.now) }
    ensures spelled { OnOk result (first_misspelled text.now ≡ None) }
    ensures err { IfErr result (SaysWhy text.now) }
{
    let mut rows = Vec::new(alloc);
    let mut lines = Lines::new(text);
    while let Some(line) = lines.next() {
        let Ok(said) = read_line(alloc, text, line) else {
            return Err(RowsEnd::NoMemory);
        };
        match said {
            Says::Nothing => {}
            Says::Row(row) => {
                if rows.push(row).is_err() {
                    return Err(RowsEnd::NoMemory);
                }
            }
            Says::Misspelled => return Err(RowsEnd::Misspelled(line.number)),
        }
    }
    Ok(rows)
}
