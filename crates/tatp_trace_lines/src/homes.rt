//! The rows of a home as lines.
ghost use Rattle.std.specs.Prelude.{◌≡◌, ◌∷◌, ◌++◌, [], IfOk, OnOk};
ghost use Rattle.std.specs.String.{string_bytes};
ghost use Rattle.tatp_texts.specs.Text.{text_of};
ghost use Rattle.tatp_tables.specs.declared.row.Row.TheVariants.{S, A, F, C};
ghost use Rattle.tatp_trace_lines.specs.HomeText.{home_text, rows_text};

use std::alloc::{AllocError, Global};
use tatp_homes::Home;
use tatp_tables::{Row, Rows};
use tatp_texts::row_text;

/// The rows of a home, each a line: table by table, each by key.
#[tactic(auto, using(crate::proofs::HomeTextLaws::four_tables))]
pub fn home_text(alloc: Global, home: &Home) -> Result<String, AllocError>
    ensures { IfOk result (λ text. string_bytes text ≡ home_text home.now.tables) }
{
    let mut rows = Rows::new(alloc);
    home.add_rows(&mut rows)?;
    let mut text = String::new(alloc);
    push_subscribers(alloc, &mut text, rows.subscribers.as_slice())?;
    push_accesses(alloc, &mut text, rows.accesses.as_slice())?;
    push_facilities(alloc, &mut text, rows.facilities.as_slice())?;
    push_forwardings(alloc, &mut text, rows.forwardings.as_slice())?;
    Ok(text)
}

fn push_row(alloc: Global, text: &mut String, row: &Row) -> Result<(), AllocError>
    ensures { OnOk result
        (string_bytes text.new ≡ string_bytes text.old ++ (text_of row.now ++ 10 ∷ [])) }
{
    let line = row_text(alloc, row)?;
    text.push_str(line.as_str())?;
    text.push_str("\n")
}

#[tactic(auto, using(crate::proofs::HomeTextLaws::no_rows, crate::proofs::HomeTextLaws::one_row, crate::proofs::HomeTextLaws::all_rows))]
fn push_subscribers(alloc: Global, text: &mut String, rows: &[[u64; 34]]) -> Result<(), AllocError>
    ensures { OnOk result (string_bytes text.new ≡ string_bytes text.old ++ rows_text S rows.now) }
{
    for columns in rows {
        push_row(alloc, text, &Row::S(*columns))?;
    }
    Ok(())
}

#[tactic(auto, using(crate::proofs::HomeTextLaws::no_rows, crate::proofs::HomeTextLaws::one_row, crate::proofs::HomeTextLaws::all_rows))]
fn push_accesses(alloc: Global, text: &mut String, rows: &[[u64; 6]]) -> Result<(), AllocError>
    ensures { OnOk result (string_bytes text.new ≡ string_bytes text.old ++ rows_text A rows.now) }
{
    for columns in rows {
        push_row(alloc, text, &Row::A(*columns))?;
    }
    Ok(())
}

#[tactic(auto, using(crate::proofs::HomeTextLaws::no_rows, crate::proofs::HomeTextLaws::one_row, crate::proofs::HomeTextLaws::all_rows))]
fn push_facilities(alloc: Global, text: &mut String, rows: &[[u64; 6]]) -> Result<(), AllocError>
    ensures { OnOk result (string_bytes text.new ≡ string_bytes text.old ++ rows_text F rows.now) }
{
    for columns in rows {
        push_row(alloc, text, &Row::F(*columns))?;
    }
    Ok(())
}

#[tactic(auto, using(crate::proofs::HomeTextLaws::no_rows, crate::proofs::HomeTextLaws::one_row, crate::proofs::HomeTextLaws::all_rows))]
fn push_forwardings(alloc: Global, text: &mut String, rows: &[[u64; 5]]) -> Result<(), AllocError>
    ensures { OnOk result (string_bytes text.new ≡ string_bytes text.old ++ rows_text C rows.now) }
{
    for columns in rows {
        push_row(alloc, text, &Row::C(*columns))?;
    }
    Ok(())
}
