//! Laws of the definitions, for the crates above. Nothing runs here: a clause is the law.
ghost use Rattle.tatp_tables.specs.Clean.{IsClean};
ghost use Rattle.tatp_tables.specs.declared.row.Rows.{Rows};
ghost use Rattle.tatp_numbers.specs.Lists.{IdsRunToLength, NumbersStandOnce};

/// Of clean rows, the s_ids are those that a directory is built from, and no number occurs twice.
pub fn clean_rows_make_a_directory()
    ensures ids { (r : Rows) → IsClean r → IdsRunToLength r.subscribers }
    ensures numbers { (r : Rows) → IsClean r → NumbersStandOnce r.subscribers }
{}
