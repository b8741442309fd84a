//! Laws of the definitions, for the crates above. Nothing runs here: a clause is the law.
ghost use Rattle.std.specs.Prelude.{◌↔◌};
ghost use Rattle.tatp_tables.specs.Clean.{IdsRunFromOne, NumbersStandOnce, KeysStandOnce, ParentsStand, ValuesFit, CountsFit};
ghost use Rattle.tatp_tables.specs.declared.row.Rows.{Rows};
ghost use Rattle.tatp_audits.specs.Audits.{id_tests, number_tests, key_tests, parent_tests, value_tests, count_tests, AllPass, HaveTheirColumns};

/// The tests of each audit all pass exactly where its statement of clean rows holds.
pub fn each_audit_is_its_statement()
    ensures ids { (r : Rows) → AllPass (id_tests r) ↔ IdsRunFromOne r }
    ensures numbers { (r : Rows) → AllPass (number_tests r) ↔ NumbersStandOnce r }

    // A key is a row's first columns: of rows that lack some, two keys could be one.
    ensures keys { (r : Rows) → HaveTheirColumns r → (AllPass (key_tests r) ↔ KeysStandOnce r) }
    ensures parents { (r : Rows) → AllPass (parent_tests r) ↔ ParentsStand r }
    ensures values { (r : Rows) → AllPass (value_tests r) ↔ ValuesFit r }
    ensures counts { (r : Rows) → AllPass (count_tests r) ↔ CountsFit r }
{}
