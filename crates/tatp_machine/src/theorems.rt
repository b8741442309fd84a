//! Laws of the definitions, for the crates above. Nothing runs here: a clause is the law.
ghost use Rattle.std.specs.Prelude.{◌≡◌, ◌↔◌, ℕ, suc, ◌<◌, List, Option, IsSomeAnd, true, length, slice_get};
ghost use Rattle.tatp_tables.specs.Database.{Database};
ghost use Rattle.tatp_instr.specs.declared.version.Version.{Version};
ghost use Rattle.tatp_encoding.specs.Modules.{ModuleState, is_module};
ghost use Rattle.tatp_loader.specs.Lawful.{IsLawful};
ghost use Rattle.tatp_machine.specs.Calls.{CallState};
ghost use Rattle.tatp_machine.specs.Lines.{Line, Ends};
ghost use Rattle.tatp_machine.specs.Runs.{Outcome, EndsAfter, LinesLead, Alone, most_steps};
ghost use Rattle.tatp_machine.specs.VersionOne.{AloneByTable};
ghost use Rattle.tatp_instr.specs.declared.ending.End.{End};

/// A call that runs alone has one outcome. Where its module keeps the loader's rules it has an
/// outcome, after fewer lines than it may make steps.
pub fn calls_alone_have_one_outcome()
    ensures one { (modul : ModuleState) (procedure : ℕ) (arguments : List ℕ) (home : Option ℕ)
        (u : Database) (o p : Outcome)
        → Alone modul procedure arguments home u o → Alone modul procedure arguments home u p
        → o ≡ p }
    ensures some { (modul : ModuleState) (procedure : ℕ) (arguments : List ℕ) (home : Option ℕ)
        (u : Database)
        → is_module modul ≡ true → IsLawful modul
        → IsSomeAnd (slice_get modul.procedures procedure) (λ p. p.arity ≡ length arguments)
        → (o : Outcome) × (alone : Alone modul procedure arguments home u o)
        × (alone.lines < most_steps modul procedure) }
{}

/// Lines as they are made, one after another: none lead to the state itself, and one more lengthens
/// them by one. With an end after them they are a run of the call from where they began.
pub fn lines_then_an_end_are_a_run()
    ensures none { (q : CallState) (u : Database) → LinesLead 0 q u q u }
    ensures one_more { (lines : ℕ) (q q' q'' : CallState) (u u' u'' : Database)
        → LinesLead lines q u q' u' → Line q' u' q'' u'' → LinesLead (suc lines) q u q'' u'' }
    ensures ends { (lines : ℕ) (q q' : CallState) (u u' u'' : Database) (end : End)
        → LinesLead lines q u q' u' → Ends q' u' end u''
        → EndsAfter lines q u
        (record { end = end; outputs = q'.frame.outputs; database = u'' }) }
{}

/// A call of a module of version 1 runs alone exactly as by the table, which has no limits.
pub fn version_1_calls_are_by_the_table()
    ensures { (modul : ModuleState) (procedure : ℕ) (arguments : List ℕ) (home : Option ℕ)
        (u : Database) (o : Outcome) → modul.version ≡ Version.One
        → (Alone modul procedure arguments home u o
        ↔ AloneByTable modul procedure arguments home u o) }
{}
