//! Laws of the definitions, for the crates above. Nothing runs here: a clause is the law.
ghost use Rattle.std.specs.Prelude.{◌≡◌, ◌≢◌, ℕ};
ghost use Rattle.tatp_tables.specs.Database.{Database, of_subscriber, with_subscriber};
ghost use Rattle.tatp_homes.specs.Home.{HaveSId};

/// The rows of one subscriber are taken out of a database and put back without touching any
/// other's. A database of one subscriber's rows alone is those rows.
pub fn rows_of_one_subscriber()
    ensures put_in { (u v : Database) (s : ℕ) → HaveSId s v
        → of_subscriber (with_subscriber u s v) s ≡ v }
    ensures put_back { (u : Database) (s : ℕ) → with_subscriber u s (of_subscriber u s) ≡ u }
    ensures put_twice { (u v w : Database) (s : ℕ) → HaveSId s v
        → with_subscriber (with_subscriber u s v) s w ≡ with_subscriber u s w }
    ensures others { (u v : Database) (s other : ℕ) → s ≢ other → HaveSId s v
        → of_subscriber (with_subscriber u s v) other ≡ of_subscriber u other }
    ensures own { (u : Database) (s : ℕ) → HaveSId s (of_subscriber u s) }
    ensures alone { (v : Database) (s : ℕ) → HaveSId s v → of_subscriber v s ≡ v }
    ensures put_alone { (v w : Database) (s : ℕ) → HaveSId s v → with_subscriber v s w ≡ w }
{}
