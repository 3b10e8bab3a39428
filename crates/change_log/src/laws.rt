//! What follows from the definitions alone.
ghost use Rattle.std.specs.Prelude.{◌≡◌, ◌+◌, ◌∷◌, ◌++◌, [], List, length, pos, neg_ℤ};
ghost use Rattle.dh_periods.specs.Calendar.{day_place, unix_day};
ghost use Rattle.dh_changes.specs.declared.change.Change.{Change};
ghost use Rattle.change_log.specs.Bytes.{change_bytes};
ghost use Rattle.change_log.specs.LogBytes.{log_bytes};

/// A log's next change has the next number, and its bytes come after those of the log.
pub fn log_grows()
    ensures { (log : List Change) → (change : Change)
        → log_bytes (log ++ change ∷ []) ≡ log_bytes log ++ change_bytes (length log + 1) change }
{}

/// The days that a write may name are those of the years 1900 to 2100.
pub fn days_are_of_the_years()
    ensures first { unix_day (day_place 1900 1 1) ≡ neg_ℤ (pos 25567) }
    ensures last { unix_day (day_place 2100 12 31) ≡ pos 47846 }
{}
