//! Sums of rows.
ghost use Rattle.std.specs.Prelude.{◌≡◌, ◌≤◌, ◌<◌, ◌+◌, ◌*◌, ◌^◌, unsigned_abs};
ghost use Rattle.table_rows.specs.Sums.{joined, no_sum, sum_of_number};
ghost use Rattle.dh_base.specs.declared.limits.TheConstants.{MOST_RECORDS};

/// The sum of some rows.
#[derive(Clone, Copy, Drop)]
pub struct Sum {
    /// The sum of their numbers, in millionths.
    pub micros: i128,
    /// How many rows there are.
    pub count: u64,
    /// How many of them have a number.
    pub plain: u64,
}

impl Sum {
    /// The sum of no rows.
    pub fn none() -> Sum
        ensures { result ≡ no_sum }
    {
        Sum {
            micros: 0,
            count: 0,
            plain: 0,
        }
    }

    /// The sum of two parts.
    pub fn join(&self, other: &Sum) -> Sum
        requires own_size { unsigned_abs self.now.micros ≤ 2 ^ 63 * self.now.count }
        requires own_plain { self.now.plain ≤ self.now.count }
        requires other_size { unsigned_abs other.now.micros ≤ 2 ^ 63 * other.now.count }
        requires other_plain { other.now.plain ≤ other.now.count }
        requires few { self.now.count + other.now.count ≤ 2 ^ 62 }
        ensures sum { result ≡ joined self.now other.now }
        ensures size { unsigned_abs result.micros ≤ 2 ^ 63 * result.count }
        ensures plain { result.plain ≤ result.count }
    {
        Sum {
            micros: self.micros + other.micros,
            count: self.count + other.count,
            plain: self.plain + other.plain,
        }
    }

    /// The sum with one more row.
    pub fn more(&self, micros: Option<i64>) -> Sum
        requires size { unsigned_abs self.now.micros ≤ 2 ^ 63 * self.now.count }
        requires plain { self.now.plain ≤ self.now.count }
        requires few { self.now.count < MOST_RECORDS }
        ensures sum { result ≡ joined self.now (sum_of_number micros) }
        ensures size { unsigned_abs result.micros ≤ 2 ^ 63 * result.count }
        ensures plain { result.plain ≤ result.count }
        ensures few { result.count ≤ self.now.count + 1 }
        ensures fit { unsigned_abs (sum_of_number micros).micros ≤ 2 ^ 63 * (sum_of_number micros).count }
    {
        self.join(&Sum::of(micros))
    }

    /// The sum of one row.
    pub fn of(micros: Option<i64>) -> Sum
        ensures sum { result ≡ sum_of_number micros }
        ensures size { unsigned_abs result.micros ≤ 2 ^ 63 * result.count }
        ensures plain { result.plain ≤ result.count }
    {
        match micros {
            Some(micros) => Sum {
                micros: i128::from(micros),
                count: 1,
                plain: 1,
            },
            None => Sum {
                micros: 0,
                count: 1,
                plain: 0,
            },
        }
    }
}
