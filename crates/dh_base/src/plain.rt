/// Which approval a row has to have.
#[derive(Clone, Copy)]
pub enum Need {
    /// Every row, whether approved or not.
    All,
    /// Rows approved at an approval level up to this one.
    Upto(u8),
}

/// How the values of a cell are made into one.
#[derive(Clone, Copy)]
pub enum AggType {
    Sum,
    Average,
    AverageSumOrgUnit,
    Last,
    First,
    LastAverageOrgUnit,
    FirstAverageOrgUnit,
    Count,
    Min,
    Max,
    /// No value is made.
    None,
}

/// When an expression is skipped for its missing values.
#[derive(Clone, Copy)]
pub enum Strategy {
    SkipIfAny,
    SkipIfAll,
    Never,
}

/// The figure of a data set that a reporting rate item asks for.
#[derive(Clone, Copy, PartialEq, Eq)]
pub enum Rate {
    /// `EXPECTED_REPORTS`
    Expected,
    /// `ACTUAL_REPORTS`
    Actual,
    /// `ACTUAL_REPORTS_ON_TIME`
    OnTime,
    /// `REPORTING_RATE`
    Reported,
    /// `REPORTING_RATE_ON_TIME`
    ReportedOnTime,
}

/// What an update of the tables rebuilds: all years, or the latest part alone.
#[derive(Clone, Copy)]
pub enum CutKind {
    Full,
    Latest,
}

/// Why a computed number is not there.
#[derive(Clone, Copy)]
pub enum NumFault {
    /// A whole number on the way is 2^127 or more in size.
    Wide,
    /// The divisor is zero.
    ByZero,
}
