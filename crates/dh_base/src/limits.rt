//! The limits that several layers share, and the days that records may have, each named once.
ghost use Rattle.std.specs.Prelude.{◌≡◌};
ghost use Rattle.dh_base.specs.Limits.{is_day};

/// The most records of a kind: writes of a log; rows, events and registrations of tables; samples
/// of a cell.
pub const MOST_RECORDS: usize = 4_194_304;

/// The most bytes of all changes of a log, as they are kept.
pub const MOST_LOG_BYTES: u64 = 536_870_912;

/// The most updates of tables that an engine begins.
pub const MOST_UPDATES: u64 = 1_000_000_000_000;

/// The most bytes of a file or of a command's input.
pub const MOST_INPUT_BYTES: usize = 67_108_864;

/// 1 January 1900, the first day that is counted, as days since 1 January 1970.
pub const FIRST_DAY: i32 = -25_567;

/// 31 December 2100, the last day of a record, as days since 1 January 1970.
pub const LAST_DAY: i32 = 47_846;

/// 1 January 1910, the first day on which a query may be asked, as days since 1 January 1970.
pub const FIRST_QUERY_DAY: i64 = -21_915;

/// 31 December 2099, the last day on which a query may be asked, as days since 1 January 1970.
pub const LAST_QUERY_DAY: i64 = 47_481;

/// How many days are counted, from 1 January 1900 to 30 September 2101.
pub const COUNTED_DAYS: u32 = 73_687;

/// Whether a record may have this day.
pub fn is_day(day: i32) -> bool
    ensures { result ≡ is_day day }
{
    FIRST_DAY <= day && day <= LAST_DAY
}
