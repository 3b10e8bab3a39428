//! Of each series the sample of the last or the first period.
ghost use Rattle.std.specs.Prelude.{◌≡◌, ◌≤◌, ◌<◌, ◌+◌, ◌*◌, ◌^◌, ◌+ℤ◌, ◌-ℤ◌, IsTrue, OnSome, IfSome, unsigned_abs, length, get_or, is_some};
ghost use Rattle.std.specs.Ordering.{is_gt};
ghost use Rattle.table_rows.specs.Samples.{in_series_order, numbered, number_of, total, outermost, series_of, goes_beyond, same_series};
ghost use Rattle.table_rows.specs.Ends.{order_of, begins_series, next_run, found_if_any};
ghost use Rattle.dh_base.specs.declared.limits.TheConstants.{MOST_RECORDS};

use crate::sample::Sample;

/// Which sample of a series counts.
#[derive(Clone, Copy)]
pub(crate) enum End {
    First,
    Last,
}

/// The sum over the samples that count, and how many series have one.
#[derive(Clone, Copy)]
pub(crate) struct Found {
    pub micros: i128,
    pub series: u64,
}

// What was found in the samples so far: the sum over those that count, how many series there are,
// and the place of the one that counts in the last series.
#[derive(Clone, Copy)]
struct Run {
    micros: i128,
    series: u64,
    best: usize,
}

fn goes_beyond(end: End, a: &Sample, b: &Sample) -> bool
    ensures { result ≡ is_gt (order_of end a.now.period b.now.period) }
{
    match end {
        End::Last => a.period.cmp(&b.period).is_gt(),
        End::First => b.period.cmp(&a.period).is_gt(),
    }
}

fn number(sample: &Sample) -> i128
    ensures value { result ≡ number_of sample.now }
    ensures size { unsigned_abs result ≤ 2 ^ 63 }
{
    match sample.micros {
        Some(micros) => i128::from(micros),
        None => 0,
    }
}

// A sum in which one number stands in the place of another.
fn moved(sum: i128, old: i128, new: i128) -> i128
    requires sum { unsigned_abs sum ≤ 2 ^ 90 }
    requires old { unsigned_abs old ≤ 2 ^ 63 }
    requires new { unsigned_abs new ≤ 2 ^ 63 }
    ensures sum { result ≡ (sum -ℤ old) +ℤ new }
    ensures size { unsigned_abs result ≤ unsigned_abs sum + 2 ^ 64 }
{
    sum - old + new
}

// Whether the sample is the first of its series.
fn begins_series(run: &Run, best: &Sample, sample: &Sample) -> bool
    ensures { result ≡ begins_series run.now best.now sample.now }
{
    run.series == 0 || sample.series != best.series
}

// The next sample, where `best` is the one that counts in the last series so far.
fn with_sample(run: &Run, best: &Sample, sample: &Sample, at: usize, end: End) -> Run
    requires size { unsigned_abs run.now.micros ≤ 2 ^ 90 }
    requires few { run.now.series < 2 ^ 32 }
    requires earlier { run.now.best ≤ at }
    ensures run { result ≡ next_run (order_of end) run.now best.now sample.now at }
    ensures size { unsigned_abs result.micros ≤ unsigned_abs run.now.micros + 2 ^ 64 }
    ensures few { result.series ≤ run.now.series + 1 }
    ensures best { result.best ≤ at }
{
    if sample.micros.is_none() {
        return *run;
    }
    if begins_series(run, best, sample) {
        return Run {
            micros: run.micros + number(sample),
            series: run.series + 1,
            best: at,
        };
    }
    if goes_beyond(end, sample, best) {
        return Run {
            micros: moved(run.micros, number(best), number(sample)),
            series: run.series,
            best: at,
        };
    }
    *run
}

/// The sum over the samples that count, one of each series, and the number of series, or `None`
/// where no sample has a number.
pub(crate) fn outermost(samples: &[Sample], end: End) -> Option<Found>
    requires few { length samples.now ≤ MOST_RECORDS }
    requires ordered { IsTrue (in_series_order samples.now) }
    ensures found { result ≡ found_if_any (numbered samples.now) (total number_of (outermost (order_of end) (numbered samples.now)))
        (length (series_of (numbered samples.now))) }
    ensures size { IfSome result (λ found. unsigned_abs found.micros < 2 ^ 127) }
    ensures some { IfSome result (λ found. 0 < found.series) }
{
    let mut run = Run {
        micros: 0,
        series: 0,
        best: 0,
    };
    for (at, sample) in samples.iter().enumerate() {
        run = with_sample(&run, &samples[run.best], sample, at, end);
    }
    if run.series == 0 {
        return None;
    }
    Some(Found {
        micros: run.micros,
        series: run.series,
    })
}
