//! How many numbers lie in ranges, of an ascending list and of all.
ghost use Rattle.std.specs.Prelude.{◌≡◌, ◌≤◌, length};
ghost use Rattle.dh_sharing.specs.Ranges.{AreApart};
ghost use Rattle.cell_values.specs.Counts.{IsAscending, how_many_below, how_many_in, how_many_within, covered};

/// How many of an ascending list are below the end.
fn how_many_below(numbers: &[u32], end: u32) -> usize
    requires { IsAscending numbers.now }
    ensures value { result ≡ how_many_below numbers.now end }
    ensures few { result ≤ length numbers.now }
{
    let mut low = 0;
    let mut high = numbers.len();
    while low < high {
        let middle = low + (high - low) / 2;
        if numbers[middle] < end {
            low = middle + 1;
        } else {
            high = middle;
        }
    }
    low
}

/// How many of an ascending list lie in the range.
fn how_many_in(numbers: &[u32], range: (u32, u32)) -> usize
    requires { IsAscending numbers.now }
    ensures { result ≡ how_many_in numbers.now range }
{
    if range.1 <= range.0 {
        return 0;
    }
    how_many_below(numbers, range.1) - how_many_below(numbers, range.0)
}

/// How many of an ascending list lie in some of the ranges.
pub(crate) fn how_many_within(numbers: &[u32], ranges: &[(u32, u32)]) -> usize
    requires ascend { IsAscending numbers.now }
    requires apart { AreApart ranges.now }
    ensures value { result ≡ how_many_within numbers.now ranges.now }
    ensures few { result ≤ length numbers.now }
{
    let _numbers = numbers.len();
    let mut count = 0;
    for range in ranges {
        count += how_many_in(numbers, *range);
    }
    count
}

/// How many numbers the ranges hold.
pub(crate) fn covered(ranges: &[(u32, u32)]) -> u32
    requires { AreApart ranges.now }
    ensures { result ≡ covered ranges.now }
{
    let mut count = 0;
    for range in ranges {
        count += range.1 - range.0;
    }
    count
}
