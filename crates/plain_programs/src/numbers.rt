//! Access to lists of numbers, in which a number after the end is 0.

ghost use Rattle.std.specs.Prelude.{◌≡◌, ◌+◌, ◌^◌, ◌<◌, slice_index, drop};

/// The number at the index i, counted from 0, or 0 if the list ends before.
pub(crate) fn number_at(numbers: &[u64], i: usize) -> u64
    ensures { result ≡ slice_index numbers.now i }
{
    numbers.get(i).copied().unwrap_or(0)
}

/// The list without its first `count` numbers.
pub(crate) fn without_first(numbers: &[u64], count: u64) -> &[u64]
    ensures { result.now ≡ drop count numbers.now }
{
    match usize::try_from(count) {
        Ok(count) if count < numbers.len() => &numbers[count..],
        _ => &[],
    }
}
