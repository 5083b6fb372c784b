//! Lists of numbers that are parts of a partition, lengths of rows or exponents.
ghost use Rattle.std.specs.Prelude.{◌≡◌, ◌≤◌, length, slice_index};
ghost use Rattle.sym_model.specs.Bases.{has};
ghost use Rattle.sym_model.specs.Partition.{size, without_last_zeros};

/// The number at the index `at`, counted from 0; 0 after the last number.
pub fn number_at(numbers: &[u16], at: usize) -> u16
    ensures { result ≡ slice_index numbers.now at }
{
    numbers.get(at).copied().unwrap_or(0)
}

/// Whether `part` is one of the parts.
pub fn has_part(parts: &[u16], part: u16) -> bool
    ensures { result ≡ has part parts.now }
{
    for p in parts {
        if *p == part {
            return true;
        }
    }
    false
}

/// The list of numbers without the zeros at its end.
pub fn numbers_before_zeros(numbers: &[u16]) -> &[u16]
    ensures { result.now ≡ without_last_zeros numbers.now }
{
    let mut len = numbers.len();
    while len > 0 && numbers[len - 1] == 0 {
        len -= 1;
    }
    &numbers[..len]
}

/// The sum of at most 512 numbers.
pub fn sum_of_numbers(numbers: &[u16]) -> u32
    requires { length numbers.now ≤ 512 }
    ensures { result ≡ size numbers.now }
{
    let mut sum: u32 = 0;
    for number in numbers {
        sum += u32::from(*number);
    }
    sum
}
