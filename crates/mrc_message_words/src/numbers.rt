//! Numbers as bytes, the low one first.

ghost use Rattle.std.specs.Prelude.{◌≡◌, ◌*◌, ◌^◌, ◌<◌, ◌≤◌, ◌++◌, length, flat_map, nat_lt, OnOk};
ghost use Rattle.std.specs.Prelude.{IfOk, IsTrue, ◌↔◌};
ghost use Rattle.std.specs.List.{AllByRecursion};
ghost use Rattle.mrc_message_words.specs.Values.{number_bytes};

use std::alloc::{AllocError, Global};

/// Whether the number is below 2 to this number of bits.
pub(crate) fn has_bits(size: u16, number: u64) -> bool
    ensures { result ≡ nat_lt number (2 ^ size) }
{
    size >= 64 || number >> size == 0
}

/// Whether each of the numbers is.
pub(crate) fn have_bits(size: u16, numbers: &[u64]) -> bool
    ensures { IsTrue result ↔ AllByRecursion (λ number. number < 2 ^ size) numbers.now }
{
    for number in numbers {
        if !has_bits(size, *number) {
            return false;
        }
    }
    true
}

fn put_number(out: &mut Vec<u8>, width: usize, number: u64) -> Result<(), AllocError>
    ensures { OnOk result (out.new.items ≡ out.old.items ++ number_bytes width number) }
{
    let mut rest = number;
    for _ in 0..width {
        out.push((rest % 256) as u8)?;
        rest /= 256;
    }
    Ok(())
}

/// The bytes of the numbers, so many for each.
pub(crate) fn numbers_bytes(
    alloc: Global,
    width: usize,
    numbers: &[u64],
) -> Result<Vec<u8>, AllocError>
    ensures { IfOk result (λ bytes. bytes.items ≡ flat_map (number_bytes width) numbers.now) }
{
    let mut out = Vec::new(alloc);
    for number in numbers {
        put_number(&mut out, width, *number)?;
    }
    Ok(out)
}

/// The number that these bytes are, eight at most.
fn number_at(bytes: &[u8]) -> u64
    requires { length bytes.now ≤ 8 }
    ensures back { number_bytes (length bytes.now) result ≡ bytes.now }
    ensures fits { result < 2 ^ (8 * length bytes.now) }
{
    let mut number = 0u64;
    let mut place = bytes.len();
    while place > 0 {
        place -= 1;
        number = number * 256 + u64::from(bytes[place]);
    }
    number
}

/// So many numbers of so many bytes each, which these bytes are.
pub(crate) fn numbers_at(
    alloc: Global,
    width: usize,
    count: usize,
    bytes: &[u8],
) -> Result<Vec<u64>, AllocError>
    requires few { width ≤ 8 }
    requires all { length bytes.now ≡ count * width }
    ensures count { IfOk result (λ numbers. length numbers.items ≡ count) }
    ensures back { IfOk result (λ numbers.
        flat_map (number_bytes width) numbers.items ≡ bytes.now) }
    ensures fits { IfOk result (λ numbers.
        AllByRecursion (λ number. number < 2 ^ (8 * width)) numbers.items) }
{
    let mut numbers = Vec::new(alloc);
    let mut rest = bytes;
    for _ in 0..count {
        let (item, behind) = rest.split_at(width);
        numbers.push(number_at(item))?;
        rest = behind;
    }
    Ok(numbers)
}
