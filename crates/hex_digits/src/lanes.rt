//! Thirty-two digits at once, in the lanes of a vector.
ghost use Rattle.std.specs.Prelude.{◌≡◌};
ghost use Rattle.std.specs.List.{list_all};
ghost use Rattle.hex_digits.specs.Lanes.{AreValues, bytes_of, is_low};

use std::simd::prelude::*;

/// The value of each digit, and something above 15 for each other byte.
#[inline(always)]
pub(crate) fn values_of(digits: u8x32) -> u8x32
    ensures { AreValues digits result }
{
    let numbers = (digits + u8x32::splat(198)).simd_max(u8x32::splat(6)) - u8x32::splat(246);
    let from_a = (digits & u8x32::splat(223)) - u8x32::splat(65);
    let letters = from_a.simd_min(u8x32::splat(245)) + u8x32::splat(10);
    numbers.simd_min(letters)
}

/// Whether each is the value of a digit.
#[inline(always)]
pub(crate) fn are_low(values: u8x32) -> bool
    ensures { result ≡ list_all is_low values }
{
    values.simd_ge(u8x32::splat(16)).to_bitmask() == 0
}

/// The bytes of values, two for each.
#[inline(always)]
pub(crate) fn joined(values: u8x32) -> u8x16
    ensures { result ≡ bytes_of values }
{
    let high: u8x16 = values.swizzle([0, 2, 4, 6, 8, 10, 12, 14, 16, 18, 20, 22, 24, 26, 28, 30]);
    let low: u8x16 = values.swizzle([1, 3, 5, 7, 9, 11, 13, 15, 17, 19, 21, 23, 25, 27, 29, 31]);
    high * u8x16::splat(16) + low
}
