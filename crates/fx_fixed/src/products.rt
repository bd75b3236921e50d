//! Exact products.

ghost use Rattle.std.specs.Prelude.{◌≡◌, ◌≤◌, ◌^◌, ◌*ℤ◌, unsigned_abs};

/// The product of two numbers of 32 bits.
#[inline(always)]
pub fn product(a: i32, b: i32) -> i64
    ensures value { result ≡ a *ℤ b }
    ensures size { unsigned_abs result ≤ 2 ^ 62 }
{
    i64::from(a) * i64::from(b)
}

/// The product of a number of 32 bits and one of 16 bits, as those in 2.14 are.
#[inline(always)]
pub fn product_16(a: i32, b: i16) -> i64
    ensures value { result ≡ a *ℤ b }
    ensures size { unsigned_abs result ≤ 2 ^ 46 }
{
    product(a, i32::from(b))
}

/// The product of two numbers of 64 bits.
#[inline(always)]
pub fn wide_product(a: i64, b: i64) -> i128
    ensures { result ≡ a *ℤ b }
{
    i128::from(a) * i128::from(b)
}
