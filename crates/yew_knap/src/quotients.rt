//! Quotients by the weights of items without a division, which takes some 30 cycles: each weight's reciprocal is kept, a
//! number is multiplied by it, and the product's upper half is the quotient or 1 less.

ghost use Rattle.std.specs.Prelude.{◌≡◌, ◌<◌, ◌/◌};
ghost use Rattle.yew_knap.specs.Places.{reciprocal_of};

/// The reciprocal of a weight, in parts of 2^64: 2^64 - 1 divided by the weight, rounded down, and 0 for no weight.
pub fn reciprocal_of(weight: u32) -> u64
    ensures { result ≡ reciprocal_of weight }
{
    if weight == 0 {
        0
    } else {
        u64::MAX / weight as u64
    }
}

/// A number divided by a weight, rounded down, by the weight's reciprocal.
#[inline(always)]
pub fn quotient(number: u64, weight: u64, reciprocal: u64) -> u64
    requires weighs { 0 < weight }
    requires reciprocal { reciprocal ≡ reciprocal_of weight }
    ensures { result ≡ number / weight }
{
    let least = (number as u128 * reciprocal as u128 >> 64) as u64;
    if number - least * weight < weight {
        least
    } else {
        least + 1
    }
}
