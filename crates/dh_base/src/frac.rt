ghost use Rattle.std.specs.Prelude.{◌≡◌, ◌≢◌, ◌<◌, ◌≤◌, ◌*◌, ◌/◌, ◌^◌, ℕ, ℤ, pos, ◌<ℤ◌, ◌+ℤ◌, ◌*ℤ◌, neg_ℤ, unsigned_abs, int_div, IfOk, IfSome};
ghost use Rattle.std.specs.Int.{int_pow};
ghost use Rattle.dh_base.specs.Fractions.{gcd, some_if, fits, fits_size, fraction_of, can_compare, can_add, over_common};

use crate::plain::NumFault;
use std::cmp::Ordering;
use std::marker::Model;

/// A computed number: a fraction in lowest terms whose numerator and denominator are below 2^127
/// in size.
///
/// No call takes memory. A call whose numbers would grow past that size answers
/// [`NumFault::Wide`].
#[derive(Clone, Copy)]
pub struct Frac {
    num: i128,
    den: u128,
}

impl Model for Frac {
    ghost use Rattle.dh_base.specs.Fractions.{Fraction, ratio, IsFitting};

    ghost Value = { Fraction };

    ghost view = { λ f. ratio f.num f.den };

    ghost invariant = { λ f. IsFitting (ratio f.num f.den) };

    ghost inverse = { λ f. record { num = f.num; den = f.den } };
}

impl Frac {
    ghost use Rattle.dh_base.specs.Fractions.{
      Fraction,
      IsReduced,
      IsFitting,
      HasValue,
      negated,
      reciprocal,
      whole_part,
      add_of,
      sub_of,
      mul_of,
      div_of,
      rem_of,
      pow_of,
      cmp_of,
    };

    /// The fraction `num / den` in lowest terms.
    pub fn of(num: i128, den: i128) -> Frac
        requires positive { pos 0 <ℤ den }
        requires fits { unsigned_abs num < 2 ^ 127 }
        ensures value { result ≡ fraction_of num (unsigned_abs den) }
        ensures same { HasValue result num (unsigned_abs den) }
        ensures only { (f : Fraction) → IsReduced f → HasValue f num (unsigned_abs den) → f ≡ result }
    {
        lowest(num, den.unsigned_abs())
    }

    /// The numerator, which has the number's sign.
    pub fn num(self) -> i128
        ensures value { result ≡ self.num }
        ensures fits { unsigned_abs result < 2 ^ 127 }
    {
        self.num
    }

    /// The denominator, which is positive.
    pub fn den(self) -> i128
        ensures value { result ≡ pos self.den }
        ensures lowest { IsReduced self }
    {
        signed(self.den)
    }

    /// The sum. `Wide` where a numerator over the least common denominator, their sum or that
    /// denominator is too large.
    pub fn add(self, other: Frac) -> Result<Frac, NumFault>
        ensures answer { result ≡ add_of self other }
        ensures sum { IfOk result (λ r. HasValue r (self.num *ℤ pos other.den +ℤ other.num *ℤ pos self.den) (self.den * other.den)) }
    {
        let shared = common_divisor(self.den, other.den);
        match sum_over_common(self, other, shared) {
            Some((num, den)) => Ok(lowest(num, den)),
            None => Err(NumFault::Wide),
        }
    }

    /// The difference, which is the sum with the negated number.
    pub fn sub(self, other: Frac) -> Result<Frac, NumFault>
        ensures { result ≡ sub_of self other }
    {
        self.add(other.opposite())
    }

    /// The product. `Wide` where a number of the product in lowest terms is too large.
    pub fn mul(self, other: Frac) -> Result<Frac, NumFault>
        ensures { result ≡ mul_of self other }
    {
        let across = common_divisor(self.num.unsigned_abs(), other.den);
        let back = common_divisor(other.num.unsigned_abs(), self.den);
        let Some(num) = product(divided(self.num, across), divided(other.num, back)) else {
            return Err(NumFault::Wide);
        };
        let Some(den) = size_product(self.den / back, other.den / across) else {
            return Err(NumFault::Wide);
        };
        Ok(Frac { num, den })
    }

    /// The quotient. `ByZero` where the divisor is zero, `Wide` as for the product with its
    /// reciprocal.
    pub fn div(self, other: Frac) -> Result<Frac, NumFault>
        ensures { result ≡ div_of self other }
    {
        if other.num == 0 {
            return Err(NumFault::ByZero);
        }
        self.mul(other.turned())
    }

    /// The remainder `a - b * t`, where `t` is `a / b` cut to a whole number towards zero. Its
    /// fault is the first that these steps meet.
    pub fn rem(self, other: Frac) -> Result<Frac, NumFault>
        ensures { result ≡ rem_of self other }
    {
        let quotient = self.div(other)?;
        let multiple = other.mul(quotient.cut())?;
        self.sub(multiple)
    }

    /// The power. The power 0 of every number, 0 too, is 1. `Wide` where a number of the power in
    /// lowest terms is too large.
    pub fn pow(self, n: u32) -> Result<Frac, NumFault>
        requires { n ≤ 64 }
        ensures { result ≡ pow_of self n }
    {
        let Some(num) = power(self.num, n) else {
            return Err(NumFault::Wide);
        };
        let Some(den) = size_power(self.den, n) else {
            return Err(NumFault::Wide);
        };
        Ok(Frac { num, den })
    }

    /// How the two numbers are ordered. `Wide` where a numerator over the least common denominator
    /// is too large.
    pub fn cmp(self, other: Frac) -> Result<Ordering, NumFault>
        ensures { result ≡ cmp_of self other }
    {
        let shared = common_divisor(self.den, other.den);
        match over_common(self, other, shared) {
            Some((own, others)) => Ok(own.cmp(&others)),
            None => Err(NumFault::Wide),
        }
    }

    fn opposite(self) -> Frac
        ensures { result ≡ negated self }
    {
        Frac {
            num: opposite_of(self.num),
            den: self.den,
        }
    }

    fn turned(self) -> Frac
        requires { unsigned_abs self.num ≢ 0 }
        ensures { result ≡ reciprocal self }
    {
        let num = signed(self.den);
        Frac {
            num: if self.num < 0 { opposite_of(num) } else { num },
            den: self.num.unsigned_abs(),
        }
    }

    fn cut(self) -> Frac
        ensures { result ≡ whole_part self }
    {
        Frac {
            num: divided(self.num, self.den),
            den: 1,
        }
    }
}

fn lowest(num: i128, den: u128) -> Frac
    requires positive { 0 < den }
    requires num_fits { unsigned_abs num < 2 ^ 127 }
    requires den_fits { den < 2 ^ 127 }
    ensures { result ≡ fraction_of num den }
{
    let divisor = common_divisor(num.unsigned_abs(), den);
    Frac {
        num: divided(num, divisor),
        den: den / divisor,
    }
}

// Both numerators over the least common denominator, where they fit.
#[tactic(auto, unfolding(crate::specs::Fractions::can_compare))]
fn over_common(x: Frac, y: Frac, shared: u128) -> Option<(i128, i128)>
    requires shared { shared ≡ gcd x.den y.den }
    requires some { 0 < shared }
    ensures { result ≡ some_if (can_compare x y) (over_common x.num y.den shared, over_common y.num x.den shared) }
{
    let left = product(x.num, signed(y.den / shared));
    let right = product(y.num, signed(x.den / shared));
    left.zip(right)
}

// The sum as a numerator and the least common denominator, where all numbers on the way fit.
#[tactic(auto, unfolding(crate::specs::Fractions::can_add, crate::specs::Fractions::can_compare))]
fn sum_over_common(x: Frac, y: Frac, shared: u128) -> Option<(i128, u128)>
    requires shared { shared ≡ gcd x.den y.den }
    requires some { 0 < shared }
    ensures value { result ≡ some_if (can_add x y) (over_common x.num y.den shared +ℤ over_common y.num x.den shared, x.den / shared * y.den) }
    ensures num_fits { IfSome result (λ r. unsigned_abs r.0 < 2 ^ 127) }
    ensures den_fits { IfSome result (λ r. r.1 < 2 ^ 127) }
    ensures positive { IfSome result (λ r. 0 < r.1) }
{
    let (left, right) = over_common(x, y, shared)?;
    let num = sum(left, right);
    let den = size_product(x.den / shared, y.den);
    num.zip(den)
}

fn common_divisor(a: u128, b: u128) -> u128
    ensures value { result ≡ gcd a b }
    ensures some { 0 < b → 0 < result }
    ensures least { 0 < b → result ≤ b }
{
    let (mut x, mut y) = (a, b);
    while y != 0 {
        (x, y) = (y, x % y);
    }
    x
}

fn signed(size: u128) -> i128
    requires { size < 2 ^ 127 }
    ensures { result ≡ pos size }
{
    size as i128
}

fn opposite_of(number: i128) -> i128
    requires { unsigned_abs number < 2 ^ 127 }
    ensures { result ≡ neg_ℤ number }
{
    -number
}

fn divided(number: i128, divisor: u128) -> i128
    requires some { 0 < divisor }
    requires fits { divisor < 2 ^ 127 }
    requires number_fits { unsigned_abs number < 2 ^ 127 }
    ensures { result ≡ int_div number (pos divisor) }
{
    number / signed(divisor)
}

// The first size that does not fit.
const LIMIT: u128 = 1 << 127;

fn sum(a: i128, b: i128) -> Option<i128>
    ensures { result ≡ some_if (fits (a +ℤ b)) (a +ℤ b) }
{
    match a.checked_add(b) {
        Some(sum) if sum.unsigned_abs() < LIMIT => Some(sum),
        _ => None,
    }
}

fn product(a: i128, b: i128) -> Option<i128>
    ensures { result ≡ some_if (fits (a *ℤ b)) (a *ℤ b) }
{
    match a.checked_mul(b) {
        Some(product) if product.unsigned_abs() < LIMIT => Some(product),
        _ => None,
    }
}

fn power(a: i128, n: u32) -> Option<i128>
    ensures { result ≡ some_if (fits (int_pow a n)) (int_pow a n) }
{
    match a.checked_pow(n) {
        Some(power) if power.unsigned_abs() < LIMIT => Some(power),
        _ => None,
    }
}

fn size_product(a: u128, b: u128) -> Option<u128>
    ensures { result ≡ some_if (fits_size (a * b)) (a * b) }
{
    match a.checked_mul(b) {
        Some(product) if product < LIMIT => Some(product),
        _ => None,
    }
}

fn size_power(a: u128, n: u32) -> Option<u128>
    ensures { result ≡ some_if (fits_size (a ^ n)) (a ^ n) }
{
    match a.checked_pow(n) {
        Some(power) if power < LIMIT => Some(power),
        _ => None,
    }
}
