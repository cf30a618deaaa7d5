//! The field of 256 elements, and linear systems over it.
#![tactic(auto)]

ghost use Rattle.std.specs.Prelude.{◌≡◌, ◌≢◌, ◌%◌, ◌<◌};
ghost use Rattle.gf256.specs.Field.{IsElement, IsProduct, alpha, inverse, plus, power, times};

pub mod laws;
mod linear;
mod tables;

pub use linear::{null_vector, solve};
use tables::{alpha_power, logarithm};

/// An element of the field: a polynomial over the two-element field of degree below 8, in a byte
/// whose bit i is the coefficient of x^i.
#[derive(Clone, Copy, PartialEq, Eq, Debug)]
pub struct Gf {
    pub value: u8,
}

impl Gf {
    /// The element 0.
    pub const ZERO: Gf = Gf { value: 0 };

    /// The element 1.
    pub const ONE: Gf = Gf { value: 1 };

    /// The sum, which is the difference as well.
    pub fn add(self, other: Gf) -> Gf
        ensures value { result.value ≡ plus self.value other.value }

        // Terms that come out of an array are bytes too.
        ensures elements { IsElement self.value × IsElement other.value }
    {
        Gf {
            value: self.value ^ other.value,
        }
    }

    /// The product, by two look-ups.
    pub fn mul(self, other: Gf) -> Gf
        ensures product { IsProduct self.value other.value result.value }
        ensures value { result.value ≡ times self.value other.value }

        // Factors that come out of an array are bytes too.
        ensures elements { IsElement self.value × IsElement other.value }
    {
        let exponent = logarithm(self.value) + logarithm(other.value);
        Gf {
            value: alpha_power(exponent),
        }
    }

    /// The product again, by doublings and sums alone: a loop over many products makes sixteen of
    /// these at a time, where it looks each other one up by itself.
    pub fn mul_by_doubling(self, other: Gf) -> Gf
        ensures product { IsProduct self.value other.value result.value }
        ensures value { result.value ≡ times self.value other.value }
        ensures elements { IsElement self.value × IsElement other.value }
    {
        let mut sum = 0;
        let mut rest = self.value;
        let mut doubled = other.value;
        for _bit in 0..8u32 {
            sum ^= where_odd(rest, doubled);
            rest /= 2;
            doubled = times_x(doubled);
        }
        Gf { value: sum }
    }

    /// The power to the exponent `e`. Every element to the power 0 is 1, 0 included.
    pub fn pow(self, e: u32) -> Gf
        ensures { result.value ≡ power self.value e }
    {
        if e == 0 {
            return Self::ONE;
        }
        if self.value == 0 {
            return Self::ZERO;
        }
        let exponent = u64::from(logarithm(self.value)) * u64::from(e) % 255;
        Gf {
            value: alpha_power(exponent as u16),
        }
    }

    /// The inverse of an element that is not 0: their product is 1.
    pub fn inv(self) -> Gf
        requires { self.value ≢ 0 }
        ensures product { IsProduct self.value result.value 1 }
        ensures value { result.value ≡ inverse self.value }
    {
        Gf {
            value: alpha_power(255 - logarithm(self.value)),
        }
    }
}

/// The product of an element and x.
fn times_x(element: u8) -> u8
    ensures { result ≡ times alpha element }
{
    let carry = if element < 128 { 0 } else { 29 };
    element << 1 ^ carry
}

/// The element where the number is odd, and 0 where it is even.
fn where_odd(number: u8, element: u8) -> u8
    ensures { result ≡ times (number % 2) element }
{
    if number % 2 == 1 { element } else { 0 }
}
