// FIXED, document 01's signed whole number, and its arithmetic. Any value of the type may go in: each result is made
// at 64 bits, where it cannot overflow, and then held to the range.
#![tactic(auto)]

ghost use Rattle.std.specs.Prelude.{◌≡◌, not, nat_abs};
ghost use Rattle.std.specs.Int.Signed.{lt_z, non_neg};
ghost use Rattle.definition.specs.Fixed.{in_range, ranged, sum, difference, product, negative, quotient};
ghost use Rattle.definition.specs.Values.{signed_by};
ghost use Rattle.fixed.specs.Answer.{result_of, why_of};
ghost use Rattle.fixed.specs.Signed.{eq_z, stored_of, from_stored, Widened};

use definition::Why;

#[derive(Clone, Copy, PartialEq, Eq, PartialOrd, Ord)]
pub struct Fixed {
    pub value: i32,
}

// Why arithmetic gives no number in range.
#[derive(Clone, Copy, PartialEq, Eq)]
pub enum FixedError {
    OutOfRange,
    ZeroDivisor,
}

// The refusal that an error is.
impl From<FixedError> for Why {
    ghost from_gives = { λ e w. w ≡ why_of e };

    fn from(e: FixedError) -> Why {
        match e {
            FixedError::OutOfRange => Why::OutOfRange,
            FixedError::ZeroDivisor => Why::ZeroDivisor,
        }
    }
}

impl Fixed {
    pub const LEAST: i32 = -99_999;

    pub const MOST: i32 = 99_999;

    // How many places a number has as CHARACTER.
    pub const WIDTH: usize = 8;

    // What is stored for 0, so that every number in range is stored as one above 0.
    const STORED_ZERO: i64 = 100_000;

    // The range is tested here alone.
    fn in_range(n: i64) -> bool
        ensures { result ≡ in_range n }
    {
        i64::from(Fixed::LEAST) <= n && n <= i64::from(Fixed::MOST)
    }

    // The checked constructor, through which every result goes.
    pub fn of(n: i64) -> Result<Fixed, FixedError>
        ensures { result_of result ≡ ranged n }
    {
        if Fixed::in_range(n) {
            Ok(Fixed { value: n as i32 })
        } else {
            Err(FixedError::OutOfRange)
        }
    }

    // At 64 bits no operation on two such values overflows.
    fn wide(self) -> i64
        ensures { Widened self.value result }
    {
        i64::from(self.value)
    }

    pub fn add(self, other: Fixed) -> Result<Fixed, FixedError>
        ensures { result_of result ≡ sum self.value other.value }
    {
        Fixed::of(self.wide() + other.wide())
    }

    pub fn subtract(self, other: Fixed) -> Result<Fixed, FixedError>
        ensures { result_of result ≡ difference self.value other.value }
    {
        Fixed::of(self.wide() - other.wide())
    }

    pub fn multiply(self, other: Fixed) -> Result<Fixed, FixedError>
        ensures { result_of result ≡ product self.value other.value }
    {
        Fixed::of(self.wide() * other.wide())
    }

    pub fn negate(self) -> Result<Fixed, FixedError>
        ensures { result_of result ≡ negative self.value }
    {
        Fixed::of(-self.wide())
    }

    // The quotient, cut towards zero.
    pub fn divide(self, other: Fixed) -> Result<Fixed, FixedError>
        ensures { result_of result ≡ quotient self.value other.value }
    {
        let divisor = other.wide();
        if divisor == 0 {
            return Err(FixedError::ZeroDivisor);
        }
        Fixed::of(self.wide() / divisor)
    }

    pub fn is_negative(self) -> bool
        ensures { result ≡ not (non_neg self.value) }
    {
        self.value < 0
    }

    pub fn magnitude(self) -> u32
        ensures { result ≡ nat_abs self.value }
    {
        self.value.unsigned_abs()
    }

    pub fn of_magnitude(negative: bool, magnitude: u32) -> Result<Fixed, FixedError>
        ensures { result_of result ≡ ranged (signed_by negative magnitude) }
    {
        let wide = i64::from(magnitude);
        if negative {
            Fixed::of(-wide)
        } else {
            Fixed::of(wide)
        }
    }

    pub fn is_less(self, other: Fixed) -> bool
        ensures { result ≡ lt_z self.value other.value }
    {
        self.value < other.value
    }

    pub fn is_equal(self, other: Fixed) -> bool
        ensures { result ≡ eq_z self.value other.value }
    {
        self == other
    }

    // A number as a room of unsigned numbers holds it; 0 for a value out of range.
    pub fn stored(self) -> u32
        ensures { result ≡ stored_of self.value }
    {
        let wide = self.wide();
        if Fixed::in_range(wide) {
            (wide + Fixed::STORED_ZERO) as u32
        } else {
            0
        }
    }

    pub fn from_stored(n: u32) -> Result<Fixed, FixedError>
        ensures { result_of result ≡ from_stored n }
    {
        Fixed::of(i64::from(n) - Fixed::STORED_ZERO)
    }
}
