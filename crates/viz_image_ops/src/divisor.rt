//! Division by one number many times, by multiplication.

ghost use Rattle.std.specs.Prelude.{◌≡◌, ◌+◌, ◌/◌, ◌^◌, ◌<◌};
ghost use Rattle.viz_meaning.specs.ImageFilters.{floor_of};
ghost use Rattle.viz_image_ops.specs.Sums.{IsWithin};

/// A divisor, and the factor whose product with a number has its quotient 63 bits up.
#[derive(Clone, Copy)]
pub(crate) struct Divisor {
    number: u64,
    factor: u64,
    ghost some: { 0 < number },
    ghost few: { number < 2 ^ 31 },
    ghost upper: { factor ≡ 2 ^ 63 / number + 1 },
}

impl Divisor {
    /// Division by a number.
    pub(crate) fn new(number: u64) -> Divisor
        requires some { 0 < number }
        requires few { number < 2 ^ 31 }
        ensures { result.number ≡ number }
    {
        Divisor {
            number,
            factor: (1 << 63) / number + 1,
        }
    }

    /// Division by a number, which is mostly the one that it was.
    pub(crate) fn renewed(self, number: u64) -> Divisor
        requires some { 0 < number }
        requires few { number < 2 ^ 31 }
        ensures { result.number ≡ number }
    {
        if self.number == number {
            return self;
        }
        Divisor::new(number)
    }

    /// The quotient of a number, rounded down. One of 63 bits is mostly multiplied, which takes a
    /// part of the time.
    pub(crate) fn quotient(&self, n: &i128) -> i128
        requires { IsWithin (2 ^ 96) (2 ^ 96) n.now }
        ensures { result ≡ floor_of n.now self.now.number }
    {
        match i64::try_from(*n) {
            Ok(n) => i128::from(self.floor(&n)),
            Err(_) => n.div_euclid(i128::from(self.number)),
        }
    }

    /// The quotient of a number of 64 bits, rounded down. Both signs take the same steps, since
    /// they come in no order.
    fn floor(&self, n: &i64) -> i64
        ensures { result ≡ floor_of n.now self.now.number }
    {
        let size = if *n < 0 {
            n.unsigned_abs() - 1
        } else {
            n.unsigned_abs()
        };
        let quotient = self.small(size) as i64;
        if *n < 0 { -1 - quotient } else { quotient }
    }

    /// The quotient of a number without a sign, rounded down.
    fn small(&self, n: u64) -> u64
        ensures { result ≡ n / self.now.number }
    {
        if n < self.factor - 1 {
            return ((u128::from(n) * u128::from(self.factor)) >> 63) as u64;
        }
        n / self.number
    }
}
