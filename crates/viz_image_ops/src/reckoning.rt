//! The four operations on two numbers of 64 bits with a sign, as one to a generic loop.

ghost use Rattle.std.specs.Prelude.{◌≡◌};
ghost use Rattle.viz_meaning.specs.declared.op.Op.TheVariants.{Add, Sub, Min, Max};
ghost use Rattle.viz_meaning.specs.ImageFilters.{reckoned, clamped};

/// What is reckoned of two numbers.
pub(crate) trait Reckoning {
    ghost use Rattle.viz_meaning.specs.declared.op.Op.{Op};

    ghost op: { Op };

    /// What is reckoned of them, or the nearer end of 64 bits with a sign.
    fn of(m: i64, n: i64) -> i64
        ensures { result ≡ clamped (reckoned op m n) };
}

/// Their sum.
pub(crate) struct Sum;

impl Reckoning for Sum {
    ghost op = { Add };

    fn of(m: i64, n: i64) -> i64 {
        m.saturating_add(n)
    }
}

/// Their difference.
pub(crate) struct Difference;

impl Reckoning for Difference {
    ghost op = { Sub };

    fn of(m: i64, n: i64) -> i64 {
        m.saturating_sub(n)
    }
}

/// The lesser of them.
pub(crate) struct Lesser;

impl Reckoning for Lesser {
    ghost op = { Min };

    fn of(m: i64, n: i64) -> i64 {
        m.min(n)
    }
}

/// The greater of them.
pub(crate) struct Greater;

impl Reckoning for Greater {
    ghost op = { Max };

    fn of(m: i64, n: i64) -> i64 {
        m.max(n)
    }
}
