//! Laws of divisors, points, crossings and floors. A function that calls one may rest on it.
ghost use Rattle.viz_fraction.specs.Divisors.{GcdIsGreatest};
ghost use Rattle.viz_fraction.specs.Points.{DivisorIsGreatest, ReducedIsSamePlace};
ghost use Rattle.viz_fraction.specs.Points.{ReducedIsLowest, SamePlaceIsSamePoint, PointIsReduced};
ghost use Rattle.viz_fraction.specs.Crossings.{CrossingIsZero, CrossingIsBetween};
ghost use Rattle.viz_fraction.specs.Crossings.{CrossingAtInsideEnd, EdgeHasOneCrossing};
ghost use Rattle.viz_fraction.specs.Decimals.{FixedIsFloor};
ghost use Rattle.viz_fraction.specs.Places.{EqualPositionsHaveOnePlace};

/// The greatest common divisor of two numbers, and that of five, is what its name says.
pub fn divisors_are_greatest()
    ensures two { GcdIsGreatest }
    ensures five { DivisorIsGreatest }
{}

/// Lowest terms keep the place and the scalar, and are one for all numbers that have both.
pub fn lowest_terms_are_one()
    ensures place { ReducedIsSamePlace }
    ensures lowest { ReducedIsLowest }
    ensures same { SamePlaceIsSamePoint }
    ensures kept { PointIsReduced }
{}

/// A crossing is where the form is 0 on the segment between its ends, whichever is named first.
pub fn crossings_are_zeros()
    ensures zero { CrossingIsZero }
    ensures between { CrossingIsBetween }
    ensures inside_end { CrossingAtInsideEnd }
    ensures edge { EdgeHasOneCrossing }
{}

/// A fixed-point number is the floor of its fraction.
pub fn decimals_are_floors()
    ensures floor { FixedIsFloor }
{}

/// Points at one position have one place, whatever their scalars, and points at two have two.
pub fn places_are_one()
    ensures one { EqualPositionsHaveOnePlace }
{}
