//! Laws of the six tetrahedra and of the list of all. A function that calls one may rest on it.
ghost use Rattle.viz_kuhn.specs.Kuhn.{HasThreeAxes, HasEveryOrder, OrdersDiffer, ParityIsOfOrder};
ghost use Rattle.viz_kuhn.specs.Kuhn.{CornersFollowPath, OnlyCorners, EveryCorner, SharesDiagonal};
ghost use Rattle.viz_kuhn.specs.Kuhn.{EdgesAreSteps};
ghost use Rattle.viz_kuhn.specs.Places.{IsPositiveSixth};
ghost use Rattle.viz_kuhn.specs.Cubes.{ListsEachCube, NumbersXFastest, NumbersEachCube};
ghost use Rattle.viz_kuhn.specs.Cubes.{ListsSixEach, ListsInOrder};

/// The rows have the six orders of the three axes, each once.
pub fn orders_are_six()
    ensures axes { HasThreeAxes }
    ensures every { HasEveryOrder }
    ensures differ { OrdersDiffer }
{}

/// A row's corners are the path along its axes; where the order is odd, the middle ones change
/// places.
pub fn paths_are_followed()
    ensures parity { ParityIsOfOrder }
    ensures path { CornersFollowPath }
{}

/// The six have the eight corners of the cube and no other, and each has the lowest and the
/// highest.
pub fn corners_are_the_cubes()
    ensures only { OnlyCorners }
    ensures every { EveryCorner }
    ensures diagonal { SharesDiagonal }
{}

/// Each edge goes from a corner to that corner plus one of seven vectors of zeros and ones.
pub fn edges_are_steps()
    ensures steps { EdgesAreSteps }
{}

/// Each tetrahedron is positively oriented and a sixth of its cube, wherever that lies.
pub fn sixths_are_positive()
    ensures volume { IsPositiveSixth }
{}

/// Cubes are numbered by their lowest corners with x fastest, then y, then z, and none is left out.
pub fn cubes_go_x_fastest()
    ensures list { ListsEachCube }
    ensures x_fastest { NumbersXFastest }
    ensures each { NumbersEachCube }
{}

/// The list of all tetrahedra has the six of each cube, in the order of the cubes' numbers.
pub fn list_is_in_order()
    ensures count { ListsSixEach }
    ensures order { ListsInOrder }
{}
