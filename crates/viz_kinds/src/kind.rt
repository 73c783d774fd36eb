//! The kinds of node.

ghost use Rattle.std.specs.Prelude.{◌≡◌, ◌≤◌, IsTrue};
ghost use Rattle.viz_kinds.specs.Kinds.{ports_of, has_port as ported, has_param};

use crate::param::Param;

/// What a node does.
#[derive(Clone, Copy, PartialEq, Eq, Debug)]
pub enum Kind {
    /// Reads a file.
    File,
    /// Cuts an image to a box.
    Crop,
    /// Keeps every so many points of an image.
    Sample,
    /// Keeps the values of an image that lie in a range.
    Threshold,
    /// The mean around each point of an image.
    Smooth,
    /// Reckons with two images, point by point.
    Arith,
    /// The tetrahedra of an image.
    Tets,
    /// Keeps the cells of a mesh whose scalars lie in a range.
    Select,
    /// The surfaces where the scalar is a level.
    Contour,
    /// The section by a plane.
    Cut,
    /// Up to eight meshes, one behind the other.
    Append,
    /// The facets of a mesh that belong to one cell.
    Boundary,
    /// A mesh with one point for each place.
    Merge,
    /// Writes a file.
    Writer,
}

impl Kind {
    /// How many ports a node of this kind has; they are numbered from 1.
    pub fn ports(self) -> u8
        ensures value { result ≡ ports_of self }
    {
        match self {
            Kind::File => 0,
            Kind::Arith => 2,
            Kind::Append => 8,
            _ => 1,
        }
    }

    /// Whether a node of this kind has a port of this number.
    pub fn has_port(self, port: u8) -> bool
        ensures value { result ≡ ported self port }
        ensures within { IsTrue result → port ≤ 8 }
    {
        1 <= port && port <= self.ports()
    }

    /// Whether a node of this kind has the parameter.
    pub fn has(self, param: Param) -> bool
        ensures value { result ≡ has_param self param }
    {
        match param {
            Param::Release => true,
            Param::Array | Param::Unit => matches!(self, Kind::File),
            Param::Bounds => matches!(self, Kind::Crop),
            Param::Rate => matches!(self, Kind::Sample),
            Param::Range => matches!(self, Kind::Threshold | Kind::Select),
            Param::Radius => matches!(self, Kind::Smooth),
            Param::Op => matches!(self, Kind::Arith),
            Param::Mode => matches!(self, Kind::Select),
            Param::Levels => matches!(self, Kind::Contour),
            Param::Plane => matches!(self, Kind::Cut),
            Param::Style | Param::Digits | Param::Version => matches!(self, Kind::Writer),
        }
    }
}
