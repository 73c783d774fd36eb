//! The type `Image`.

ghost use Rattle.std.specs.Prelude.{◌≡◌, length, IfOk};
ghost use Rattle.viz_extent.specs.Extent.{count_of, Has};
ghost use Rattle.viz_extent.specs.Parts.{IsPart};
ghost use Rattle.viz_dataset.specs.Images.{vector_of, IsOrigin, IsSpacing, IsImage, IsRestricted};
ghost use Rattle.viz_dataset.specs.Images.{corner, point_at};

use crate::points::{coordinate, point_of, scalar_at};
use crate::restricted::restricted;
use std::alloc::{AllocError, Global};
use std::marker::Model;
use viz_column::Column;
use viz_extent::Extent;
use viz_fraction::Point5;

/// A whole number at each point of an extent.
///
/// Origin and spacing are in billionths: the point at the indices i, j, k lies at the origin and
/// i, j, k times the spacing, along x, y and z. Numbers go with x fastest, then y, then z. An
/// origin is at most 10^18 units in magnitude, a spacing is positive and at most 10^9 units.
/// Contracts see the extent, the origin, the spacing and the numbers.
#[derive(Debug, Drop)]
pub struct Image {
    extent: Extent,
    origin: [i128; 3],
    spacing: [i128; 3],
    column: Column,
}

impl Model for Image {
    ghost use Rattle.viz_dataset.specs.Images.{ImageData, IsImage, vector_of};

    ghost Value = { ImageData };

    ghost view = { λ i. record {
      extent = i.extent;
      origin = vector_of i.origin;
      spacing = vector_of i.spacing;
      values = i.column;
    } };

    ghost invariant = { λ i. IsImage (record {
      extent = i.extent;
      origin = vector_of i.origin;
      spacing = vector_of i.spacing;
      values = i.column;
    }) };
}

impl Image {
    /// The image with these numbers on the extent. `is_origin` and `is_spacing` are the tests that
    /// it needs.
    pub fn new(extent: Extent, origin: [i128; 3], spacing: [i128; 3], column: Column) -> Image
        requires count { length column.items ≡ count_of extent }
        requires origin { IsOrigin (vector_of origin) }
        requires spacing { IsSpacing (vector_of spacing) }
        ensures value { result ≡ record {
          extent = extent;
          origin = vector_of origin;
          spacing = vector_of spacing;
          values = column;
        } }
        ensures valid { IsImage result }
    {
        // What the parts keep by themselves.
        let _bounds = extent.bounds();
        let _count = column.len();
        Image {
            extent,
            origin,
            spacing,
            column,
        }
    }

    /// The points that have a number.
    pub fn extent(&self) -> Extent
        ensures value { result ≡ self.now.extent }
        ensures valid { IsImage self.now }
    {
        self.extent
    }

    /// The position of the indices 0, 0, 0, in billionths.
    pub fn origin(&self) -> [i128; 3]
        ensures value { vector_of result ≡ self.now.origin }
        ensures valid { IsImage self.now }
    {
        self.origin
    }

    /// The steps between points along x, y and z, in billionths.
    pub fn spacing(&self) -> [i128; 3]
        ensures value { vector_of result ≡ self.now.spacing }
        ensures valid { IsImage self.now }
    {
        self.spacing
    }

    /// The numbers, with x fastest, then y, then z.
    pub fn column(&self) -> &Column
        ensures value { result.now ≡ self.now.values }
        ensures valid { IsImage self.now }
    {
        &self.column
    }

    /// The numbers, taken out, to be changed in place and put on the extent again by `new`.
    pub fn into_column(self) -> Column
        ensures value { result ≡ self.values }
        ensures valid { IsImage self }
    {
        let Image { column, .. } = self;
        column
    }

    /// Other numbers, of any type, at the same points.
    pub fn with_column(&self, column: Column) -> Image
        requires count { length column.items ≡ length self.now.values.items }
        ensures value { result ≡ record self.now { values = column } }
        ensures valid { IsImage result }
    {
        Image::new(self.extent, self.origin, self.spacing, column)
    }

    /// The position of the lowest corner of the extent, in billionths.
    pub fn corner(&self) -> [i128; 3]
        ensures value { vector_of result ≡ corner self.now }
    {
        let [x0, _, y0, _, z0, _] = self.extent.bounds();
        [
            coordinate(&self.origin[0], &self.spacing[0], x0),
            coordinate(&self.origin[1], &self.spacing[1], y0),
            coordinate(&self.origin[2], &self.spacing[2], z0),
        ]
    }

    /// The point at the indices i, j, k, with its number as the scalar.
    pub fn point(&self, i: u32, j: u32, k: u32) -> Point5
        requires within { Has self.now.extent i j k }
        ensures value { result ≡ point_at self.now i j k }
    {
        let scalar = scalar_at(&self.column, self.extent.index_of(i, j, k));
        point_of(&self.origin, &self.spacing, i, j, k, &scalar)
    }

    /// The image on a part of its extent: the same positions and the same numbers there.
    pub fn restrict(&self, alloc: Global, part: &Extent) -> Result<Image, AllocError>
        requires within { IsPart self.now.extent part.now }
        ensures value { IfOk result (IsRestricted self.now part.now) }
        ensures valid { IfOk result IsImage }
    {
        let column = restricted(alloc, &self.column, &self.extent, part)?;
        Ok(Image::new(*part, self.origin, self.spacing, column))
    }
}
