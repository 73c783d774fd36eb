//! Image files for the tests, and what is written of them.

// Up to the values of an image of 2 x 2 points.
pub const SQUARE: &str = "# vtk DataFile Version 3.0
b
ASCII
DATASET STRUCTURED_POINTS
DIMENSIONS 2 2 1
ORIGIN 0 0 0
SPACING 1 1 1
POINT_DATA 4
SCALARS s int
LOOKUP_TABLE default
";

// Up to the values of the image that is written for it.
pub const SQUARE_WRITTEN: &str = "# vtk DataFile Version 3.0
vizrun image
ASCII
DATASET STRUCTURED_POINTS
DIMENSIONS 2 2 1
ORIGIN 0 0 0
SPACING 1 1 1
POINT_DATA 4
SCALARS scalars int 1
LOOKUP_TABLE default
";

// A file of VTK's own writer with 2 x 2 x 2 points, of which the last alone is above 5: 214 bytes.
pub const CORNER: &str = "# vtk DataFile Version 5.1
vtk output
ASCII
DATASET STRUCTURED_POINTS
DIMENSIONS 2 2 2
SPACING 1 1 1
ORIGIN 0 0 0
POINT_DATA 8
SCALARS ImageScalars int
LOOKUP_TABLE default
0 0 0 0 0 0 0 9 
METADATA
INFORMATION 0

";

// The same in BINARY, up to its 32 bytes of values: 174 bytes.
pub const CORNER_BINARY: &str = "# vtk DataFile Version 5.1
vtk output
BINARY
DATASET STRUCTURED_POINTS
DIMENSIONS 2 2 2
SPACING 1 1 1
ORIGIN 0 0 0
POINT_DATA 8
SCALARS ImageScalars int
LOOKUP_TABLE default
";

// What stands behind them.
pub const CORNER_END: &str = "\nMETADATA\nINFORMATION 0\n\n";

// 300 doesn't fit the type.
pub const PAST_TYPE: &str = "# vtk DataFile Version 3.0
t
ASCII
DATASET STRUCTURED_POINTS
DIMENSIONS 1 1 1
ORIGIN 0 0 0
SPACING 1 1 1
POINT_DATA 1
SCALARS s unsigned_char
LOOKUP_TABLE default
300
";

// Three unsigned numbers of 64 bits with two components each, on decimal positions: the first of
// them lies above all bounds.
pub const LARGE: &str = "# vtk DataFile Version 2.0
l
ASCII
DATASET STRUCTURED_POINTS
ASPECT_RATIO 0.33333333333 1 1e0
ORIGIN -0.50 1e-9 0
DIMENSIONS 3 1 1
POINT_DATA 3
SCALARS s unsigned_long 2
LOOKUP_TABLE default
18446744073709551615 7 9223372036854775807 7 4 7
";

// What is written of it at the threshold from 5 on.
pub const LARGE_WRITTEN: &str = "# vtk DataFile Version 3.0
vizrun image
ASCII
DATASET STRUCTURED_POINTS
DIMENSIONS 3 1 1
ORIGIN -0.5 0.000000001 0
SPACING 0.333333333 1 1
POINT_DATA 3
SCALARS scalars unsigned_long 1
LOOKUP_TABLE default
0 9223372036854775807 0
";
