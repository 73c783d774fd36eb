//! Mesh files for the tests, and their contours, worked out by hand.

// A tetrahedron and a triangle, with a number for each point.
pub const GRID: &str = "# vtk DataFile Version 3.0
g
ASCII
DATASET UNSTRUCTURED_GRID
POINTS 4 int
0 0 0 1 0 0 0 1 0 0 0 1
CELLS 2 9
4 0 1 2 3
3 0 1 2
CELL_TYPES 2
10 5
POINT_DATA 4
SCALARS s int
LOOKUP_TABLE default
0 1 2 3
";

pub const GRID_REPORT: &str = "file cells 2 points 3\n";

// Its contour at 1, where all points but the first are inside. The ends 01, 02 and 03 are the
// second point itself, a half and a third of the way: the tetrahedron has the triangle (02, 01,
// 03), and the triangle has the line (02, 01).
pub const GRID_CONTOUR: &str = "# vtk DataFile Version 3.0
vizrun fixed 10^-3
ASCII
DATASET POLYDATA
POINTS 3 long
1000 0 0
0 500 0
0 0 333
LINES 1 3
2 1 0
POLYGONS 1 4
3 1 0 2
POINT_DATA 3
SCALARS scalars long 1
LOOKUP_TABLE default
1
1
1
";

// A strip of two triangles, without an array.
pub const STRIP: &str = "# vtk DataFile Version 3.0
s
ASCII
DATASET POLYDATA
POINTS 4 short
0 0 0 1 0 0 0 1 0 1 1 0
TRIANGLE_STRIPS 1 5
4 0 1 2 3
";

// A strip of three triangles: (0, 1, 2), (2, 1, 3) and (2, 3, 4).
pub const LONG_STRIP: &str = "# vtk DataFile Version 3.0
s
ASCII
DATASET POLYDATA
POINTS 5 int
0 0 0 0 2 0 2 0 0 2 2 0 4 0 0
TRIANGLE_STRIPS 1 6
5 0 1 2 3 4
POINT_DATA 5
SCALARS s int
LOOKUP_TABLE default
0 0 3 3 4
";

pub const LONG_STRIP_REPORT: &str = "file cells 2 points 3\n";

// Its contour at 1. The edges 02, 12 and 13 are cut at a third, so at two thirds along x. The first
// triangle has its third corner inside and the line (02, 12); the second one, which is turned, its
// first and its third and the line (12, 13); all corners of the third one are inside.
pub const LONG_STRIP_CONTOUR: &str = "# vtk DataFile Version 3.0
vizrun fixed 10^-3
ASCII
DATASET POLYDATA
POINTS 3 long
666 0 0
666 1333 0
666 2000 0
LINES 2 6
2 0 1
2 1 2
POINT_DATA 3
SCALARS scalars long 1
LOOKUP_TABLE default
1
1
1
";

// Two lines and a vertex.
pub const POLYLINE: &str = "# vtk DataFile Version 3.0
l
ASCII
DATASET POLYDATA
POINTS 4 int
-1 -1 0 0 0 1 3 0 0 0 -7 0
LINES 1 4
3 0 1 2
VERTICES 1 2
1 3
POINT_DATA 4
SCALARS s char
LOOKUP_TABLE default
-1 2 -1 1
";

pub const POLYLINE_REPORT: &str = "file cells 2 points 2\n";

// Its contour at 1: two thirds of the way along the first line, at -1/3, -1/3 and 2/3, and one
// third along the second. The vertex has none.
pub const POLYLINE_CONTOUR: &str = "# vtk DataFile Version 3.0
vizrun fixed 10^-3
ASCII
DATASET POLYDATA
POINTS 2 long
-334 -334 666
1000 0 666
VERTICES 2 4
1 0
1 1
POINT_DATA 2
SCALARS scalars long 1
LOOKUP_TABLE default
1
1
";

// A line whose middle has a place in thousandths of signed 64 bits, and whose far end has none.
pub const FAR_LINE: &str = "# vtk DataFile Version 3.0
f
ASCII
DATASET POLYDATA
POINTS 2 long
9223372036854774 0 0 9223372036854776 0 0
LINES 1 3
2 0 1
POINT_DATA 2
SCALARS s int
LOOKUP_TABLE default
0 2
";

pub const FAR_LINE_REPORT: &str = "file cells 1 points 1\n";

// Its contour at 1.
pub const FAR_LINE_CONTOUR: &str = "# vtk DataFile Version 3.0
vizrun fixed 10^-3
ASCII
DATASET POLYDATA
POINTS 1 long
9223372036854775000 0 0
VERTICES 1 2
1 0
POINT_DATA 1
SCALARS scalars long 1
LOOKUP_TABLE default
1
";

// A point that no cell has.
pub const NO_CELLS: &str = "# vtk DataFile Version 3.0
n
ASCII
DATASET POLYDATA
POINTS 1 int
0 0 0
POINT_DATA 1
SCALARS s int
LOOKUP_TABLE default
7
";

// A point that is no whole number by its type: 61 bytes stand in front of the type.
pub const FLOAT_POINTS: &str = "# vtk DataFile Version 3.0
t
ASCII
DATASET POLYDATA
POINTS 1 float
0 0 0
";

// A grid that ends behind the word POINTS: 68 bytes.
pub const CUT: &str = "# vtk DataFile Version 3.0
c
BINARY
DATASET unstructured_grid
POINTS";
