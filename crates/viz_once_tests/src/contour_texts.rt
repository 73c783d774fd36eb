//! Files and the surfaces made of them, counted by hand, and one by another program.

// An image of 2 x 2 x 2 points, up to its values.
pub const CUBE: &str = "# vtk DataFile Version 3.0
c
ASCII
DATASET STRUCTURED_POINTS
DIMENSIONS 2 2 2
ORIGIN 0 0 0
SPACING 1 1 1
POINT_DATA 8
SCALARS s int
LOOKUP_TABLE default
";

// The values of the smallest image with a surface: the last point is above the level 5.
pub const FIRST_VALUES: &str = "0 0 0 0\n0 0 0 9\n";

pub const FIRST_LEVEL: &str = "5";

pub const FIRST_REPORT: &str = "file cells 6 points 7\n";

// What is written of it: 309 bytes. Each of the seven edges at the last point is cut at five
// ninths.
pub const FIRST_SURFACE: &str = "# vtk DataFile Version 3.0
vizrun fixed 10^-3
ASCII
DATASET POLYDATA
POINTS 7 long
555 555 555
1000 555 555
555 1000 555
1000 1000 555
555 555 1000
1000 555 1000
555 1000 1000
POLYGONS 6 24
3 1 0 3
3 5 0 1
3 3 0 2
3 2 0 6
3 4 0 5
3 6 0 4
POINT_DATA 7
SCALARS scalars long 1
LOOKUP_TABLE default
5
5
5
5
5
5
5
";

// The same with the level in place of 9: all seven crossings are the last point itself.
pub const TIE_SURFACE: &str = "# vtk DataFile Version 3.0
vizrun fixed 10^-3
ASCII
DATASET POLYDATA
POINTS 7 long
1000 1000 1000
1000 1000 1000
1000 1000 1000
1000 1000 1000
1000 1000 1000
1000 1000 1000
1000 1000 1000
POLYGONS 6 24
3 1 0 3
3 5 0 1
3 3 0 2
3 2 0 6
3 4 0 5
3 6 0 4
POINT_DATA 7
SCALARS scalars long 1
LOOKUP_TABLE default
5
5
5
5
5
5
5
";

pub const NO_REPORT: &str = "file cells 0 points 0\n";

// A surface without points: 96 bytes.
pub const NO_SURFACE: &str = "# vtk DataFile Version 3.0
vizrun fixed 10^-3
ASCII
DATASET POLYDATA
POINTS 0 long
POLYGONS 0 0
";

// An image of one layer of 5 x 5 points, which has no cube.
pub const LAYER_FILE: &str = "# vtk DataFile Version 3.0
l
ASCII
DATASET STRUCTURED_POINTS
DIMENSIONS 1 5 5
ORIGIN 0 0 0
SPACING 1 1 1
POINT_DATA 25
SCALARS s int
LOOKUP_TABLE default
0 0 0 0 0
0 0 0 0 0
0 0 0 0 0
0 0 0 0 0
0 0 0 0 0
";

// An image of 4 x 4 x 4 points. The value at i, j, k is (6 i i + 6 j + 5 j k + 6 i k) % 17 - 4, so
// some are below 0 and some are the level itself.
pub const MIXED_FILE: &str = "# vtk DataFile Version 3.0
m
ASCII
DATASET STRUCTURED_POINTS
DIMENSIONS 4 4 4
ORIGIN 1 -2 3
SPACING 2 1 3
POINT_DATA 64
SCALARS s int
LOOKUP_TABLE default
-4 2 3 -1
2 8 9 5
8 -3 -2 11
-3 3 4 0
-4 8 -2 0
7 2 9 11
1 -4 3 5
12 7 -3 -1
-4 -3 10 1
12 -4 9 0
11 12 8 -1
10 11 7 -2
-4 3 5 2
0 7 9 6
4 11 -4 10
8 -2 0 -3
";

pub const MIXED_REPORT: &str = "file cells 76 points 58\n";

// Its contour at 11. A plain program with exact fractions outside the repository made the text from
// the rules of docs/FORMATS-OF-FILTERS.md and docs/FORMATS-OF-OUTPUT.md alone; that 58 edges are
// cut, and the numbers of tetrahedra with one, two or three corners inside make 76 triangles, was
// counted once more without its list of cells.
pub const MIXED_SURFACE: &str = "# vtk DataFile Version 3.0
vizrun fixed 10^-3
ASCII
DATASET POLYDATA
POINTS 58 long
7000 -1000 6000
7000 -1000 6000
7000 0 3000
7000 -1000 6000
7000 0 3000
7000 -1000 6000
1000 750 5250
7000 0 3000
7000 0 3000
7000 0 3000
7000 0 3000
1000 1000 5800
1000 -1063 8812
7000 -1000 6000
7000 -1000 6000
1000 -1000 8400
1000 0 9000
2600 -200 8400
3000 -100 8700
7000 -1000 6000
7000 -1000 6000
7000 -1000 6000
7000 -1000 6000
1000 909 6000
1000 0 9000
2818 0 8727
3000 1000 9000
3000 0 8812
3000 1000 9000
1400 1000 6000
1000 1000 7500
3000 1000 9000
1000 -1063 9000
1125 -1000 9000
1000 -1000 9250
1400 -1000 9600
1000 -875 9375
3000 -63 9000
3000 0 12000
1000 0 9000
1000 0 9000
1000 0 9000
1000 0 9000
3500 0 9000
3400 200 9000
3125 0 9187
3000 71 9214
3166 83 9250
3000 1000 9000
3000 1000 9000
3000 1000 9000
3000 1000 9000
3000 0 12000
3000 0 12000
3000 0 12000
3000 0 12000
3000 0 12000
3000 0 12000
POLYGONS 76 304
3 1 0 5
3 14 0 1
3 5 0 3
3 3 0 19
3 13 0 14
3 19 0 13
3 2 4 9
3 5 3 20
3 7 2 9
3 3 19 20
3 6 11 29
3 23 6 29
3 8 7 10
3 7 9 10
3 12 15 33
3 32 12 33
3 13 14 21
3 19 13 21
3 18 17 27
3 37 17 18
3 27 17 25
3 16 24 25
3 16 25 17
3 15 17 37
3 15 37 33
3 15 16 17
3 18 27 43
3 37 18 43
3 20 19 22
3 19 21 22
3 28 26 31
3 25 26 28
3 25 28 27
3 23 29 31
3 23 31 26
3 23 26 48
3 23 48 30
3 25 24 26
3 24 39 48
3 24 48 26
3 28 31 49
3 43 27 44
3 28 49 44
3 28 44 27
3 32 33 35
3 34 32 35
3 33 37 38
3 35 33 38
3 35 38 53
3 40 36 54
3 34 35 53
3 34 53 52
3 36 34 52
3 36 52 54
3 37 43 45
3 37 45 55
3 37 55 38
3 53 38 55
3 42 46 50
3 42 56 46
3 39 42 50
3 39 50 48
3 39 41 42
3 40 54 56
3 40 56 42
3 41 40 42
3 43 44 47
3 45 43 47
3 44 49 51
3 44 51 47
3 46 47 51
3 46 51 50
3 45 47 57
3 45 57 55
3 46 56 57
3 46 57 47
POINT_DATA 58
SCALARS scalars long 1
LOOKUP_TABLE default
11
11
11
11
11
11
11
11
11
11
11
11
11
11
11
11
11
11
11
11
11
11
11
11
11
11
11
11
11
11
11
11
11
11
11
11
11
11
11
11
11
11
11
11
11
11
11
11
11
11
11
11
11
11
11
11
11
11
";
