//! Attribute parts with each keyword, in both forms, and with several arrays.

/// In ASCII. Words that are no numbers stand in arrays of float that no pick names.
pub(crate) const WORDS: &[u8] = b"POINT_DATA 2
VECTORS v float
nan 1 2 abc 4 5
METADATA
INFORMATION 0

NORMALS n double
1 2 3 4 5 6
TENSORS t short
1 2 3 4 5 6 7 8 9 1 2 3 4 5 6 7 8 9
TEXTURE_COORDINATES tc 3 char
1 2 3 4 5 6
COLOR_SCALARS cs 2
.1 .2 .3 .4
LOOKUP_TABLE lut 2
0 0 0 1 1 1 1 1
CELL_DATA 3
SCALARS a short
LOOKUP_TABLE default
7 8 9
POINT_DATA 2
FIELD f 4
METADATA 1 2 char
3 4
a 1 3 int
1 2 3
METADATA
x

b 2 2 unsigned_char
255 1 2 3
a 1 2 vtktypeint64
-5 6
SCALARS s int 1
LOOKUP_TABLE default
-1 2
METADATA
NAME s

scalars S short 3
lookup_table default
11 12 13 -14 15 16
";

/// In BINARY, with the same numbers in the arrays that are picked.
pub(crate) const BLOCKS: &[u8] = b"POINT_DATA 2
VECTORS v float
abcdefghijklmnopqrstuvwx
METADATA
INFORMATION 0

NORMALS n double
abcdefghijklmnopqrstuvwxabcdefghijklmnopqrstuvwx
TENSORS t short
abcdefghijklmnopqrstuvwxabcdefghijkl
TEXTURE_COORDINATES tc 3 char
abcdef
COLOR_SCALARS cs 2
abcd
LOOKUP_TABLE lut 2
abcdefgh
CELL_DATA 3
SCALARS a short
LOOKUP_TABLE default
abcdef
POINT_DATA 2
FIELD f 4
METADATA 1 2 char
\x03\x04
a 1 3 int
abcdefghijkl
METADATA
x

b 2 2 unsigned_char
\xffa\x02b
a 1 2 vtktypeint64
\xff\xff\xff\xff\xff\xff\xff\xfb\0\0\0\0\0\0\0\x06
SCALARS s int 1
LOOKUP_TABLE default
\xff\xff\xff\xff\0\0\0\x02
METADATA
NAME s

scalars S short 3
lookup_table default
\0\x0babcd\xff\xf2efgh
";

/// An array of float behind the one that is picked as the first.
pub(crate) const FLOAT_BEHIND: &[u8] = b"POINT_DATA 2
SCALARS s char
LOOKUP_TABLE default
3 4
SCALARS f float
LOOKUP_TABLE default
nan abc
";

/// Two arrays of one name, in two parts.
pub(crate) const TWICE: &[u8] = b"POINT_DATA 2
SCALARS s char
LOOKUP_TABLE default
3 4
POINT_DATA 2
SCALARS s int
LOOKUP_TABLE default
5 6
";

/// An array of float in front of the one of the name `s`.
pub(crate) const FLOAT_IN_FRONT: &[u8] = b"POINT_DATA 2
SCALARS f float 3
LOOKUP_TABLE default
1 2 3 4 5 nan
SCALARS s int
LOOKUP_TABLE default
5 6
";
