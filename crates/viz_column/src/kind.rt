//! The type of the numbers of a column.

ghost use Rattle.std.specs.Prelude.{◌≡◌, ◌↔◌, ◌<◌, ◌≤◌, true, IsTrue};
ghost use Rattle.viz_column.specs.Kinds.{size_of, fits};

/// The type of the numbers of a column: signed or unsigned, of 8 to 64 bits.
#[derive(Clone, Copy, PartialEq, Eq, Debug)]
pub enum Kind8 {
    I8,
    U8,
    I16,
    U16,
    I32,
    U32,
    I64,
    U64,
}

impl Kind8 {
    /// How many bytes a number has.
    pub fn size(self) -> usize
        ensures value { result ≡ size_of self }
        ensures some { 0 < result }
        ensures few { result ≤ 8 }
    {
        match self {
            Kind8::I8 | Kind8::U8 => 1,
            Kind8::I16 | Kind8::U16 => 2,
            Kind8::I32 | Kind8::U32 => 4,
            Kind8::I64 | Kind8::U64 => 8,
        }
    }

    /// Whether a number lies in the range, as `Column::push` needs it.
    pub fn fits(self, n: i128) -> bool
        ensures value { IsTrue result ↔ (fits self n ≡ true) }
    {
        match self {
            Kind8::I8 => i8::try_from(n).is_ok(),
            Kind8::U8 => u8::try_from(n).is_ok(),
            Kind8::I16 => i16::try_from(n).is_ok(),
            Kind8::U16 => u16::try_from(n).is_ok(),
            Kind8::I32 => i32::try_from(n).is_ok(),
            Kind8::U32 => u32::try_from(n).is_ok(),
            Kind8::I64 => i64::try_from(n).is_ok(),
            Kind8::U64 => u64::try_from(n).is_ok(),
        }
    }
}
