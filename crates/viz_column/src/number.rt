//! The eight types, as one to a generic function.

ghost use Rattle.std.specs.Prelude.{◌≡◌, ◌↔◌, ℤ, pos, true, map, IsSome, IfSome, IfOk};
ghost use Rattle.viz_column.specs.declared.kind.Kind8.{Kind8};
ghost use Rattle.viz_column.specs.Kinds.{fits};
ghost use Rattle.viz_column.specs.Bytes.{block_of, numbers_in, IsBlock};
ghost use Rattle.viz_column.specs.Typed.{held_by};
ghost use Rattle.viz_column.specs.Lent.{lent_by};

use crate::kind::Kind8;
use crate::lent::Lent;
use crate::typed::Typed;
use std::alloc::{AllocError, Global};

/// A type of the numbers of a column. A function that is generic in it has no `match` in its loop.
pub trait Number: Copy {
    ghost kind: { Kind8 };

    // The number that a value of the type is.
    ghost value: { Self → ℤ };

    /// The kind of a column of these numbers.
    fn kind() -> Kind8
        ensures value { result ≡ kind };

    /// The number 0.
    fn zero() -> Self
        ensures value { value result ≡ pos 0 };

    /// The number n, where it lies in the range of the type.
    fn of_whole(n: i128) -> Option<Self>
        ensures some { IsSome result ↔ (fits kind n ≡ true) }
        ensures value { IfSome result (λ x. value x ≡ n) };

    /// The number, in 128 bits.
    fn whole(self) -> i128
        ensures value { result ≡ value self }
        ensures within { fits kind (value self) ≡ true };

    /// The numbers in these bytes, the highest byte of each first.
    fn from_block(alloc: Global, bytes: &[u8]) -> Result<Vec<Self>, AllocError>
        requires { IsBlock kind bytes.now }
        ensures value { IfOk result (λ v. map value v.items ≡ numbers_in kind bytes.now) };

    /// The bytes of these numbers, the highest byte of each first.
    fn to_block(alloc: Global, numbers: &[Self]) -> Result<Vec<u8>, AllocError>
        ensures value { IfOk result (λ v.
            v.items ≡ block_of (record { kind = kind; items = map value numbers.now })) };

    /// These numbers, as a column keeps them: call `Column::of`.
    fn typed(numbers: Vec<Self>) -> Typed
        ensures value { held_by result ≡ record { kind = kind; items = map value numbers.items } };

    /// What a column lends, where it is of this type: call `Column::numbers`.
    fn lent(lent: Lent<'_>) -> Option<&[Self]>
        ensures some { IsSome result ↔ ((lent_by lent.entry).kind ≡ kind) }
        ensures value { IfSome result (λ s. map value s.now ≡ (lent_by lent.entry).items) };
}
