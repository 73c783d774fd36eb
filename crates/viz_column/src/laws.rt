//! What the definitions of numbers and bytes mean together. A law is a function that does nothing:
//! its contract holds of the definitions alone.

ghost use Rattle.std.specs.Prelude.{◌≡◌, ◌*◌, ℕ, List, length};
ghost use Rattle.viz_column.specs.declared.kind.Kind8.{Kind8};
ghost use Rattle.viz_column.specs.Kinds.{size_of};
ghost use Rattle.viz_column.specs.Numbers.{Numbers, AreInRange};
ghost use Rattle.viz_column.specs.Bytes.{block_of, numbers_in, AreBytes, IsBlock, numbers_of};

/// What `to_be` writes, `from_be` reads again.
pub fn blocks_are_read_again()
    ensures long { (n : Numbers) → length (block_of n) ≡ size_of n.kind * length n.items }
    ensures again { (n : Numbers) → AreInRange n → numbers_in n.kind (block_of n) ≡ n.items }
{}

/// What `from_be` reads, `to_be` writes again.
pub fn blocks_are_written_again()
    ensures long { (kind : Kind8) (bytes : List ℕ) → IsBlock kind bytes
        → size_of kind * length (numbers_in kind bytes) ≡ length bytes }
    ensures fit { (kind : Kind8) (bytes : List ℕ) → AreBytes bytes
        → AreInRange (numbers_of kind bytes) }
    ensures again { (kind : Kind8) (bytes : List ℕ) → IsBlock kind bytes → AreBytes bytes
        → block_of (numbers_of kind bytes) ≡ bytes }
{}
