//! A law on keys. A law is a function that does nothing: its contract holds of the definitions
//! alone.

ghost use Rattle.std.specs.Prelude.{◌≡◌, ◌↔◌, true};
ghost use Rattle.viz_parts.specs.declared.stored.Key.{Key};
ghost use Rattle.viz_cache.specs.Keys.{same_key};

/// Keys are the same exactly where they are equal.
pub fn same_keys_are_equal()
    ensures law { (a b : Key) → (same_key a b ≡ true) ↔ (a ≡ b) }
{}
