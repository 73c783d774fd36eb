//! The ranks of a facet in order, as one number with the facet's index.

ghost use Rattle.std.specs.Prelude.{◌≡◌, ◌+◌, ◌*◌, ◌<◌, ◌≤◌, ◌^◌, [], ◌∷◌};
ghost use Rattle.viz_boundary.specs.Steps.Keys.{keyed, packed};

/// The key of a facet of one rank.
#[tactic(auto, unfolding(crate::specs::Steps::Keys::set_key))]
pub(crate) fn key_of_one(a: u32, at: u32) -> u128
    ensures value { result ≡ keyed at (a ∷ []) }
{
    packed(a, a, a, at)
}

/// The key of a facet of two ranks.
#[tactic(auto, unfolding(crate::specs::Steps::Keys::set_key))]
pub(crate) fn key_of_two(a: u32, b: u32, at: u32) -> u128
    ensures value { result ≡ keyed at (a ∷ b ∷ []) }
{
    if a < b {
        return packed(a, a, b, at);
    }
    packed(b, b, a, at)
}

/// The key of a facet of three ranks.
pub(crate) fn key_of_three(a: u32, b: u32, c: u32, at: u32) -> u128
    ensures value { result ≡ keyed at (a ∷ b ∷ c ∷ []) }
{
    if b < c {
        return key_with_first(a, b, c, at);
    }
    key_with_second(a, b, c, at)
}

/// The same where the second rank is less than the third.
#[tactic(auto, unfolding(crate::specs::Steps::Keys::set_key))]
fn key_with_first(a: u32, b: u32, c: u32, at: u32) -> u128
    requires { b < c }
    ensures { result ≡ keyed at (a ∷ b ∷ c ∷ []) }
{
    if a < b {
        return packed(a, b, c, at);
    }
    if a < c {
        return packed(b, a, c, at);
    }
    packed(b, c, a, at)
}

/// The same where it isn't.
#[tactic(auto, unfolding(crate::specs::Steps::Keys::set_key))]
fn key_with_second(a: u32, b: u32, c: u32, at: u32) -> u128
    requires { c ≤ b }
    ensures { result ≡ keyed at (a ∷ b ∷ c ∷ []) }
{
    if a < c {
        return packed(a, c, b, at);
    }
    if a < b {
        return packed(c, a, b, at);
    }
    packed(c, b, a, at)
}

/// Four numbers of 32 bits as one.
fn packed(a: u32, b: u32, c: u32, at: u32) -> u128
    ensures { result ≡ packed a b c * 2 ^ 32 + at }
{
    four_halves(halves(a, b), halves(c, at))
}

/// Two numbers of 64 bits as one.
fn four_halves(high: u64, low: u64) -> u128
    ensures { result ≡ high * 2 ^ 64 + low }
{
    (high as u128) << 64 | low as u128
}

/// Two numbers of 32 bits as one.
fn halves(high: u32, low: u32) -> u64
    ensures { result ≡ high * 2 ^ 32 + low }
{
    (high as u64) << 32 | low as u64
}
