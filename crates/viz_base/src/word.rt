//! A short name.

ghost use Rattle.std.specs.Prelude.{◌≡◌, ◌-◌, ◌≤◌, ◌++◌, ◌↔◌, length, replicate, IsSome, IfSome};
ghost use Rattle.std.specs.Prelude.{Some, nat_eq, refl};
ghost use Rattle.std.specs.Ordering.{nat_cmp};
ghost use Rattle.std.specs.Cmp.{partial_equiv_from_equiv};
ghost use Rattle.std.specs.Cmp.Lexicographic.{pointwise, slice_cmp, nat_list_eq_equiv};
ghost use Rattle.std.specs.Cmp.Lexicographic.{nat_list_cmp_total, texts_ties, texts_po};
ghost use Rattle.std.specs.Cmp.Rules.{hashing};
ghost use Rattle.std.specs.Hash as fed;
ghost use Rattle.std.proofs.Common.{rules};
ghost use Rattle.viz_base.specs.Names.{IsName};

use std::cmp::Ordering;
use std::hash::{Hash, Hasher};
use std::marker::Model;

/// A name of 1 to 64 bytes: of a node, a file or an array. It takes no memory of its own, and is
/// compared and hashed by its bytes.
#[derive(Clone, Copy, Debug)]
pub struct Word {
    len: u8,
    bytes: [u8; 64],
}

impl Model for Word {
    ghost use Rattle.std.specs.Prelude.{ℕ, List, take};
    ghost use Rattle.viz_base.specs.Names.{IsPadded};

    ghost Value = { List ℕ };

    ghost use Rattle.viz_base.specs.Padding.{padded, padded-take};

    ghost view = { λ w. take w.len w.bytes };

    ghost invariant = { λ w. IsPadded w.len w.bytes };

    ghost inverse = { padded };

    ghost inverse_ok = { padded-take };
}

// The bytes, and zeros up to 64.
fn padded(text: &[u8]) -> [u8; 64]
    requires { length text.now ≤ 64 }
    ensures { result ≡ text.now ++ replicate (64 - length text.now) 0 }
{
    let mut bytes = [0; 64];
    for (i, b) in text.iter().enumerate() {
        bytes[i] = *b;
    }
    bytes
}

impl Word {
    /// The name with these bytes; None for no byte or more than 64.
    pub fn new(text: &[u8]) -> Option<Word>
        ensures some { IsSome result ↔ IsName text.now }
        ensures value { IfSome result (λ word. word ≡ text.now) }
    {
        let len = text.len();
        if len == 0 || len > 64 {
            return None;
        }
        Some(Word {
            len: len as u8,
            bytes: padded(text),
        })
    }

    /// The bytes of the name, 1 to 64 of them.
    pub fn bytes(&self) -> &[u8]
        ensures value { result.now ≡ self.now }
        ensures within { IsName result.now }
    {
        &self.bytes[..self.len as usize]
    }
}

impl PartialEq for Word {
    ghost eq = { pointwise nat_eq };

    ghost laws = { partial_equiv_from_equiv nat_list_eq_equiv };

    fn eq(&self, other: &Word) -> bool {
        self.bytes() == other.bytes()
    }
}

impl Eq for Word {
    ghost laws = { nat_list_eq_equiv };
}

impl PartialOrd for Word {
    ghost partial_cmp = { λ a b. Some (slice_cmp nat_cmp a b) };

    ghost laws = { texts_po };

    fn partial_cmp(&self, other: &Word) -> Option<Ordering> {
        Some(self.cmp(other))
    }
}

impl Ord for Word {
    ghost cmp = { slice_cmp nat_cmp };

    ghost total = { nat_list_cmp_total };

    ghost matches_partial_cmp = { λ a b. refl };

    ghost matches_eq = { texts_ties };

    fn cmp(&self, other: &Word) -> Ordering {
        self.bytes().cmp(other.bytes())
    }
}

impl Hash for Word {
    ghost hash_input = { fed.slice fed.u8 };

    ghost respects_eq = { Prim.search (hashing, rules) };

    fn hash<H: Hasher>(&self, state: &mut H) {
        self.bytes().hash(state);
    }
}
