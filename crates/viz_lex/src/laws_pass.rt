//! What the definitions of blocks and of what is passed over mean, in the words of the format.

ghost use Rattle.std.specs.Prelude.{◌≡◌, ◌↔◌, ◌+◌, ◌<◌, ℕ, List, ◌∷◌, ◌++◌, length, Ok, Err};
ghost use Rattle.viz_lex.specs.declared.span.Span.{Span};
ghost use Rattle.viz_lex.specs.declared.fault.FileKind.TheVariants.{Truncated};
ghost use Rattle.viz_lex.specs.Reading.{Reading, rest_of, advanced, fault_at};
ghost use Rattle.viz_lex.specs.Words.{span_from, text_of};
ghost use Rattle.viz_lex.specs.Blocks.{block_at, IsBlockAt};
ghost use Rattle.viz_lex.specs.Passing.{words_at, metadata_at, lines_text, IsNextWords, EndsEmpty};
ghost use Rattle.viz_lex.specs.Passing.{RunsOut, IsBehindMetadata};

/// The next bytes are found by their number, and nothing is found exactly where fewer are left.
pub fn finds_each_block()
    ensures found { (r : Reading) (block behind : List ℕ) → rest_of r ≡ block ++ behind
        → block_at (length block) r
        ≡ Ok (span_from r.place (length block), advanced r (length block)) }
    ensures bytes { (r : Reading) (block behind : List ℕ) → rest_of r ≡ block ++ behind
        → text_of r (span_from r.place (length block)) ≡ block }
    ensures left { (r : Reading) (block behind : List ℕ) → rest_of r ≡ block ++ behind
        → rest_of (advanced r (length block)) ≡ behind }

    ensures ok { (count : ℕ) (r next : Reading) (span : Span)
        → block_at count r ≡ Ok (span, next) → IsBlockAt count r next span }
    ensures truncated { (count : ℕ) (r : Reading)
        → (block_at count r ≡ Err (fault_at Truncated (length r.bytes)))
        ↔ (length (rest_of r) < count) }
{}

/// Words are passed over by their number, and they are too few exactly where so many don't stand
/// one behind the other.
pub fn passes_over_words()
    ensures found { (n : ℕ) (r : Reading) (behind : List ℕ) → IsNextWords n (rest_of r) behind
        → (len : ℕ) × (words_at n r ≡ Ok (tt, advanced r len))
        × (rest_of (advanced r len) ≡ behind) }
    ensures ok { (n : ℕ) (r next : Reading) → words_at n r ≡ Ok (tt, next)
        → IsNextWords n (rest_of r) (rest_of next) }
    ensures truncated { (n : ℕ) (r : Reading)
        → (words_at n r ≡ Err (fault_at Truncated (length r.bytes)))
        ↔ ((behind : List ℕ) → IsNextWords n (rest_of r) behind → ⊥) }
{}

/// METADATA ends behind the first empty line, or at the end where there is none.
pub fn passes_over_metadata()
    ensures empty { (r : Reading) (rest : List ℕ) (lines : List (List ℕ))
        (empty behind : List ℕ) → EndsEmpty (rest_of r) rest lines empty behind
        → metadata_at r
        ≡ Ok (tt, advanced r (length (lines_text (rest ∷ lines)) + (length empty + 1))) }
    ensures all { (r : Reading) → RunsOut (rest_of r)
        → metadata_at r ≡ Ok (tt, advanced r (length (rest_of r))) }
    ensures ok { (r next : Reading) → metadata_at r ≡ Ok (tt, next)
        → IsBehindMetadata (rest_of r) (rest_of next) }
{}
