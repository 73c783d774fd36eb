//! What the definition of a decimal means, in the words of the format.

ghost use Rattle.std.specs.Prelude.{◌≡◌, ◌≢◌, ◌↔◌, ◌+◌, ◌-◌, ◌*◌, ◌^◌, ◌<◌, ◌≤◌, ℕ, ℤ, List, []};
ghost use Rattle.std.specs.Prelude.{◌∷◌, ◌++◌, length, Some, None, Ok, Err, true, false};
ghost use Rattle.viz_lex.specs.declared.fault.FileKind.TheVariants.{HeaderNumber, Truncated};
ghost use Rattle.viz_lex.specs.Reading.{Reading, rest_of, advanced, fault_at};
ghost use Rattle.viz_lex.specs.Words.{EndsWord, IsBlank, IsNextWord};
ghost use Rattle.std.specs.List.{list_all};
ghost use Rattle.viz_lex.specs.Numbers.{is_digit, digits_value};
ghost use Rattle.viz_lex.specs.Written.{places, decimal_text};
ghost use Rattle.viz_lex.specs.Decimals.{decimal_of, in_limit, decimal_at, IsDecimal, IsDecimalAt};

/// The next word is read as a decimal exactly where it is spelled as one and lies within the
/// limit, and each fault has its one cause.
pub fn reads_each_decimal()
    ensures word { (word : List ℕ) (z : ℤ) → (decimal_of word ≡ Some z) ↔ IsDecimal word z }

    ensures each { (r : Reading) (gap word behind : List ℕ) (z : ℤ)
        → IsNextWord (rest_of r) gap word behind → IsDecimal word z → in_limit z ≡ true
        → decimal_at r ≡ Ok (z, advanced r (length gap + length word)) }
    ensures ok { (r next : Reading) (z : ℤ) → decimal_at r ≡ Ok (z, next)
        → IsDecimalAt r next z }

    ensures truncated { (r : Reading)
        → (decimal_at r ≡ Err (fault_at Truncated (length r.bytes))) ↔ IsBlank (rest_of r) }
    ensures header_number { (r : Reading) (gap word behind : List ℕ)
        → IsNextWord (rest_of r) gap word behind
        → (decimal_at r ≡ Err (fault_at HeaderNumber (r.place + length gap)))
        ↔ ((z : ℤ) → IsDecimal word z → in_limit z ≡ false) }
{}

/// The digits of a fraction of so many places are worth it, and no zero stands at their end.
pub fn writes_each_fraction()
    ensures digits { (k n : ℕ) → n < 10 ^ k → list_all is_digit (places k n) ≡ true }
    ensures few { (k n : ℕ) → length (places k n) ≤ k }
    ensures value { (k n : ℕ) → n < 10 ^ k
        → digits_value (places k n) * 10 ^ (k - length (places k n)) ≡ n }
    ensures last { (k n : ℕ) → n < 10 ^ k
        → (front : List ℕ) → places k n ≢ front ++ 48 ∷ [] }
{}

/// What `put_decimal` writes is read again, between blanks and whatever ends a word.
pub fn reads_written_decimals()
    ensures law { (r : Reading) (gap behind : List ℕ) (z : ℤ) → in_limit z ≡ true
        → IsBlank gap → EndsWord behind → rest_of r ≡ gap ++ (decimal_text z ++ behind)
        → decimal_at r ≡ Ok (z, advanced r (length gap + length (decimal_text z))) }
{}
