//! What holds of all rules and their readers. A law is a function that does nothing: its contract
//! holds of the definitions alone. Laws range over every rule by a type parameter, whose ghost
//! members are the rule and a reader; no code has such a type.

ghost use Rattle.std.specs.Prelude.{◌≡◌, ℕ, Bool, List, [], suc, length, Result, Ok, Err};
ghost use Rattle.std.specs.Prelude.{if◌then◌else◌};
ghost use Rattle.viz_lex.specs.declared.fault.FileFault.{FileFault as Fault};
ghost use Rattle.viz_lex.specs.declared.fault.FileKind.{FileKind};
ghost use Rattle.viz_lex.specs.Reading.{Reading, fault_at, ◌>>=◌ as after};
ghost use Rattle.viz_lex.specs.Steps.{guard, due_word, due_number, due_decimal, keyword_at};
ghost use Rattle.viz_lex.specs.Rules.{Rule, Decides, IsDefinite, gives, refuses, demand, choose};
ghost use Rattle.viz_lex.specs.Rules.{beside, follow};
ghost use Rattle.viz_lex.specs.Repeats.{times, times_knowing, skip, Skips, to_the_end, Moves};
ghost use Rattle.viz_lex.specs.Readers.{times_at, known_at, skip_at, all_at, bytes_at};
ghost use Rattle.viz_lex.specs.Readers.{any_metadata_at};
ghost use Rattle.viz_lex.specs.Items.{word, number, decimal, keyword, line_end, block, words};
ghost use Rattle.viz_lex.specs.Items.{metadata};
ghost use Rattle.viz_lex.specs.Words.{line_end_at};
ghost use Rattle.viz_lex.specs.Passing.{words_at};

/// A rule, and a reader beside it.
pub trait AnyRule {
    type Value;

    ghost is: { Reading → Reading → Self.Value → Type 0 };

    ghost isnt: { Reading → Fault → Type 0 };

    ghost read: { Reading → Result (Self.Value × Reading) Fault };
}

/// A rule for each value that may be known, and a reader beside each.
pub trait RuleKnowing<K> {
    type Value;

    ghost is: { K → Reading → Reading → Self.Value → Type 0 };

    ghost isnt: { K → Reading → Fault → Type 0 };

    ghost read: { K → Reading → Result (Self.Value × Reading) Fault };
}

/// A rule for each list of values before, and a reader beside each.
pub trait RuleAmong {
    type Value;

    ghost is: { List Self.Value → Reading → Reading → Self.Value → Type 0 };

    ghost isnt: { List Self.Value → Reading → Fault → Type 0 };

    ghost read: { List Self.Value → Reading → Result (Self.Value × Reading) Fault };
}

/// Where a reader decides a rule, each place has exactly one value or exactly one fault.
pub fn decided_rules_are_definite<R: AnyRule>()
    requires { Decides (record { is = R.is; isnt = R.isnt }) R.read }
    ensures law { IsDefinite (record { is = R.is; isnt = R.isnt }) }
{}

/// Words, whole numbers, decimals, keywords, the end of a line, blocks of bytes and what is passed
/// over are decided by their readers.
pub fn items_are_decided()
    ensures word { Decides word due_word }
    ensures number { Decides number due_number }
    ensures decimal { Decides decimal due_decimal }
    ensures keyword { (text : List ℕ) → Decides (keyword text) (keyword_at text) }
    ensures line_end { Decides line_end line_end_at }
    ensures block { (n : ℕ) → Decides (block n) (bytes_at n) }
    ensures words { (n : ℕ) → Decides (words n) (words_at n) }
    ensures metadata { Decides metadata any_metadata_at }
{}

/// A value that is given, a fault that is met in any case, and a demand in front of a rule.
pub fn tests_are_decided<R: AnyRule>()
    requires { Decides (record { is = R.is; isnt = R.isnt }) R.read }
    ensures gives { (v : R.Value) → Decides (gives v) (λ r. Ok (v, r)) }
    ensures refuses { (fault : Fault) → Decides {V = R.Value} (refuses fault) (λ r. Err fault) }
    ensures demand { (test : Bool) (kind : FileKind) (place : ℕ)
        → Decides (demand test (fault_at kind place) (record { is = R.is; isnt = R.isnt }))
        (λ r. after (guard test kind place) (λ _. R.read r)) }
{}

/// One rule or another, by a test that is known, or by a test of what is left.
pub fn choices_are_decided<K, R: RuleKnowing<K>>()
    requires { (k : K) → Decides (record { is = R.is k; isnt = R.isnt k }) (R.read k) }
    ensures choose { (test : Bool) (a b : K)
        → Decides
        (choose test (record { is = R.is a; isnt = R.isnt a })
        (record { is = R.is b; isnt = R.isnt b }))
        (λ r. if test then R.read a r else R.read b r) }
    ensures beside { (test : Reading → Bool) (a b : K)
        → Decides
        (beside test (record { is = R.is a; isnt = R.isnt a })
        (record { is = R.is b; isnt = R.isnt b }))
        (λ r. if test r then R.read a r else R.read b r) }
{}

/// One behind the other, which may know the value of the first.
pub fn following_rules_are_decided<A: AnyRule, B: RuleKnowing<A::Value>>()
    requires first { Decides (record { is = A.is; isnt = A.isnt }) A.read }
    requires second { (x : A.Value)
        → Decides (record { is = B.is x; isnt = B.isnt x }) (B.read x) }
    ensures law { Decides
        (follow (record { is = A.is; isnt = A.isnt })
        (λ x. record { is = B.is x; isnt = B.isnt x }))
        (λ r. after (A.read r) (λ x. B.read x.0 x.1)) }
{}

/// So many, one behind the other.
pub fn repeated_rules_are_decided<R: AnyRule>()
    requires { Decides (record { is = R.is; isnt = R.isnt }) R.read }
    ensures law { (n : ℕ)
        → Decides (times n (record { is = R.is; isnt = R.isnt })) (times_at R.read n) }
{}

/// So many, of which each knows those before it.
pub fn knowing_rules_are_decided<R: RuleAmong>()
    requires { (before : List R.Value)
        → Decides (record { is = R.is before; isnt = R.isnt before }) (R.read before) }
    ensures law { (n : ℕ)
        → Decides
        (times_knowing n (λ before. record { is = R.is before; isnt = R.isnt before }))
        (known_at R.read n []) }
{}

/// All to the end of the text, where each takes at least a byte.
pub fn rules_to_the_end_are_decided<R: RuleAmong>()
    requires { Moves (λ before. record { is = R.is before; isnt = R.isnt before }) R.read }
    ensures law { Decides
        (to_the_end (λ before. record { is = R.is before; isnt = R.isnt before }))
        (λ r. all_at R.read (suc (length r.bytes)) [] r) }
{}

/// As many as there are where a test holds, where each takes at least a byte.
pub fn skipped_rules_are_decided<R: AnyRule>()
    ensures law { (test : Reading → Bool)
        → Skips test (record { is = R.is; isnt = R.isnt }) R.read
        → Decides
        (skip test (record { is = R.is; isnt = R.isnt }))
        (λ r. skip_at test R.read (suc (length r.bytes)) r) }
{}
