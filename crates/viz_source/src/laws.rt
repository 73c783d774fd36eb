//! What the answers of a reader come to. A law is a function that does nothing: its contract holds
//! of the definitions alone.

ghost use Rattle.std.specs.Prelude.{◌≡◌, ◌≤◌, ◌<◌, ◌↔◌, ◌++◌, ℕ, List, Option, length, take, false};
ghost use Rattle.viz_source.specs.Streams.{Stream, told_lines, whole_lines, lines_left};
ghost use Rattle.viz_source.specs.Streams.{IsTooLong, IsOpenLine, AreFrontLines, IsOver};
ghost use Rattle.viz_source.specs.Streams.{untaken};

use crate::limits::STREAM_LIMIT;

/// Of a stream within the limit all lines are to come, and of a longer one those that last within
/// its first 1,073,741,824 bytes.
pub fn has_the_lines_of_its_bytes()
    ensures all { (bytes : List ℕ) → length bytes ≤ STREAM_LIMIT
        → lines_left (untaken bytes) ≡ told_lines bytes }
    ensures too_long { (bytes : List ℕ) → STREAM_LIMIT < length bytes
        → lines_left (untaken bytes) ≡ whole_lines (take STREAM_LIMIT bytes) }
{}

/// What is answered one after the other stands in front of the lines that are to come, and is all
/// of them once no further line comes.
pub fn answers_the_lines_in_turn()
    ensures in_turn { (old new : Stream) (lines : List (Option (List ℕ)))
        → AreFrontLines old lines new → lines_left old ≡ lines ++ lines_left new }
    ensures all { (old new : Stream) (lines : List (Option (List ℕ)))
        → AreFrontLines old lines new → IsOver new → lines ≡ lines_left old }
    ensures too_long { (old new : Stream) (lines : List (Option (List ℕ)))
        → AreFrontLines old lines new → IsTooLong old ↔ IsTooLong new }
{}

/// Two readers of the same bytes answer the same lines, and meet the same end, however the bytes
/// were cut into pieces.
pub fn answers_the_same_for_every_cut()
    ensures lines { (whole last other_last : Stream) (lines others : List (Option (List ℕ)))
        → AreFrontLines whole lines last → IsOver last
        → AreFrontLines whole others other_last → IsOver other_last → lines ≡ others }
    ensures end { (whole last other_last : Stream) (lines others : List (Option (List ℕ)))
        → AreFrontLines whole lines last → AreFrontLines whole others other_last
        → IsTooLong last ↔ IsTooLong other_last }
{}

/// Where a pull fails, the lines that were answered are those that were taken whole.
pub fn answers_what_was_taken_whole()
    ensures law { (old new : Stream) (lines : List (Option (List ℕ))) (left : List ℕ)
        → AreFrontLines old lines new → new.ended ≡ false → IsOpenLine new.bytes left
        → ((taken : List ℕ) × (old.bytes ≡ taken ++ left) × (lines ≡ whole_lines taken)) }
{}
