//! What is spelled as the lines of a script is read as what they say. A law is a function that does
//! nothing: its contract holds of the definitions alone.

ghost use Rattle.std.specs.Prelude.{◌≡◌, ◌≤◌, ℕ, List, map, length, Ok, IsErr};
ghost use Rattle.viz_network.specs.declared.edit.Edit.{Edit};
ghost use Rattle.viz_journal.specs.Journal.{edit_words};
ghost use Rattle.viz_script.specs.Lines.{Line};
ghost use Rattle.viz_script.specs.Script.{Stepped, byte_limit, steps_of, script_of};
ghost use Rattle.viz_script_law.specs.Tokens.{edit_tokens, plain_word, plain_line, plain_script};
ghost use Rattle.viz_script_law.specs.Spelling.{SpellsLine};
ghost use Rattle.viz_script_law.specs.Fits.{FitsLineEdit, FitsLine, FitsScript};
ghost use Rattle.viz_script_law.specs.Parts.{IsInParts, commands_in};
ghost use Rattle.viz_script_law.specs.Says.{commands_by};
ghost use Rattle.viz_script_law.specs.Script.{SpellsScript};

/// A script is read as the steps of its lines, however these are spelled: spaces and tabs between
/// words, zeros in front of numbers, comments, carriage returns in front of newlines, and a last
/// line without a newline make no difference. `plain` says it of the plain spelling.
pub fn what_is_spelled_is_read()
    ensures every { (actors : ℕ) (lines : List Line) (bytes : List ℕ)
        → SpellsScript actors lines bytes → script_of actors bytes ≡ Ok (steps_of lines) }
    ensures plain { (actors : ℕ) (lines : List Line)
        → FitsScript actors lines → length (plain_script lines) ≤ byte_limit
        → script_of actors (plain_script lines) ≡ Ok (steps_of lines) }
{}

/// What is read as steps is a script of lines that say just these steps; bytes that are no script
/// of any lines are refused.
pub fn nothing_else_is_read()
    ensures only { (actors : ℕ) (bytes : List ℕ) (steps : List Stepped)
        → script_of actors bytes ≡ Ok steps
        → (lines : List Line) × SpellsScript actors lines bytes × (steps ≡ steps_of lines) }
    ensures refused { (actors : ℕ) (bytes : List ℕ)
        → ((lines : List Line) → ¬ SpellsScript actors lines bytes)
        → IsErr (script_of actors bytes) }
{}

/// What an actor's steps ask for, each in its phase, is what its lines are made of: commands, and
/// batches, each of which is one step. Others' lines in between make no difference.
pub fn a_batch_is_one_step()
    ensures parts { (actor : ℕ) (lines : List Line) (p : IsInParts actor lines)
        → commands_by actor (steps_of lines) ≡ commands_in 1 p.parts }
{}

/// The same bytes are a script of one list of lines alone.
pub fn a_script_has_one_reading()
    ensures one { (actors : ℕ) (lines others : List Line) (bytes : List ℕ)
        → SpellsScript actors lines bytes → SpellsScript actors others bytes → lines ≡ others }
{}

/// The plain spelling is a spelling: of each line that a script can have, and of the script. An
/// edit has the words that it has in a journal.
pub fn plain_spelling_spells()
    ensures line { (actors : ℕ) (line : Line) → FitsLine actors line
        → SpellsLine line (plain_line line) }
    ensures script { (actors : ℕ) (lines : List Line)
        → FitsScript actors lines → length (plain_script lines) ≤ byte_limit
        → SpellsScript actors lines (plain_script lines) }
    ensures edits { (e : Edit) → FitsLineEdit e → map plain_word (edit_tokens e) ≡ edit_words e }
{}
