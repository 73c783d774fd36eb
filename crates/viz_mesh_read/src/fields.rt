//! FIELDs among the lines of a file's geometry, which are passed over.

ghost use Rattle.std.specs.Prelude.{◌≡◌, ◌+◌, length};
ghost use Rattle.viz_lex.specs.Reading.{Reads};
ghost use Rattle.viz_mesh_read.specs.GridSteps.{one_field_at, fields_in_at, fields_at};

use viz_attr::pass_field;
use viz_lex::{FileFault, Lexer};

/// A FIELD.
#[tactic(auto, unfolding(crate::specs::GridSteps::one_field_at))]
fn one_field(lexer: &mut Lexer<'_>, binary: bool) -> Result<(), FileFault>
    ensures { Reads (λ done. done) result lexer.new (one_field_at binary lexer.old) }
{
    lexer.due_word()?;
    pass_field(lexer, binary)
}

/// FIELDs, at most so many: each takes a byte at least.
fn fields_in(lexer: &mut Lexer<'_>, binary: bool, most: u64) -> Result<(), FileFault>
    ensures { Reads (λ done. done) result lexer.new (fields_in_at binary most lexer.old) }
{
    for _ in 0..most {
        if !lexer.is_next(b"FIELD") {
            return Ok(());
        }
        one_field(lexer, binary)?;
    }
    Ok(())
}

/// FIELDs, as many as there are.
#[tactic(auto, unfolding(crate::specs::GridSteps::fields_at))]
pub(crate) fn fields(lexer: &mut Lexer<'_>, binary: bool) -> Result<(), FileFault>
    ensures { Reads (λ done. done) result lexer.new (fields_at binary lexer.old) }
{
    let most = lexer.bytes().len() as u64 + 1;
    fields_in(lexer, binary, most)
}
