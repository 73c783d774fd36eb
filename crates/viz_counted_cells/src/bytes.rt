//! Blocks of bytes, and what stands in front of them.

ghost use Rattle.std.specs.Prelude.{◌≡◌, length, IfOk};
ghost use Rattle.viz_lex.specs.Reading.{Reads};
ghost use Rattle.viz_lex.specs.Words.{line_end_at};
ghost use Rattle.viz_lex.specs.Readers.{bytes_at};

use viz_lex::{FileFault, Lexer};

/// The end of the line: Keyword where another byte than a space, a tab or a carriage return stands
/// in front of it, and Truncated where there is none.
pub fn line_end(lexer: &mut Lexer<'_>) -> Result<(), FileFault>
    ensures read { Reads (λ done. done) result lexer.new (line_end_at lexer.old) }
{
    lexer.line_end()
}

/// The next so many bytes: Truncated where fewer are left.
#[tactic(auto, unfolding(viz_lex::specs::Readers::bytes_at))]
pub fn block<'a>(lexer: &mut Lexer<'a>, count: u64) -> Result<&'a [u8], FileFault>
    ensures read { Reads (λ bytes. bytes.now) result lexer.new (bytes_at count lexer.old) }
    ensures long { IfOk result (λ bytes. length bytes.now ≡ count) }
{
    let span = lexer.block(count)?;
    Ok(lexer.text(&span))
}
