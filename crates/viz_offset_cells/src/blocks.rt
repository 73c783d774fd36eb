//! The bytes of a block as they are left.

ghost use Rattle.std.specs.Prelude.{◌≡◌, ◌≤◌, length, drop};
ghost use Rattle.viz_lex.specs.Reading.{rest_of, advanced};

use viz_lex::Lexer;

/// The bytes that are left.
pub(crate) fn rest<'a>(lexer: &Lexer<'a>) -> &'a [u8]
    ensures { result.now ≡ rest_of lexer.now }
{
    &lexer.bytes()[lexer.place() as usize..]
}

/// The bytes behind so many.
#[inline(always)]
pub(crate) fn behind(bytes: &[u8], width: usize) -> &[u8]
    requires { width ≤ length bytes.now }
    ensures { result.now ≡ drop width bytes.now }
{
    &bytes[width..]
}

/// Passes over so many bytes, which are left.
#[tactic(auto, unfolding(viz_lex::specs::Blocks::block_at))]
pub(crate) fn pass(lexer: &mut Lexer<'_>, count: u64)
    requires { count ≤ length (rest_of lexer.old) }
    ensures { lexer.new ≡ advanced lexer.old count }
{
    match lexer.block(count) {
        Ok(_) => {}
        Err(_) => unreachable!(),
    }
}
