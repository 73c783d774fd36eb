//! Names of nodes, files and arrays.

ghost use Rattle.std.specs.Prelude.{◌≡◌, ◌&&◌};
ghost use Rattle.std.specs.List.{list_all};
ghost use Rattle.viz_base.specs.Names.{is_name, IsName};
ghost use Rattle.viz_words.specs.Names.{is_node_byte, is_file_byte, is_array_byte, begins_name};
ghost use Rattle.viz_words.specs.Names.{is_node_name, is_file_name, is_array_name, named_in};

use crate::files::FileName;
use crate::refusal::ScriptRefusal;
use viz_base::Word;

fn is_node_byte(b: u8) -> bool
    ensures { result ≡ is_node_byte b }
{
    matches!(b, b'0'..=b'9' | b'A'..=b'Z' | b'_' | b'a'..=b'z')
}

fn is_file_byte(b: u8) -> bool
    ensures { result ≡ is_file_byte b }
{
    is_node_byte(b) || b == b'-' || b == b'.'
}

fn is_array_byte(b: u8) -> bool
    ensures { result ≡ is_array_byte b }
{
    b'!' <= b && b <= b'~'
}

fn are_node_bytes(text: &[u8]) -> bool
    ensures { result ≡ list_all is_node_byte text.now }
{
    text.iter().all(|b| is_node_byte(*b))
}

fn are_file_bytes(text: &[u8]) -> bool
    ensures { result ≡ list_all is_file_byte text.now }
{
    text.iter().all(|b| is_file_byte(*b))
}

fn are_array_bytes(text: &[u8]) -> bool
    ensures { result ≡ list_all is_array_byte text.now }
{
    text.iter().all(|b| is_array_byte(*b))
}

fn begins_name(text: &[u8]) -> bool
    ensures { result ≡ begins_name text.now }
{
    match text {
        [b, ..] => is_node_byte(*b),
        [] => false,
    }
}

fn is_name(text: &[u8]) -> bool
    ensures { result ≡ is_name text.now }
{
    1 <= text.len() && text.len() <= 64
}

/// The name of a node: 1 to 64 letters, digits or `_`.
pub fn node_name(text: &[u8]) -> Result<Word, ScriptRefusal>
    ensures value { result ≡ named_in is_node_name text.now }
{
    if is_name(text) && are_node_bytes(text) {
        Ok(Word::new(text).unwrap())
    } else {
        Err(ScriptRefusal::Name)
    }
}

/// The name of a file: 1 to 64 letters, digits, `_`, `-` or `.`, the first neither `-` nor `.`.
pub fn file_name(text: &[u8]) -> Result<FileName, ScriptRefusal>
    ensures value { result ≡ named_in is_file_name text.now }
{
    if is_name(text) && begins_name(text) && are_file_bytes(text) {
        Ok(FileName::of(Word::new(text).unwrap()))
    } else {
        Err(ScriptRefusal::Name)
    }
}

/// The name of an array: 1 to 64 bytes from `!` to `~`.
pub fn array_name(text: &[u8]) -> Result<Word, ScriptRefusal>
    ensures value { result ≡ named_in is_array_name text.now }
{
    if is_name(text) && are_array_bytes(text) {
        Ok(Word::new(text).unwrap())
    } else {
        Err(ScriptRefusal::Name)
    }
}
