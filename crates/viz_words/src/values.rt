//! The value that a command gives a parameter.

ghost use Rattle.std.specs.Prelude.{◌≡◌, ◌<◌, ◌≤◌, length, slice_set};
ghost use Rattle.viz_words.specs.Words.{words_of};
ghost use Rattle.viz_words.specs.Gives.{Gives};
ghost use Rattle.viz_words.specs.Commands.{fits_count, padded_in, text_in, value_in, set_in};
ghost use Rattle.viz_words.specs.Numbers.{number_in};
ghost use Rattle.viz_kinds.specs.Values.{numbers_of};

use crate::arity::{due, one};
use crate::names::{array_name, node_name};
use crate::numbers::number;
use crate::refusal::ScriptRefusal;
use crate::scan::next_word;
use viz_base::Word;
use viz_kinds::{Param, Range, Value, range_of};

/// How many words there are.
fn count(text: &[u8]) -> usize
    ensures { result ≡ length (words_of text.now) }
{
    let mut n = 0;
    let mut rest = text;
    while let Some((_, behind)) = next_word(rest) {
        n += 1;
        rest = behind;
    }
    n
}

/// Whether the parameter takes so many words.
fn fits_count(range: &Option<Range>, n: usize) -> bool
    ensures { result ≡ fits_count range.now n }
{
    match range {
        None => n == 1,
        Some(range) => usize::from(range.least) <= n && n <= usize::from(range.most) && n <= 8,
    }
}

fn number_in(word: &[u8]) -> Result<i64, ScriptRefusal>
    ensures { result ≡ number_in word.now }
{
    number(word).ok_or(ScriptRefusal::Number)
}

/// A number that is passed by value isn't known to be the one that is put.
fn put(items: &mut [i64; 8], i: usize, n: &i64)
    requires { i < 8 }
    ensures { items.new ≡ slice_set items.old i n.now }
{
    items[i] = *n;
}

/// The numbers of the words, and zeros behind them.
fn padded_in(text: &[u8], count: usize) -> Result<[i64; 8], ScriptRefusal>
    requires few { count ≤ 8 }
    requires all { count ≡ length (words_of text.now) }
    ensures { result ≡ padded_in (words_of text.now) }
{
    let mut items = [0; 8];
    let mut rest = text;
    for i in 0..count {
        let (word, behind) = due(rest)?;
        let n = number_in(word)?;
        put(&mut items, i, &n);
        rest = behind;
    }
    Ok(items)
}

fn text_in(param: Param, word: &[u8]) -> Result<Word, ScriptRefusal>
    ensures { result ≡ text_in param word.now }
{
    match param {
        Param::Array => array_name(word),
        _ => node_name(word),
    }
}

fn value_in(
    param: Param,
    range: &Option<Range>,
    text: &[u8],
    count: usize,
) -> Result<Value, ScriptRefusal>
    requires few { count ≤ 8 }
    requires all { count ≡ length (words_of text.now) }
    ensures { result ≡ value_in param range.now (words_of text.now) }
{
    if range.is_none() {
        return Ok(Value::Text(text_in(param, one(text)?)?));
    }
    let items = padded_in(text, count)?;
    Ok(Value::Numbers {
        count: count as u8,
        items,
    })
}

/// The node and the value that the words of a set tell, from the node on.
#[tactic(auto, unfolding(crate::specs::Commands::set_in))]
pub fn set_in(param: Param, text: &[u8]) -> Result<(Word, Value), ScriptRefusal>
    ensures value { result ≡ set_in param (words_of text.now) }
{
    let range = range_of(param);
    let (node, rest) = due(text)?;
    let (_, values) = due(rest)?;
    let count = count(values);
    if !fits_count(&range, count) {
        return Err(ScriptRefusal::Arity);
    }
    let name = node_name(node)?;
    let value = value_in(param, &range, values, count)?;
    Ok((name, value))
}
