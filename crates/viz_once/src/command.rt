//! Commands, read by hand from their words (docs/FORMATS.md, "Words of a command").

ghost use Rattle.std.specs.Prelude.{◌≡◌, option_map};
ghost use Rattle.viz_once.specs.Command.{file_name_of, contour_of, filter_of, once_of, strip_of};
ghost use Rattle.viz_once.specs.Command.{clip_of, clip_with, plane_of};
ghost use Rattle.viz_once.specs.Commands.{command_view};
ghost use Rattle.viz_words.specs.Names.{is_file_name};

use viz_base::Bytes;
use viz_kinds::{Param, Value, allows};
use viz_reshape::Reshape;
use viz_words::{file_name, name_text, number};

/// What a command does with a dataset.
#[derive(Clone, Copy, PartialEq, Eq, Debug)]
pub enum Filter {
    /// What a node of a network does.
    Node(NodeFilter),
    /// What no kind of node does: strips, or a clip.
    Reshape(Reshape),
}

/// What a node of a network does with a dataset for a command.
#[derive(Clone, Copy, PartialEq, Eq, Debug)]
pub enum NodeFilter {
    /// Keeps the values of an image from `lo` to `hi`, and makes every other 0.
    Threshold { lo: i64, hi: i64 },
    /// Cuts the image or the mesh where its values are `level`.
    Contour { level: i64 },
}

/// The words `once IN OUT` and a filter, `strip IN OUT`, or `clip IN OUT A B C R`: one file is read,
/// and one is written.
#[derive(Clone, Copy, Debug)]
pub struct Once<'a> {
    /// The name of the file that is read.
    pub input: &'a str,
    /// The name of the file that is written.
    pub output: &'a str,
    /// What is done.
    pub filter: Filter,
}

/// Whether a word is a file's name.
fn is_file_name(word: &[u8]) -> bool
    ensures { result ≡ is_file_name word.now }
{
    file_name(word).is_ok()
}

/// The text of a file's name, where the word is one: 1 to 64 letters, digits, `_`, `-` or `.`, the
/// first neither `-` nor `.`.
#[tactic(auto, unfolding(crate::specs::Command::file_name_of))]
pub fn file_name_text(word: &[u8]) -> Option<&str>
    ensures value { option_map (λ name. name.now) result ≡ file_name_of word.now }
{
    if !is_file_name(word) {
        return None;
    }
    Some(name_text(word))
}

/// The contour of its words.
fn read_contour(name: &[u8], level: &[u8]) -> Option<NodeFilter>
    ensures { result ≡ contour_of name.now level.now }
{
    if name != b"contour".as_slice() {
        return None;
    }
    let level = number(level)?;
    Some(NodeFilter::Contour { level })
}

/// The filter of its words.
#[tactic(auto, unfolding(crate::specs::Command::filter_of))]
fn read_filter(words: &[Bytes]) -> Option<NodeFilter>
    ensures { result ≡ filter_of words.now }
{
    if let [name, level] = words {
        return read_contour(name.list(), level.list());
    }
    let [name, lo, hi] = words else {
        return None;
    };
    if name.list() != b"threshold".as_slice() {
        return None;
    }
    let lo = number(lo.list())?;
    let hi = number(hi.list())?;
    Some(NodeFilter::Threshold { lo, hi })
}

/// The command that the words behind `once` are: IN OUT and those of a filter.
#[tactic(auto, unfolding(crate::specs::Command::once_of))]
pub fn read_once(words: &[Bytes]) -> Option<Once<'_>>
    ensures value { option_map command_view result ≡ once_of words.now }
{
    let [input, output, behind @ ..] = words else {
        return None;
    };
    let input = file_name_text(input.list())?;
    let output = file_name_text(output.list())?;
    let filter = read_filter(behind)?;
    Some(Once {
        input,
        output,
        filter: Filter::Node(filter),
    })
}

/// The command that the words behind `strip` are: IN OUT.
#[tactic(auto, unfolding(crate::specs::Command::strip_of))]
pub fn read_strip(words: &[Bytes]) -> Option<Once<'_>>
    ensures value { option_map command_view result ≡ strip_of words.now }
{
    let [input, output] = words else {
        return None;
    };
    let input = file_name_text(input.list())?;
    let output = file_name_text(output.list())?;
    Some(Once {
        input,
        output,
        filter: Filter::Reshape(Reshape::Strip),
    })
}

/// The clip of these numbers, where a plane may have them.
fn plane(a: &i64, b: &i64, c: &i64, r: &i64) -> Option<Reshape>
    ensures { result ≡ plane_of a.now b.now c.now r.now }
{
    let value = Value::Numbers {
        count: 4,
        items: [*a, *b, *c, *r, 0, 0, 0, 0],
    };
    if !allows(Param::Plane, &value) {
        return None;
    }
    Some(Reshape::Clip {
        a: *a,
        b: *b,
        c: *c,
        r: *r,
    })
}

/// The clip of four words.
#[tactic(auto, unfolding(crate::specs::Command::clip_with))]
fn read_plane(a: &[u8], b: &[u8], c: &[u8], r: &[u8]) -> Option<Reshape>
    ensures { result ≡ clip_with a.now b.now c.now r.now }
{
    let a = number(a)?;
    let b = number(b)?;
    let c = number(c)?;
    let r = number(r)?;
    plane(&a, &b, &c, &r)
}

/// The command that the words behind `clip` are: IN OUT A B C R.
#[tactic(auto, unfolding(crate::specs::Command::clip_of))]
pub fn read_clip(words: &[Bytes]) -> Option<Once<'_>>
    ensures value { option_map command_view result ≡ clip_of words.now }
{
    let [input, output, a, b, c, r] = words else {
        return None;
    };
    let input = file_name_text(input.list())?;
    let output = file_name_text(output.list())?;
    let reshape = read_plane(a.list(), b.list(), c.list(), r.list())?;
    Some(Once {
        input,
        output,
        filter: Filter::Reshape(reshape),
    })
}
