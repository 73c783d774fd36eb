//! The versions of journals.

ghost use Rattle.std.specs.Prelude.{◌≡◌};
ghost use Rattle.viz_journal.specs.Journal.{first_line};
ghost use Rattle.viz_journal.specs.Reading.{version_of};

/// A version of journals. Both are read, and the second is written.
#[derive(Clone, Copy, PartialEq, Eq, Debug)]
pub enum Version {
    /// Each entry is one edit, on a line with its actor and its count.
    One,
    /// Each entry is a batch, behind a line with its actor, its count and how many edits it has.
    Two,
}

/// The length of a first line with its newline, in bytes.
pub(crate) const FIRST: usize = 17;

/// The first line with its newline.
pub(crate) fn first_line(version: Version) -> &'static [u8]
    ensures { result.now ≡ first_line version }
{
    match version {
        Version::One => b"vizrun journal 1\n",
        Version::Two => b"vizrun journal 2\n",
    }
}

/// The version that the first line tells.
pub(crate) fn version_of(first: &[u8]) -> Option<Version>
    ensures { result ≡ version_of first.now }
{
    if first == first_line(Version::One) {
        return Some(Version::One);
    }
    if first == first_line(Version::Two) {
        return Some(Version::Two);
    }
    None
}
