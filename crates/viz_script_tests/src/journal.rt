//! Journals and their refusals. The texts and the lines are made by hand.

use ScriptRefusal::{Arity, Name, Number};
use std::alloc::Global;
use std::process::Abort;
use std::test::Fail;
use viz_base::{Bytes, Shared, Word};
use viz_batches::Batch;
use viz_journal::{JournalEntry, ScriptRefusal, ScriptStop, journal_text, read_journal};
use viz_network::{Edit, Kind, Param, Value};

type Refused = Option<(u32, ScriptRefusal)>;

/// The lines behind the first one, and how the journal is refused.
type Row<'a> = (&'a [u8], Refused);

const FIRST: &[u8] = b"vizrun journal 1\n";

const SECOND: &[u8] = b"vizrun journal 2\n";

fn told(alloc: Global, text: &[u8]) -> Refused {
    match read_journal(alloc, text) {
        Ok(_) => None,
        Err(ScriptStop::Refused { line, refusal }) => Some((line, refusal)),
        Err(ScriptStop::Memory) => Some((0, ScriptRefusal::TooLong)),
    }
}

fn are_told(rt: &impl Abort, alloc: Global, first: &[u8], rows: &[Row]) -> Result<(), Fail> {
    for (lines, want) in rows {
        let mut text = first.to_vec(alloc)?;
        text.extend_from_slice(lines)?;
        assert_eq!(rt; told(alloc, &text), *want, "{lines:?}");
    }
    Ok(())
}

const LAST: [Row; 10] = [
    (b"end 0\n", None),
    (b"", Some((2, ScriptRefusal::Word))),
    (b"end 0", Some((2, ScriptRefusal::Word))),
    (b"end 0\r\n", Some((2, ScriptRefusal::Word))),
    (b"end 00\n", Some((2, ScriptRefusal::Word))),
    (b"end  0\n", Some((2, ScriptRefusal::Word))),
    (b"end\n", Some((2, Arity))),
    (b"end x\n", Some((2, Number))),
    (b"end 1\n", Some((2, Number))),
    (b"end 0\nend 0\n", Some((3, ScriptRefusal::Word))),
];

const SINGLE_ENTRIES: [Row; 15] = [
    (b"0 1 add file a\nend 1\n", None),
    (b"1 1 add file a", Some((2, ScriptRefusal::Word))),
    (b"1  1 add file a\nend 1\n", Some((2, ScriptRefusal::Word))),
    (b"01 1 add file a\nend 1\n", Some((2, ScriptRefusal::Word))),
    (b"phase\nend 0\n", Some((2, ScriptRefusal::Word))),
    (b"#\nend 0\n", Some((2, ScriptRefusal::Word))),
    (b"\nend 0\n", Some((2, ScriptRefusal::Word))),
    (b"1 1 update a f 1 1\n", Some((2, ScriptRefusal::Word))),
    (b"1 1 begin\n", Some((2, ScriptRefusal::Word))),
    (b"1 1 add glyph a\n", Some((2, ScriptRefusal::Word))),
    (b"1 1 add file\n", Some((2, Arity))),
    (b"1 0 add file a-b\n", Some((2, Name))),
    (b"1 2 add file a\n", Some((2, Number))),
    (b"4294967296 1 add file a\n", Some((2, Number))),
    (b"4294967295 1 add file a\nend 1\n", None),
];

const SINGLE_EDITS: [Row; 8] = [
    (
        b"1 1 add file a\n1 2 add file a\n1 x\n",
        Some((3, ScriptRefusal::Edit)),
    ),
    (
        b"1 1 add file a\n2 1 add smooth b\n1 2 connect a b 1\nend 3\n",
        None,
    ),
    (b"1 1 add file a\n2 2 add smooth b\n", Some((3, Number))),
    (b"1 1 set a unit 1\n", Some((2, ScriptRefusal::Edit))),
    (
        b"1 1 add file a\n1 2 set a unit 10\n",
        Some((3, ScriptRefusal::Edit)),
    ),
    (b"1 1 add file a\n1 2 set a unit 9\nend 2\n", None),
    (
        b"1 1 add writer a\n1 2 set a version 4\n",
        Some((3, ScriptRefusal::Edit)),
    ),
    (b"1 1 add writer a\n1 2 set a version 5\nend 2\n", None),
];

// A load of ten bytes that holds the last line of another journal.
const SINGLE_LOADS: [Row; 7] = [
    (
        b"1 1 add file a\n1 2 load a 10\nabc\nend 1\n\nend 2\n",
        None,
    ),
    (b"1 1 add file a\n1 2 load a 3\nabc\nend 2\n", None),
    (b"1 1 add file a\n1 2 load a 0\n\nend 2\n", None),
    (
        b"1 1 add file a\n1 2 load a 2\nabc\nend 2\n",
        Some((3, ScriptRefusal::Word)),
    ),
    (
        b"1 1 add file a\n1 2 load a 10\nabc\nend 2\n",
        Some((3, ScriptRefusal::Word)),
    ),
    (
        b"1 1 add file a\n1 2 load a 11\nabc\nend 2\n",
        Some((3, Number)),
    ),
    (
        b"1 1 add file a\n1 2 load a -1\n\nend 2\n",
        Some((3, ScriptRefusal::Word)),
    ),
];

// The line in front of a batch.
const HEADS: [Row; 17] = [
    (b"0 1 1\nadd file a\nend 1\n", None),
    (b"1 1 1", Some((2, ScriptRefusal::Word))),
    (
        b"1  1 1\nadd file a\nend 1\n",
        Some((2, ScriptRefusal::Word)),
    ),
    (
        b"1 1 01\nadd file a\nend 1\n",
        Some((2, ScriptRefusal::Word)),
    ),
    (b"add file a\nend 1\n", Some((2, ScriptRefusal::Word))),
    (b"phase\nend 0\n", Some((2, ScriptRefusal::Word))),
    (b"#\nend 0\n", Some((2, ScriptRefusal::Word))),
    (b"\nend 0\n", Some((2, ScriptRefusal::Word))),
    (b"1 1\nadd file a\nend 1\n", Some((2, Arity))),
    (b"1 1 add file a\nend 1\n", Some((2, Arity))),
    (b"1 1 0\nend 1\n", Some((2, Number))),
    (b"1 1 65\nadd file a\n", Some((2, Number))),
    (b"1 1 x\nadd file a\n", Some((2, Number))),
    (b"1 2 1\nadd file a\n", Some((2, Number))),
    (b"1 1 1\nadd file a\n1 1 1\n", Some((4, Number))),
    (b"4294967296 1 1\nadd file a\n", Some((2, Number))),
    (b"4294967295 1 1\nadd file a\nend 1\n", None),
];

// The lines of a batch, too few and too many, and those that aren't edits.
const BATCHES: [Row; 16] = [
    (b"1 1 1\n", Some((3, ScriptRefusal::Word))),
    (b"1 1 2\nadd file a\n", Some((4, ScriptRefusal::Word))),
    (
        b"1 1 2\nadd file a\nend 1\n",
        Some((4, ScriptRefusal::Word)),
    ),
    (
        b"1 1 2\nadd file a\n1 2 1\n",
        Some((4, ScriptRefusal::Word)),
    ),
    (
        b"1 1 1\nadd file a\nadd file b\nend 1\n",
        Some((4, ScriptRefusal::Word)),
    ),
    (b"1 1 1\nadd file a", Some((3, ScriptRefusal::Word))),
    (
        b"1 1 1\n add file a\nend 1\n",
        Some((3, ScriptRefusal::Word)),
    ),
    (b"1 1 1\n\nend 1\n", Some((3, ScriptRefusal::Word))),
    (b"1 1 1\n#\nend 1\n", Some((3, ScriptRefusal::Word))),
    (b"1 1 1\nupdate a f 1 1\n", Some((3, ScriptRefusal::Word))),
    (b"1 1 1\nbegin\n", Some((3, ScriptRefusal::Word))),
    (b"1 1 1\nadd glyph a\n", Some((3, ScriptRefusal::Word))),
    (b"1 1 1\nadd file\n", Some((3, Arity))),
    (b"1 1 1\nadd file a-b\n", Some((3, Name))),
    (b"1 1 1\nconnect a b 256\n", Some((3, Number))),
    (b"1 1 2\nadd file a\nremove a\nend 1\n", None),
];

// An edit that the network refuses is refused at its own line.
const EDITS: [Row; 5] = [
    (
        b"1 1 3\nadd file a\nadd file a\nx\n",
        Some((4, ScriptRefusal::Edit)),
    ),
    (
        b"1 1 2\nadd file a\nset a unit 10\n1 2 x\n",
        Some((4, ScriptRefusal::Edit)),
    ),
    (
        b"1 1 2\nadd file a\nadd smooth b\n2 1 2\nconnect a b 1\nremove a\n",
        Some((7, ScriptRefusal::Edit)),
    ),
    (
        b"1 1 2\nadd file a\nadd smooth b\n2 1 2\nconnect a b 1\nset a unit 9\nend 2\n",
        None,
    ),
    (
        b"1 1 1\nadd file a\n1 2 2\nadd file b\nremove a\nend 2\n",
        None,
    ),
];

// A load of ten bytes that holds the last line of another journal.
const LOADS: [Row; 7] = [
    (b"1 1 2\nadd file a\nload a 10\nabc\nend 1\n\nend 1\n", None),
    (b"1 1 2\nadd file a\nload a 0\n\nend 1\n", None),
    (
        b"1 1 2\nadd file a\nload a 4\na\nb\n\nend 2\n",
        Some((5, Number)),
    ),
    (
        b"1 1 3\nadd file a\nload a 4\na\nb\n\nadd file a\nend 1\n",
        Some((5, ScriptRefusal::Edit)),
    ),
    (
        b"1 1 2\nadd file a\nload a 2\nabc\nend 1\n",
        Some((4, ScriptRefusal::Word)),
    ),
    (
        b"1 1 2\nadd file a\nload a 11\nabc\nend 1\n",
        Some((4, Number)),
    ),
    (
        b"1 1 2\nadd file a\nload a -1\n\nend 1\n",
        Some((4, ScriptRefusal::Word)),
    ),
];

#[test]
fn each_refusal_of_version_1_has_a_neighbour(rt: HostRuntime) -> Result<(), Fail> {
    are_told(&rt, rt.alloc(), FIRST, &LAST)?;
    are_told(&rt, rt.alloc(), FIRST, &SINGLE_ENTRIES)?;
    are_told(&rt, rt.alloc(), FIRST, &SINGLE_EDITS)?;
    are_told(&rt, rt.alloc(), FIRST, &SINGLE_LOADS)
}

#[test]
fn each_refusal_has_a_neighbour(rt: HostRuntime) -> Result<(), Fail> {
    are_told(&rt, rt.alloc(), SECOND, &LAST)?;
    are_told(&rt, rt.alloc(), SECOND, &HEADS)?;
    are_told(&rt, rt.alloc(), SECOND, &BATCHES)?;
    are_told(&rt, rt.alloc(), SECOND, &EDITS)?;
    are_told(&rt, rt.alloc(), SECOND, &LOADS)
}

#[test]
fn a_journal_begins_with_its_first_line(rt: HostRuntime) -> Result<(), Fail> {
    let rows: [(&[u8], u32); 4] = [
        (b"", 1),
        (b"vizrun journal 3\nend 0\n", 1),
        (b"vizrun journal 1", 1),
        (b"vizrun journal 2", 1),
    ];
    for (text, line) in rows {
        assert_eq!(rt;
            told(rt.alloc(), text),
            Some((line, ScriptRefusal::Word)),
            "{text:?}"
        );
    }
    Ok(())
}

/// What is read of the text is written as the other.
fn is_written(rt: &impl Abort, alloc: Global, text: &[u8], want: &[u8]) -> Result<(), Fail> {
    let Ok(entries) = read_journal(alloc, text) else {
        return Err("refused")?;
    };
    let written = journal_text(alloc, &entries)?;
    assert_eq!(rt; written.list(), want);
    Ok(())
}

// The network of a contour, with its level changed.
const CONTOUR: &[u8] = b"vizrun journal 2\n1 1 1\nadd file src\n1 2 1\nload src 8\na\nend 2\n\n\
    1 3 3\nadd contour iso\nconnect src iso 1\nset iso levels 5\n\
    2 1 1\nset iso levels -9223372036854775808 10\n2 2 1\nset src array *\n\
    1 4 2\ndisconnect iso 1\nremove src\nend 6\n";

const WRITER: &[u8] = b"vizrun journal 2\n1 1 5\nadd writer out\nset out version 5\n\
    set out digits 6\nset out form binary\nset out version 3\nend 1\n";

#[test]
fn what_is_read_is_written_again(rt: HostRuntime) -> Result<(), Fail> {
    is_written(&rt, rt.alloc(), CONTOUR, CONTOUR)?;
    is_written(&rt, rt.alloc(), WRITER, WRITER)
}

// Each edit is an entry, which is a batch of one.
const SINGLES: &[u8] = b"vizrun journal 1\n1 1 add file src\n1 2 load src 8\na\nend 2\n\n\
    1 3 add contour iso\n2 1 connect src iso 1\n1 4 set iso levels 5\nend 5\n";

const BATCHES_OF_ONE: &[u8] = b"vizrun journal 2\n1 1 1\nadd file src\n1 2 1\nload src 8\na\n\
    end 2\n\n1 3 1\nadd contour iso\n2 1 1\nconnect src iso 1\n1 4 1\nset iso levels 5\nend 5\n";

const FIRST_ALONE: &[u8] = b"vizrun journal 1\nend 0\n";

const SECOND_ALONE: &[u8] = b"vizrun journal 2\nend 0\n";

#[test]
fn a_journal_of_version_1_is_written_in_version_2(rt: HostRuntime) -> Result<(), Fail> {
    is_written(&rt, rt.alloc(), FIRST_ALONE, SECOND_ALONE)?;
    is_written(&rt, rt.alloc(), SINGLES, BATCHES_OF_ONE)
}

/// A journal whose one batch adds so many nodes.
fn adds(alloc: Global, count: u8) -> Result<Vec<u8>, Fail> {
    let mut text = SECOND.to_vec(alloc)?;
    let head = format!(in alloc; "1 1 {count}\n")?;
    text.extend_from_slice(head.as_bytes())?;
    for i in 0..count {
        let line = format!(in alloc; "add file n{i}\n")?;
        text.extend_from_slice(line.as_bytes())?;
    }
    text.extend_from_slice(b"end 1\n")?;
    Ok(text)
}

#[test]
fn a_batch_has_64_edits_at_most(rt: HostRuntime) -> Result<(), Fail> {
    let most = adds(rt.alloc(), 64)?;
    is_written(&rt, rt.alloc(), &most, &most)?;
    let more = adds(rt.alloc(), 65)?;
    assert_eq!(rt; told(rt.alloc(), &more), Some((2, Number)));
    Ok(())
}

fn word(text: &[u8]) -> Result<Word, Fail> {
    Ok(Word::new(text).ok_or("no name")?)
}

fn loading(alloc: Global, node: &[u8], text: &[u8]) -> Result<Edit, Fail> {
    let node = word(node)?;
    let file = Shared::new(alloc, Bytes::new(text.to_vec(alloc)?))?;
    Ok(Edit::Load { node, file })
}

fn unit(node: &[u8], unit: i64) -> Result<Edit, Fail> {
    Ok(Edit::Set {
        node: word(node)?,
        param: Param::Unit,
        value: Value::Numbers {
            count: 1,
            items: [unit, 0, 0, 0, 0, 0, 0, 0],
        },
    })
}

/// Two edits as a batch.
fn two(alloc: Global, first: Edit, second: Edit) -> Result<Batch, Fail> {
    let mut edits = Vec::new(alloc);
    edits.push(first)?;
    edits.push(second)?;
    Ok(Batch::new(edits).ok_or("no batch")?)
}

#[test]
fn an_entry_is_its_line_and_its_edits(rt: HostRuntime) -> Result<(), Fail> {
    let alloc = rt.alloc();
    let mut entries = Vec::new(alloc);
    let add = Edit::Add {
        kind: Kind::File,
        node: word(b"src")?,
    };
    entries.push(JournalEntry {
        actor: 3,
        count: 1,
        batch: Batch::one(add),
    })?;
    entries.push(JournalEntry {
        actor: 8,
        count: 1,
        batch: two(alloc, loading(alloc, b"src", b"x\ny")?, unit(b"src", 9)?)?,
    })?;
    let want: &[u8] = b"vizrun journal 2\n3 1 1\nadd file src\n\
        8 1 2\nload src 3\nx\ny\nset src unit 9\nend 2\n";
    let text = journal_text(alloc, &entries)?;
    assert_eq!(rt; text.list(), want);
    Ok(())
}
