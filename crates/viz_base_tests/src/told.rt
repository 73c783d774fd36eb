//! Toy outcomes of each status, told to outputs that take the text, that fail, and that have no
//! room.

use std::alloc::{AllocError, Global};
use std::process::Abort;
use std::test::Fail;
use viz_base::{Bytes, MemoryOut, Out, WriteRefusal};
use viz_told::{Status, Tells, Text, tell, usage_line};

// An outcome whose text is the same each time.
#[derive(Clone, Copy, Debug)]
struct Fixed {
    status: Status,
}

impl Tells for Fixed {
    ghost use Rattle.std.specs.Prelude.{false};
    ghost use Rattle.viz_told.specs.Lines.{usage_line};

    ghost telling = { λ toy. record { text = usage_line; status = toy.status; is_made = false } };

    fn status(&self) -> Status {
        self.status
    }

    fn text(&self, _alloc: Global) -> Result<Text, AllocError> {
        Ok(Text::Fixed(usage_line()))
    }
}

// An outcome whose text is made, where there is room.
#[derive(Clone, Copy, Debug)]
struct Made {
    status: Status,
    has_room: bool,
}

impl Tells for Made {
    ghost use Rattle.std.specs.Prelude.{true, codes};

    ghost telling = { λ toy. record { text = codes "toy\n"; status = toy.status; is_made = true } };

    fn status(&self) -> Status {
        self.status
    }

    fn text(&self, alloc: Global) -> Result<Text, AllocError> {
        if !self.has_room {
            return Err(AllocError);
        }
        Ok(Text::Made(Bytes::new(Vec::from_slice(alloc, b"toy\n")?)))
    }
}

// An output that never has room.
#[derive(Debug, Drop)]
struct NoRoom {
    puts: u64,
}

impl Out for NoRoom {
    ghost use Rattle.std.specs.Prelude.{[], true};

    ghost tells_text = { true };

    ghost text = { λ _. [] };

    ghost puts = { λ out. out.puts };

    ghost answered = { λ _. 0 };

    ghost faults = { λ _. 0 };

    fn put(&mut self, _alloc: Global, _bytes: &[u8]) -> Result<(), WriteRefusal> {
        self.puts = self.puts.saturating_add(1);
        Err(WriteRefusal::Memory)
    }
}

// The status where the text is put, where the put fails, and where the output has no room.
const STATUSES: [(Status, Status, Status); 6] = [
    (Status::Done, Status::Fault, Status::Memory),
    (Status::Usage, Status::Usage, Status::Usage),
    (Status::Script, Status::Script, Status::Memory),
    (Status::Refused, Status::Fault, Status::Memory),
    (Status::Fault, Status::Fault, Status::Memory),
    (Status::Memory, Status::Memory, Status::Memory),
];

// The status of a toy, and the text that is put, where the listed puts fail.
fn told<T: Tells>(alloc: Global, toy: &T, failing: &[u64]) -> Result<(Status, String), Fail> {
    let mut out = MemoryOut::new(alloc, failing.to_vec(alloc)?);
    let status = tell(alloc, &mut out, toy);
    Ok((status, String::from_utf8(out.text().to_vec(alloc)?)?))
}

// A toy is told with this text, by each answer of the put.
fn tells<T: Tells>(
    rt: &impl Abort,
    alloc: Global,
    toy: &T,
    row: (Status, Status, Status),
    want: &str,
) -> Result<(), Fail> {
    let (status, text) = told(alloc, toy, &[2])?;
    assert!(rt; status == row.0, "{status:?}");
    assert_eq!(rt; text.as_str(), want);
    let (status, text) = told(alloc, toy, &[1])?;
    assert!(rt; status == row.1, "{status:?}");
    assert_eq!(rt; text.as_str(), "");
    let mut out = NoRoom { puts: 0 };
    let status = tell(alloc, &mut out, toy);
    assert!(rt; status == row.2 && out.puts == 1, "{status:?}");
    Ok(())
}

#[test]
fn a_text_is_told_by_what_its_put_answers(rt: HostRuntime) -> Result<(), Fail> {
    let alloc = rt.alloc();
    for row in STATUSES {
        let status = row.0;
        tells(&rt, alloc, &Fixed { status }, row, "vizrun: usage\n")?;
        let made = Made {
            status,
            has_room: true,
        };
        tells(&rt, alloc, &made, row, "toy\n")?;
    }
    Ok(())
}

#[test]
fn want_of_memory_is_told_in_place_of_a_text(rt: HostRuntime) -> Result<(), Fail> {
    let alloc = rt.alloc();
    for (status, _, _) in STATUSES {
        let row = (Status::Memory, Status::Memory, Status::Memory);
        let unmade = Made {
            status,
            has_room: false,
        };
        tells(&rt, alloc, &unmade, row, "memory\n")?;
    }
    Ok(())
}
