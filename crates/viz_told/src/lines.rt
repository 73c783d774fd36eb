//! The lines that are the same each time, and that more than one command puts (docs/FORMATS.md,
//! "Report").

ghost use Rattle.std.specs.Prelude.{◌≡◌};
ghost use Rattle.viz_told.specs.Lines.{usage_line, no_port_line, read_fault_line};
ghost use Rattle.viz_told.specs.Lines.{write_fault_line, memory_line};

/// The words are no command.
#[tactic(auto, unfolding(crate::specs::Lines::usage_line))]
pub fn usage_line() -> &'static [u8]
    ensures value { result.now ≡ usage_line }
{
    b"vizrun: usage\n"
}

/// No port is there.
#[tactic(auto, unfolding(crate::specs::Lines::no_port_line))]
pub fn no_port_line() -> &'static [u8]
    ensures value { result.now ≡ no_port_line }
{
    b"script line 0 ActorRange\n"
}

/// A read failed.
#[tactic(auto, unfolding(crate::specs::Lines::read_fault_line))]
pub fn read_fault_line() -> &'static [u8]
    ensures value { result.now ≡ read_fault_line }
{
    b"fault read\n"
}

/// A write failed.
#[tactic(auto, unfolding(crate::specs::Lines::write_fault_line))]
pub fn write_fault_line() -> &'static [u8]
    ensures value { result.now ≡ write_fault_line }
{
    b"fault write\n"
}

/// Memory ran out.
#[tactic(auto, unfolding(crate::specs::Lines::memory_line))]
pub fn memory_line() -> &'static [u8]
    ensures value { result.now ≡ memory_line }
{
    b"memory\n"
}
