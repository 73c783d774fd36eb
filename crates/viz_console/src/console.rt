//! The top call: one session.

ghost use Rattle.std.specs.Prelude.{◌≡◌, ◌⊎◌, IsTrue};
ghost use Rattle.viz_base.specs.Faults.{Rose};
ghost use Rattle.viz_console.specs.Ends.{EndsAs, end_of};
ghost use Rattle.viz_console.specs.Sessions.{IsSession};

use crate::ending::End;
use crate::session::serve_lines;
use std::sync::Wait;
use std::thread::Threads;
use viz_account::{audit_lines_are_closed, lines_count_edits};
use viz_base::{CACHE, Gate, HISTORY, Out, Port};
use viz_hub::{Hub, journal_is_of_joined_passes};
use viz_source::{LineReader, Source};

/// Serves a session: answers each line of the source before the next one is waited for, by one
/// history from its start. Files are read and written by `port`, answers are put to `out`, and
/// `gate` is what tasks pass.
///
/// Lines and answers are those of docs/FORMATS-OF-SCRIPTS.md, "Sessions".
pub fn serve<R: Threads + Wait + Sync + AllocGlobal, S: Source, P: Port, O: Out, G: Gate + Sync>(
    rt: &R,
    source: &mut S,
    port: &mut P,
    out: &mut O,
    gate: &G,
) -> End
    // What was read, answered, called and put.
    ensures session { IsSession S.Source P.Port O.Out result source.old source.new
        port.old port.new out.old out.new }

    // How it ends.
    ensures ends { IsTrue S.tells_bytes → EndsAs (end_of (S.left source.old)) result }
    ensures cause { result ≡ End.Fault → Rose (S.faults source.old) (S.faults source.new)
        ⊎ Rose (O.faults out.old) (O.faults out.new) }
{
    journal_is_of_joined_passes();
    lines_count_edits::<P>();
    audit_lines_are_closed::<P>();
    let alloc = rt.alloc();
    let Ok(reader) = LineReader::new(alloc) else {
        return End::Memory;
    };
    let Ok((hub, pass)) = Hub::start(alloc, HISTORY, CACHE) else {
        return End::Memory;
    };
    let (pass, end) = serve_lines(rt, alloc, &hub, pass, reader, source, port, out, gate);
    let _journal = hub.close(rt, pass);
    end
}
