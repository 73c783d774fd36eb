//! Laws on accounts. A law is a function that does nothing: its contract holds of the definitions
//! alone.

ghost use Rattle.viz_account.specs.Complete.{AllCameAreTold, UpdatesSayOfFiles};
ghost use Rattle.viz_account.specs.Laws.{AuditLinesAreClosed, EntriesAreToldOnce, HoldLater};
ghost use Rattle.viz_account.specs.Laws.{LinesCountEdits};
ghost use Rattle.viz_account.specs.Written.{HasNoPlan};

use crate::surface_laws::{audits_are_closed, audits_are_one};
use viz_base::Port;
use viz_scratch::files_are_one;

/// Lines that tell of commands in a history tell of them in each longer one.
pub fn accounts_hold_later()
    ensures later { HoldLater }
{}

/// Each entry of an account's history is told by just one line, that of its command.
pub fn entries_are_told_once<P: Port>()
    ensures once { EntriesAreToldOnce P.Port }
{}

/// Where one actor alone has commands, each of its lines shows how many entries were made so far,
/// its own included.
pub fn lines_count_edits<P: Port>()
    ensures counts { LinesCountEdits P.Port }
{}

/// What the lines of audits tell is closed up to the boundary, in each account: `sides` is `two`
/// and
/// `open` together, and `open` is `border`.
pub fn audit_lines_are_closed<P: Port>()
    ensures closed { AuditLinesAreClosed P.Port }
{
    audits_are_closed();
}

/// All commands of an account came to what they asked for exactly where all lines tell so.
pub fn all_came_are_told<P: Port>()
    ensures came { AllCameAreTold P.Port }
{
    files_are_one();
    audits_are_one();
}

/// The line of an update from scratch tells of a file only where its node has one, and of a refusal
/// only where it has none.
pub fn updates_say_of_files()
    ensures files { UpdatesSayOfFiles HasNoPlan }
{
    files_are_one();
}
