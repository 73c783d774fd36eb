//! How many tasks of a run have begun, shown on standard error.

use std::sync::atomic::{AtomicU64, Ordering};
use viz_base::Gate;

/// A gate that renews a line of standard error with the number of tasks that have begun, where it
/// is shown. The cursor stays in front of the line, so that what is put next covers it. A write
/// that fails is passed over.
#[derive(Drop)]
pub struct Progress<'a, R: Eprint> {
    rt: &'a R,
    is_shown: bool,
    begun: AtomicU64,
}

impl<'a, R: Eprint> Progress<'a, R> {
    /// A gate that no task has entered yet.
    pub fn new(rt: &'a R, is_shown: bool) -> Progress<'a, R> {
        Progress {
            rt,
            is_shown,
            begun: AtomicU64::new(0),
        }
    }

    /// Takes the line away, where one is shown and nothing has covered it.
    pub fn end(&self) {
        if self.is_shown {
            let _ = eprint!(self.rt; "\x1b[K");
        }
    }
}

impl<'a, R: Eprint> Gate for Progress<'a, R> {
    fn enter(&self, _task: u64) {
        if !self.is_shown {
            return;
        }
        let begun = self.begun.fetch_add(1, Ordering::Relaxed).saturating_add(1);
        let _ = eprint!(self.rt; "{begun} tasks\r");
    }
}
