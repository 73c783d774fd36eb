//! Words of scripts, scripts, journals and reports, against texts by hand: tests alone.
#![tactic(auto)]

#[cfg(test)]
mod journal;
#[cfg(test)]
mod report;
#[cfg(test)]
mod script;
#[cfg(test)]
mod words;
