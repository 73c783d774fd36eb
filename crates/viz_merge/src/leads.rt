//! For each point the first one at its place, by a sort of places.

ghost use Rattle.std.specs.Prelude.{◌≡◌, ◌-◌, ◌<◌, ◌^◌, [], IfOk, length, pos, slice_index_or};
ghost use Rattle.std.specs.Prelude.{slice_set};
ghost use Rattle.std.specs.List.Sorted.{IsSorted};
ghost use Rattle.std.specs.Cmp.Lexicographic.{slice_cmp};
ghost use Rattle.std.specs.Ordering.{int_cmp};
ghost use Rattle.viz_merge.specs.Steps.Leads.{AreWritten, HaveIndices, has_same_place, index_in};
ghost use Rattle.viz_merge.specs.Steps.Leads.{key_at, lead_in};

use std::alloc::{AllocError, Global};

/// For each key, by its index, the index of the first key at its place, from keys in order.
pub(crate) fn leads_of(alloc: Global, sorted: &[[i128; 5]]) -> Result<Vec<u32>, AllocError>
    requires indices { HaveIndices sorted.now }
    ensures value { IfOk result (λ v. AreWritten sorted.now (length sorted.now) v.items) }
{
    let mut leads = vec![in alloc; 0; sorted.len()]?;
    write_leads(&mut leads, sorted);
    Ok(leads)
}

/// Writes the lead of each key at the key's index.
fn write_leads(leads: &mut Vec<u32>, sorted: &[[i128; 5]])
    requires indices { HaveIndices sorted.now }
    requires none { AreWritten sorted.now 0 leads.old.items }
    ensures value { AreWritten sorted.now (length sorted.now) leads.new.items }
{
    let mut lead = 0;
    for at in 0..sorted.len() {
        lead = lead_at(sorted, at, lead);
        write_lead(leads, sorted, at, lead);
    }
}

/// Writes a key's lead at its index.
fn write_lead(leads: &mut Vec<u32>, sorted: &[[i128; 5]], at: usize, lead: u32)
    requires within { at < length sorted.now }
    requires indices { HaveIndices sorted.now }
    requires size { length leads.old.items ≡ length sorted.now }
    ensures value { leads.new.items
        ≡ slice_set leads.old.items (index_in (key_at sorted.now at)) lead }
{
    leads[index_at(sorted, at) as usize] = lead;
}

/// The lead of a key, by that of the key in front.
fn lead_at(sorted: &[[i128; 5]], at: usize, lead: u32) -> u32
    requires within { at < length sorted.now }
    requires indices { HaveIndices sorted.now }
    requires front { 0 < at → lead ≡ lead_in sorted.now (at - 1) }
    ensures value { result ≡ lead_in sorted.now at }
{
    if at > 0 && is_same_place(&sorted[at - 1], &sorted[at]) {
        lead
    } else {
        index_at(sorted, at)
    }
}

/// The index in a key.
fn index_at(sorted: &[[i128; 5]], at: usize) -> u32
    requires within { at < length sorted.now }
    requires indices { HaveIndices sorted.now }
    ensures value { result ≡ index_in (key_at sorted.now at) }
{
    let [_, _, _, _, index] = sorted[at];
    index as u32
}

/// Two keys have one place.
fn is_same_place(a: &[i128; 5], b: &[i128; 5]) -> bool
    ensures { result ≡ has_same_place a.now b.now }
{
    a[..4] == b[..4]
}
