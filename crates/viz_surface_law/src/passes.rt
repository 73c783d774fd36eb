//! One pass over sorted keys of sides.

ghost use Rattle.std.specs.Prelude.{◌≡◌, ◌+◌, ◌-◌, ◌/◌, ◌%◌, ◌<◌, ◌≤◌, ◌^◌, ℕ, List, [], ◌∷◌, All};
ghost use Rattle.std.specs.Prelude.{length};
ghost use Rattle.viz_extent.specs.Extent.{count_of};
ghost use Rattle.viz_surface_law.specs.Steps.Keys.{Ascend, any_side, half, in_one, in_two};
ghost use Rattle.viz_surface_law.specs.Steps.Keys.{passing, tallied};
ghost use Rattle.viz_surface_law.specs.Steps.Ranked.{HasRanks, in_border};
ghost use Rattle.viz_surface_law.specs.Surfaces.{IsEdgeName};

use crate::boundary::is_at_border;
use viz_extent::Extent;
use viz_sheet::Sheet;

/// The side at hand, how often it has been run through each way, and the counts of those before.
#[derive(Clone, Copy)]
pub(crate) struct Tally {
    side: u64,
    forth: u64,
    back: u64,
    pub(crate) sides: u64,
    pub(crate) two: u64,
    pub(crate) lone: u64,
    pub(crate) border: u64,
}

/// Counts the side at hand.
fn closed(t: Tally, sheet: &Sheet, whole: &Extent) -> Tally
    requires room { t.sides < 2 ^ 63 }
    requires two { t.two ≤ t.sides }
    requires lone { t.lone ≤ t.sides }
    requires border { t.border ≤ t.sides }
    requires times { t.forth + t.back < 2 ^ 63 }
    requires names { All (IsEdgeName (count_of whole.now)) sheet.now.names }
    requires ranks { HasRanks (length sheet.now.names) t.side }
    ensures sides { result.sides ≡ t.sides + tallied any_side t.side t.forth t.back [] }
    ensures two { result.two ≡ t.two + tallied in_two t.side t.forth t.back [] }
    ensures lone { result.lone ≡ t.lone + tallied in_one t.side t.forth t.back [] }
    ensures border { result.border
        ≡ t.border + tallied (in_border whole.now sheet.now.names) t.side t.forth t.back [] }
    ensures most_two { result.two ≤ result.sides }
    ensures most_lone { result.lone ≤ result.sides }
    ensures most_border { result.border ≤ result.sides }
    ensures one_more { result.sides ≡ t.sides + 1 }
{
    let both = t.forth == 1 && t.back == 1;
    let one = t.forth + t.back == 1;
    let at_border = one && is_at_border(sheet, whole, t.side);
    Tally {
        side: t.side,
        forth: t.forth,
        back: t.back,
        sides: t.sides + 1,
        two: t.two + u64::from(both),
        lone: t.lone + u64::from(one),
        border: t.border + u64::from(at_border),
    }
}

/// Takes the next key.
fn next(t: Tally, key: u64, sheet: &Sheet, whole: &Extent) -> Tally
    requires room { t.sides < 2 ^ 63 }
    requires two { t.two ≤ t.sides }
    requires lone { t.lone ≤ t.sides }
    requires border { t.border ≤ t.sides }
    requires times { t.forth + t.back < 2 ^ 63 }
    requires names { All (IsEdgeName (count_of whole.now)) sheet.now.names }
    requires ranks { HasRanks (length sheet.now.names) t.side }
    requires key { HasRanks (length sheet.now.names) (half key) }
    ensures sides { (rest : List ℕ)
        → result.sides + tallied any_side result.side result.forth result.back rest
        ≡ t.sides + tallied any_side t.side t.forth t.back (key ∷ rest) }
    ensures two { (rest : List ℕ)
        → result.two + tallied in_two result.side result.forth result.back rest
        ≡ t.two + tallied in_two t.side t.forth t.back (key ∷ rest) }
    ensures lone { (rest : List ℕ)
        → result.lone + tallied in_one result.side result.forth result.back rest
        ≡ t.lone + tallied in_one t.side t.forth t.back (key ∷ rest) }
    ensures border { (rest : List ℕ) → let test = in_border whole.now sheet.now.names in
        result.border + tallied test result.side result.forth result.back rest
        ≡ t.border + tallied test t.side t.forth t.back (key ∷ rest) }
    ensures most_two { result.two ≤ result.sides }
    ensures most_lone { result.lone ≤ result.sides }
    ensures most_border { result.border ≤ result.sides }
    ensures one_more { result.sides ≤ t.sides + 1 }
    ensures times { result.forth + result.back ≤ t.forth + t.back + 1 }
    ensures side { result.side ≡ half key }
{
    let back = key % 2;
    if key / 2 == t.side {
        return Tally {
            forth: t.forth + (1 - back),
            back: t.back + back,
            ..t
        };
    }
    Tally {
        side: key / 2,
        forth: 1 - back,
        back,
        ..closed(t, sheet, whole)
    }
}

/// Counts the sides of keys that begin with this one.
fn pass(first: u64, rest: &[u64], sheet: &Sheet, whole: &Extent) -> Tally
    requires names { All (IsEdgeName (count_of whole.now)) sheet.now.names }
    requires first { HasRanks (length sheet.now.names) (half first) }
    requires rest { All (λ key. HasRanks (length sheet.now.names) (half key)) rest.now }
    ensures sides { result.sides
        ≡ tallied any_side (first / 2) (1 - first % 2) (first % 2) rest.now }
    ensures two { result.two ≡ tallied in_two (first / 2) (1 - first % 2) (first % 2) rest.now }
    ensures lone { result.lone ≡ tallied in_one (first / 2) (1 - first % 2) (first % 2) rest.now }
    ensures border { let test = in_border whole.now sheet.now.names in
        result.border ≡ tallied test (first / 2) (1 - first % 2) (first % 2) rest.now }
{
    let mut t = Tally {
        side: first / 2,
        forth: 1 - first % 2,
        back: first % 2,
        sides: 0,
        two: 0,
        lone: 0,
        border: 0,
    };
    for key in rest {
        t = next(t, *key, sheet, whole);
    }
    closed(t, sheet, whole)
}

/// Counts the sides of sorted keys: all, those in two triangles that run through them in opposite
/// directions, those in exactly one, and those of them on the boundary.
pub(crate) fn count_keys(keys: &[u64], sheet: &Sheet, whole: &Extent) -> (u64, u64, u64, u64)
    requires sorted { Ascend keys.now }
    requires names { All (IsEdgeName (count_of whole.now)) sheet.now.names }
    requires ranks { All (λ key. HasRanks (length sheet.now.names) (half key)) keys.now }
    ensures sides { result.0 ≡ passing any_side keys.now }
    ensures two { result.1 ≡ passing in_two keys.now }
    ensures lone { result.2 ≡ passing in_one keys.now }
    ensures border { result.3 ≡ passing (in_border whole.now sheet.now.names) keys.now }
{
    match keys.split_first() {
        None => (0, 0, 0, 0),
        Some((first, rest)) => {
            let t = pass(*first, rest, sheet, whole);
            (t.sides, t.two, t.lone, t.border)
        }
    }
}
