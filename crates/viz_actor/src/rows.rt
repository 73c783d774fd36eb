//! Rows of the report, by the new lines of places.

ghost use Rattle.std.specs.Prelude.{◌≡◌, ◌+◌, ◌<◌, ◌≤◌, ◌^◌, ◌++◌, All, length, map, drop};
ghost use Rattle.std.specs.Prelude.{vec_capacity};
ghost use Rattle.viz_report.specs.Report.{rows_from};
ghost use Rattle.viz_actor.specs.Places.{new_rows, all_new_rows, untold, collected, IsPlaceTold};

use crate::places::Place;
use viz_report::{Line, Row};

// Adds the rows of lines, in front of which the actor has so many.
fn put_rows(rows: &mut Vec<Row>, actor: u32, told: usize, lines: &[Line])
    requires sum { told + length lines.now < 2 ^ 64 }
    requires room { length rows.old.items + length lines.now ≤ vec_capacity rows.old }
    ensures rows { rows.new.items ≡ rows.old.items ++ rows_from actor (told + 1) lines.now }
    ensures capacity { vec_capacity rows.new ≡ vec_capacity rows.old }
{
    for (i, line) in lines.iter().enumerate() {
        rows.push_reserved(Row {
            actor,
            count: (told + i) as u64 + 1,
            line: *line,
        });
    }
}

// Adds the rows of a place's new lines.
fn collect<P>(place: &mut Place<P>, rows: &mut Vec<Row>)
    requires told { IsPlaceTold place.old }
    requires room { length rows.old.items + length (drop place.old.told place.old.lines.items)
        ≤ vec_capacity rows.old }
    ensures rows { rows.new.items ≡ rows.old.items ++ new_rows place.old }
    ensures capacity { vec_capacity rows.new ≡ vec_capacity rows.old }
    ensures place { place.new ≡ collected place.old }
{
    let lines = place.lines.as_slice();
    let (_, new) = lines.split_at(place.told);
    put_rows(rows, place.actor, place.told, new);
    place.told = place.lines.len();
}

/// Adds the rows of all new lines, place after place. There is room for them.
pub fn collect_all<P>(places: &mut [Place<P>], rows: &mut Vec<Row>)
    requires room { length rows.old.items + untold places.old ≤ vec_capacity rows.old }
    requires told { All IsPlaceTold places.old }
    ensures rows { rows.new.items ≡ rows.old.items ++ all_new_rows places.old }
    ensures capacity { vec_capacity rows.new ≡ vec_capacity rows.old }
    ensures places { places.new ≡ map collected places.old }
{
    match places.split_first_mut() {
        None => {}
        Some((first, rest)) => {
            collect(first, rows);
            collect_all(rest, rows);
        }
    }
}
