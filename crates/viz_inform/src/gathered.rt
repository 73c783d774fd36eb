//! What a table of values has of the places that feed a step's ports.

ghost use Rattle.std.specs.Prelude.{◌≡◌, ◌∷◌, []};
ghost use Rattle.viz_inform.specs.Table.{first_fault};

use viz_network::Fault;

fn fault_at<X>(table: &[Option<Result<X, Fault>>], place: &Option<usize>) -> Option<Fault>
    ensures { result ≡ first_fault table.now (place.now ∷ []) }
{
    let Some(place) = place else {
        return None;
    };
    match table.get(*place) {
        Some(Some(Err(fault))) => Some(*fault),
        _ => None,
    }
}

/// The first fault at the places that feed the ports, port 1 first.
pub fn fault_in<X>(table: &[Option<Result<X, Fault>>], places: &[Option<usize>]) -> Option<Fault>
    ensures value { result ≡ first_fault table.now places.now }
{
    for place in places {
        if let Some(fault) = fault_at(table, place) {
            return Some(fault);
        }
    }
    None
}
