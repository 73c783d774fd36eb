//! Whether a facet lies on the boundary of a grid.

ghost use Rattle.std.specs.Prelude.{◌≡◌, ◌<◌, ◌==◌, [], ◌∷◌, All};
ghost use Rattle.std.specs.List.{list_all};
ghost use Rattle.viz_extent.specs.Extent.{count_of};
ghost use Rattle.viz_surface_law.specs.Facets.{is_on_boundary, lies_at_end, x_of, y_of, z_of};

use viz_extent::Extent;

/// Whether the points of a facet, by their leaves, all lie at the lower end of one axis of the
/// grid, or all at its upper end.
///
/// An axis with one index has both ends there, so that every facet of that grid lies on it.
pub fn facet_on_boundary(whole: &Extent, corners: [u64; 3]) -> bool
    requires below { All (λ leaf. leaf < count_of whole.now) corners }
    ensures value { result ≡ is_on_boundary whole.now corners }
{
    let [a, b, c] = corners;
    at_end_of_x(whole, a, b, c) || at_end_of_y(whole, a, b, c) || at_end_of_z(whole, a, b, c)
}

/// Whether three points lie at one end of x.
fn at_end_of_x(whole: &Extent, a: u64, b: u64, c: u64) -> bool
    ensures { result ≡ lies_at_end (x_of whole.now) whole.now.x0 whole.now.x1 (a ∷ b ∷ c ∷ []) }
{
    let [x0, x1, _, _, _, _] = whole.bounds();
    let places = (along_x(whole, a), along_x(whole, b), along_x(whole, c));
    are_at(places, u64::from(x0)) || are_at(places, u64::from(x1))
}

/// Whether three points lie at one end of y.
fn at_end_of_y(whole: &Extent, a: u64, b: u64, c: u64) -> bool
    ensures { result ≡ lies_at_end (y_of whole.now) whole.now.y0 whole.now.y1 (a ∷ b ∷ c ∷ []) }
{
    let [_, _, y0, y1, _, _] = whole.bounds();
    let places = (along_y(whole, a), along_y(whole, b), along_y(whole, c));
    are_at(places, u64::from(y0)) || are_at(places, u64::from(y1))
}

/// Whether three points lie at one end of z.
fn at_end_of_z(whole: &Extent, a: u64, b: u64, c: u64) -> bool
    requires { All (λ leaf. leaf < count_of whole.now) (a ∷ b ∷ c ∷ []) }
    ensures { result ≡ lies_at_end (z_of whole.now) whole.now.z0 whole.now.z1 (a ∷ b ∷ c ∷ []) }
{
    let [_, _, _, _, z0, z1] = whole.bounds();
    let places = (along_z(whole, a), along_z(whole, b), along_z(whole, c));
    are_at(places, u64::from(z0)) || are_at(places, u64::from(z1))
}

/// Whether three indices are all this one.
fn are_at(places: (u64, u64, u64), index: u64) -> bool
    ensures { result ≡ list_all (λ p. p == index) (places.0 ∷ places.1 ∷ places.2 ∷ []) }
{
    let (a, b, c) = places;
    a == index && b == index && c == index
}

/// Where the point of a leaf lies along x.
fn along_x(whole: &Extent, leaf: u64) -> u64
    ensures { result ≡ x_of whole.now leaf }
{
    let [x0, x1, _, _, _, _] = whole.bounds();
    u64::from(x0) + leaf % (u64::from(x1 - x0) + 1)
}

/// Where it lies along y.
fn along_y(whole: &Extent, leaf: u64) -> u64
    ensures { result ≡ y_of whole.now leaf }
{
    let [x0, x1, y0, y1, _, _] = whole.bounds();
    u64::from(y0) + leaf / (u64::from(x1 - x0) + 1) % (u64::from(y1 - y0) + 1)
}

/// Where it lies along z.
fn along_z(whole: &Extent, leaf: u64) -> u64
    requires { leaf < count_of whole.now }
    ensures { result ≡ z_of whole.now leaf }
{
    let [x0, x1, y0, y1, z0, _] = whole.bounds();
    u64::from(z0) + leaf / (u64::from(x1 - x0) + 1) / (u64::from(y1 - y0) + 1)
}
