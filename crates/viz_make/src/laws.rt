//! A law of made volumes. A function that calls it may rest on it.

ghost use Rattle.viz_make.specs.NarrowVolumes.{VolumesAreNarrow};

/// No number of the contour of a made volume at the level 128 is wide.
pub fn volumes_are_narrow()
    ensures narrow { VolumesAreNarrow }
{}
