//! What the definitions of filters mean of an image by itself. A law is a function that does
//! nothing: its contract holds of the definitions alone.

ghost use Rattle.viz_image_ops.specs.Determined.{ImagesAreWholes, PartIsDetermined};
ghost use Rattle.viz_image_ops.specs.Determined.{SamplesAskWithin, WholeThreshold};

/// An image is the part of a whole image on its own extent. So the contract of a filter, which
/// speaks of whatever whole image its input is a part of, always speaks of one.
pub fn images_are_wholes()
    ensures whole { ImagesAreWholes }
{}

/// A part of a whole image is one image.
pub fn parts_are_determined()
    ensures one { PartIsDetermined }
{}

/// On the extent of its input a threshold has each number of the input, kept or 0.
pub fn whole_thresholds_keep_each()
    ensures each { WholeThreshold }
{}

/// What a part of a sample asks for lies in the whole that is sampled.
pub fn samples_ask_within_the_whole()
    ensures within { SamplesAskWithin }
{}
