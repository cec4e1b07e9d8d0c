//! Laws of the definition of an image. No code calls these functions.
ghost use Rattle.std.specs.Prelude.{◌≡◌};
ghost use Rattle.lo_image.specs.Image.{image};
ghost use Rattle.lo_opening.specs.Opening.{OpeningData, IsOpening};

/// Two openings have equal images only where they are equal. No code runs.
pub fn one_image()
    ensures { (d e : OpeningData) → IsOpening d → IsOpening e → image d ≡ image e → d ≡ e }
{}
