//! What the plans amount to. Nothing here is to be run: each clause is a theorem.

ghost use Rattle.lib_given.specs.FitLaws.{PageFitsWords};

/// Strings have room on the page exactly where they are words that a program may be given.
pub fn page_fits_words()
    ensures { PageFitsWords }
{}
