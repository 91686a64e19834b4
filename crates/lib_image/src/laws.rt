//! What the tests by words amount to. Nothing here is to be run: each clause is a theorem.

ghost use Rattle.lib_image.specs.WordLaws.{HeaderWordsTell, SegmentWordsTell, ShortFilesFail};

/// Going through the words of an image's headers, spawn comes to where its file is known to be an image exactly where it passes the tests of one, and
/// else to where it is refused.
pub fn words_tell_images()
    ensures header { HeaderWordsTell }
    ensures short { ShortFilesFail }
    ensures segments { SegmentWordsTell }
{}
