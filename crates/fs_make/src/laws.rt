//! What the images that are made mean. Nothing here is to be run: each clause is a theorem.

ghost use Rattle.fs_make.specs.MadeLaws.{MadeImagesAreDisks, MadeImagesHaveTheFiles};

/// Of files without a fault an image is made that is a disk.
pub fn made_images_are_disks()
    ensures { MadeImagesAreDisks }
{}

/// And that disk has those files in its root directory, and beside them nothing: the names and the bytes are the same and
/// stand in the same order, and every block in use is named.
pub fn made_images_have_the_files()
    ensures { MadeImagesHaveTheFiles }
{}
