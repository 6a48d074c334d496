//! Laws of paths, proved of the definitions alone.

ghost use Rattle.mrc_files.specs.Paths.{EachPathIsInTwo, EachPartIsAnother};

/// A path is its folder with its name behind it, and a part file is another file than its own.
pub fn paths_and_parts()
    ensures two { EachPathIsInTwo }
    ensures another { EachPartIsAnother }
{}
