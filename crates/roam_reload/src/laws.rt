//! Laws of configurations that are laid out.

ghost use Rattle.roam_reload.specs.Numbers.{LaidOutHoldsFile, LaidOutKeepsNumbers};

/// States that in a configuration that is laid out by another one each index is the same realm's, or the same peer's,
/// or its place is empty.
pub fn laid_out_keeps_numbers()
    ensures { LaidOutKeepsNumbers }
{}

/// States that the part of it which is here is what stands in the file.
pub fn laid_out_holds_file()
    ensures { LaidOutHoldsFile }
{}
