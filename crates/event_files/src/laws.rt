//! Laws, each the contract of a function that does nothing.

ghost use Rattle.std.specs.Prelude.{◌≡◌, ◌<◌, ℕ, List, [], ◌∷◌, ◌++◌, length};
ghost use Rattle.event_files.specs.EventFiles.{lines_of};
ghost use Rattle.event_files.specs.Spelt.{AreLines, IsLine, bytes_of};

/// Lines that are written one after the other, each with a line feed after it, are read as those lines; so are they where the last
/// one, which is not empty, has no line feed after it.
pub fn written_lines()
    ensures ended { (lines : List (List ℕ)) → AreLines lines → lines_of (bytes_of lines) ≡ lines }
    ensures last { (lines : List (List ℕ)) (line : List ℕ) → AreLines lines → IsLine line → 0 < length line
        → lines_of (bytes_of lines ++ line) ≡ lines ++ line ∷ [] }
{}
