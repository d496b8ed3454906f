//! A law of readings, which callers need without reading a text.
ghost use Rattle.std.specs.Prelude.{ℕ, ◌≤◌, List, All, Ok};
ghost use Rattle.chem_core.specs.Sketch.{SketchTerm};
ghost use Rattle.chem_core.specs.Sound.{IsSound};
ghost use Rattle.molfile_read.specs.Reading.{HasNoAromaticMark, IsReading};

/// A law: each sketch that is a reading of a text is sound. Each of its atoms has at most nine hydrogens, and nothing
/// in it is marked as aromatic.
pub fn readings_are_sound()
    ensures sound { (text : List ℕ) (s : SketchTerm) → IsReading text (Ok s) → IsSound s }
    ensures few_hydrogens { (text : List ℕ) (s : SketchTerm) → IsReading text (Ok s)
        → All (λ a. a.hydrogens ≤ 9) s.atoms }
    ensures no_aromatic_mark { (text : List ℕ) (s : SketchTerm) → IsReading text (Ok s)
        → HasNoAromaticMark s }
{}
