//! Laws of hydrogens that are counted, and of suppression.
ghost use Rattle.std.specs.Prelude.{◌≡◌, ◌≤◌, map, All};
ghost use Rattle.std.specs.List.Sorted.{IsStrictlyIncreasing};
ghost use Rattle.chem_core.specs.Sketch.{SketchTerm};
ghost use Rattle.chem_core.specs.Sound.{IsSound};
ghost use Rattle.valence.specs.Filled.{filled};
ghost use Rattle.valence.specs.Suppressed.{suppressed};

/// A law: suppression keeps the written places in ascending order.
pub fn order_stays()
    ensures { (s : SketchTerm) → IsStrictlyIncreasing (map (λ a. a.written) s.atoms)
        → IsStrictlyIncreasing (map (λ a. a.written) (suppressed s).atoms) }
{}

/// A law: suppressing twice is suppressing once.
pub fn twice_is_once()
    ensures { (s : SketchTerm) → IsSound s → suppressed (suppressed s) ≡ suppressed s }
{}

/// A law: a sound sketch stays sound when its hydrogens are counted, and when hydrogen atoms become counts.
pub fn sound_stays()
    ensures filled { (s : SketchTerm) → IsSound s → IsSound (filled s) }
    ensures few { (s : SketchTerm) → IsSound s → All (λ a. a.hydrogens ≤ 9) s.atoms
        → All (λ a. a.hydrogens ≤ 15) (filled s).atoms }
    ensures suppressed { (s : SketchTerm) → IsSound s → All (λ a. a.hydrogens ≤ 15) s.atoms
        → IsSound (suppressed s) }
{}
