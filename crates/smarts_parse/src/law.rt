//! The meaning of a pattern's recursive parts, without their numbers.

ghost use Rattle.std.specs.Prelude.{◌≡◌, ◌↔◌, ℕ, List, length, slice_get, Some};
ghost use Rattle.chem_core.specs.Molecule.{Molecule};
ghost use Rattle.smarts_parse.specs.Pattern.{GraphTerm, PatternTerm};
ghost use Rattle.smarts_parse.specs.Sound.{IsSoundPattern};
ghost use Rattle.smarts_parse.specs.Embedding.{IsEmbedding, PartsHold};

/// A law: a recursive part of a sound pattern holds at an atom exactly if it has an embedding with that atom first.
pub fn parts_hold()
    ensures { (p : PatternTerm) (m : Molecule) (k a : ℕ) (g : GraphTerm) → IsSoundPattern p
        → slice_get p.recs k ≡ Some g
        → PartsHold p.recs m (length p.recs) k a
        ↔ ((image : List ℕ) × IsEmbedding (PartsHold p.recs m (length p.recs)) g m image
        × (slice_get image 0 ≡ Some a)) }
{}
