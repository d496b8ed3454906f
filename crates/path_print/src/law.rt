//! The screen law: a molecule in which a pattern embeds has the bits that the pattern needs.
ghost use Rattle.std.specs.Prelude.{◌≡◌, ◌≢◌, ℕ, ◌<◌, Bool, List, length, map, slice_get, slice_index, All, AllPairs, Some};
ghost use Rattle.chem_core.specs.declared.mol.Bond.{Bond};
ghost use Rattle.chem_core.specs.Molecule.{Molecule, IsMolecule};
ghost use Rattle.chem_core.specs.Bits.{HasBit};
ghost use Rattle.smarts_parse.specs.declared.pattern.AtomPrim.{AtomPrim};
ghost use Rattle.smarts_parse.specs.declared.pattern.BondPrim.{BondPrim};
ghost use Rattle.smarts_parse.specs.Pattern.{Term, GraphTerm, PatternTerm};
ghost use Rattle.smarts_parse.specs.Sound.{IsSoundPattern};
ghost use Rattle.smarts_parse.specs.Truth.{AtomTrue, BondTrue};
ghost use Rattle.smarts_parse.specs.Embedding.{IsEmbedding, PartsHold, Matches};
ghost use Rattle.path_print.specs.Path.{Family, View, label_of, IsPath, bit_of};
ghost use Rattle.path_print.specs.Implied.{implied, implied_byte};
ghost use Rattle.path_print.specs.Prints.{molecule_view, graph_view, kind_byte, IsPrint, IsNeed};

/// A law: if the pattern embeds in the molecule, the molecule's print has the bits of the pattern's need.
pub fn screen_law()
    ensures { (p : PatternTerm) (m : Molecule) (need print : List Bool)
        → IsMolecule m → IsNeed p need → IsPrint m print → Matches p m
        → (bit : ℕ) → HasBit need bit → HasBit print bit }
{}

/// A law: if an expression is true, the atom has the label that is implied, and the bond the byte.
pub fn implied_is_so()
    ensures atoms { (recs : List GraphTerm) (n : ℕ) (family : Family) (e : Term AtomPrim) (m : Molecule) (a : ℕ)
        (l : ℕ × ℕ) → AtomTrue (PartsHold recs m n) e m a → label_of family (implied e) ≡ Some l
        → (molecule_view m family).label a ≡ Some l }
    ensures bonds { (e : Term BondPrim) (m : Molecule) (b n : ℕ) → BondTrue e m b → implied_byte e ≡ Some n
        → (x : Bond) × (slice_get m.bonds b ≡ Some x) × (kind_byte x.kind ≡ n) }
{}

/// A law: an embedding carries a path of the pattern to a path of the molecule with the same strings.
pub fn path_is_carried()
    ensures { (recs : List GraphTerm) (n : ℕ) (family : Family) (g : GraphTerm) (m : Molecule)
        (image atoms there back : List ℕ) → IsMolecule m → IsEmbedding (PartsHold recs m n) g m image
        → IsPath (graph_view g family) atoms there back
        → IsPath (molecule_view m family) (map (slice_index image) atoms) there back }
{}

/// A law: the bit of a path is in the print.
pub fn path_bit_is_set()
    ensures { (m : Molecule) (print : List Bool) (family : Family) (atoms there back : List ℕ)
        → IsPrint m print → IsPath (molecule_view m family) atoms there back → HasBit print (bit_of there back) }
{}
