//! Laws of molecules that are the same structure.
ghost use Rattle.std.specs.Prelude.{◌≡◌};
ghost use Rattle.chem_core.specs.Molecule.{Molecule, IsMolecule};
ghost use Rattle.exact_find.specs.declared.key.Key.{Key};
ghost use Rattle.exact_find.specs.Key.{IsKey};
ghost use Rattle.exact_find.specs.Same.{IsSame};

/// A law: molecules that are the same have equal keys.
pub fn same_have_equal_keys()
    ensures { (m n : Molecule) (k l : Key) → IsMolecule m → IsMolecule n → IsSame m n
        → IsKey m k → IsKey n l → k ≡ l }
{}

/// A law: a molecule is the same as itself.
pub fn same_is_reflexive()
    ensures { (m : Molecule) → IsMolecule m → IsSame m m }
{}

/// A law: if one molecule is the same as another, that one is the same as the first.
pub fn same_is_symmetric()
    ensures { (m n : Molecule) → IsMolecule m → IsMolecule n → IsSame m n → IsSame n m }
{}

/// A law: if a molecule is the same as a second, and that one as a third, the first is the same as the third.
pub fn same_is_transitive()
    ensures { (m n p : Molecule) → IsMolecule m → IsMolecule n → IsSame m n → IsSame n p → IsSame m p }
{}
