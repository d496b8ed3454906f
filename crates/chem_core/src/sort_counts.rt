//! Small counts of what a molecule has, by sorts of atoms and of bonds. A pattern that asks for more of a sort is
//! refused by one comparison, before anything else of the molecule is read.
ghost use Rattle.std.specs.Prelude.{◌≡◌, ◌↔◌, ◌<◌, ◌+◌, ℕ, All, count_by, length, min, slice_index, if◌then◌else◌, IsTrue};
ghost use Rattle.chem_core.specs.Sorts.{AreCounts, IsLess, Lacks, atom_sort, atom_sorts, bond_sort, bond_sorts, class_in, has_class, is_atom_of, is_bond_of, is_of_sort, kind_number};

use crate::mol::{Atom, Bond, BondKind};
use crate::symbols::class;

/// How many sorts of atoms there is room for, and how many of bonds.
pub const SORT_ROOM: usize = 8;

// Classes of atoms, a bit for each number modulo 32, and each aromatic or not.
const CARBON: u64 = 0x1000;

const AROMATIC_CARBON: u64 = 0x2000;

const NITROGEN: u64 = 0xc000;

const OXYGEN: u64 = 0x3_0000;

const HALOGEN: u64 = 0x0c0c_000c_00c0;

const OTHER: u64 = 0xffff_f3f0_fff0_0f3f;

const AROMATIC: u64 = 0xaaaa_aaaa_aaaa_aaaa;

const ANY: u64 = 0xffff_ffff_ffff_ffff;

/// Bonds of some kinds between atoms of some classes.
#[derive(Clone, Copy, Debug)]
pub struct BondSort {
    /// A bit for each kind: 1 single, 2 double, 4 triple, 8 quadruple, 16 aromatic.
    pub kinds: u64,
    /// The classes of one end, a bit for each.
    pub one: u64,
    /// The classes of the other end.
    pub other: u64,
}

// The classes of the atoms of each sort: aromatic carbons, other carbons, nitrogens, halogens, and atoms that are no
// carbon, nitrogen, oxygen, sulfur or halogen. The other places are free.
const ATOM_TABLE: [u64; SORT_ROOM] = [AROMATIC_CARBON, CARBON, NITROGEN, HALOGEN, OTHER, 0, 0, 0];

// The kinds and classes of each sort of bonds: between carbons that are not aromatic, double, aromatic, single between
// aromatic atoms, and double at an oxygen. The other places are free.
#[rattlefmt::skip]
const BOND_TABLE: [BondSort; SORT_ROOM] = [
    BondSort { kinds: 17, one: CARBON, other: CARBON },
    BondSort { kinds: 2, one: ANY, other: ANY },
    BondSort { kinds: 16, one: ANY, other: ANY },
    BondSort { kinds: 1, one: AROMATIC, other: AROMATIC },
    BondSort { kinds: 2, one: OXYGEN, other: ANY },
    BondSort { kinds: 0, one: 0, other: 0 },
    BondSort { kinds: 0, one: 0, other: 0 },
    BondSort { kinds: 0, one: 0, other: 0 },
];

/// The sorts of atoms, each by its classes. At free places it has no class.
pub fn atom_sorts() -> &'static [u64]
    ensures value { result.now ≡ atom_sorts }
    ensures count { length result.now ≡ SORT_ROOM }
{
    &ATOM_TABLE
}

/// The sorts of bonds. At free places it has no kind.
pub fn bond_sorts() -> &'static [BondSort]
    ensures value { result.now ≡ bond_sorts }
    ensures count { length result.now ≡ SORT_ROOM }
{
    &BOND_TABLE
}

/// For each sort how many atoms or bonds there are, 255 where they are more.
#[derive(Clone, Copy, Debug)]
pub struct SortCounts {
    pub atoms: [u8; SORT_ROOM],
    pub bonds: [u8; SORT_ROOM],
}

impl SortCounts {
    /// Those of a molecule of these atoms and bonds.
    pub(crate) fn count(atoms: &[Atom], bonds: &[Bond]) -> SortCounts
        requires { All (λ b. (b.a < length atoms.now) × (b.b < length atoms.now)) bonds.now }
        ensures { AreCounts atoms.now bonds.now result }
    {
        SortCounts {
            atoms: count_atoms(atoms),
            bonds: count_bonds(atoms, bonds),
        }
    }

    /// Whether one of the counts is less than the one that is asked.
    #[inline(always)]
    pub fn lacks(&self, asked: &SortCounts) -> bool
        ensures { IsTrue result ↔ Lacks self.now asked.now }
    {
        let atoms = is_less(&self.atoms, &asked.atoms);
        let bonds = is_less(&self.bonds, &asked.bonds);
        atoms | bonds
    }
}

impl BondSort {
    // Whether a bond of that kind between atoms of these classes is of the sort.
    #[inline(always)]
    fn has(self, kind: u16, a: u16, b: u16) -> bool
        requires kind { kind < 8 }
        requires a { a < 64 }
        requires b { b < 64 }
        ensures { result ≡ is_of_sort self kind a b }
    {
        let of_kind = has_bit(self.kinds, kind);
        let one_a = has_bit(self.one, a);
        let other_b = has_bit(self.other, b);
        let one_b = has_bit(self.one, b);
        let other_a = has_bit(self.other, a);
        of_kind & ((one_a & other_b) | (one_b & other_a))
    }
}

// How many atoms of each sort there are.
fn count_atoms(atoms: &[Atom]) -> [u8; SORT_ROOM]
    ensures { (k : ℕ) → k < SORT_ROOM → slice_index result k
        ≡ min 255 (count_by (is_atom_of k) atoms.now) }
{
    let mut counts = [0; SORT_ROOM];
    for atom in atoms {
        add_atom(&mut counts, class(u16::from(atom.number), atom.aromatic));
    }
    counts
}

// How many bonds of each sort there are.
fn count_bonds(atoms: &[Atom], bonds: &[Bond]) -> [u8; SORT_ROOM]
    requires { All (λ b. (b.a < length atoms.now) × (b.b < length atoms.now)) bonds.now }
    ensures { (k : ℕ) → k < SORT_ROOM → slice_index result k
        ≡ min 255 (count_by (is_bond_of k atoms.now) bonds.now) }
{
    let mut counts = [0; SORT_ROOM];
    for bond in bonds {
        let a = class_in(atoms, bond.a);
        let b = class_in(atoms, bond.b);
        add_bond(&mut counts, kind_number(bond.kind), a, b);
    }
    counts
}

// One more of each sort of atoms that has the class.
fn add_atom(counts: &mut [u8; SORT_ROOM], class: u16)
    requires { class < 64 }
    ensures { (k : ℕ) → k < SORT_ROOM → slice_index counts.new k
        ≡ min 255 (slice_index counts.old k + (if has_class (atom_sort k) class then 1 else 0)) }
{
    let sorts = atom_sorts();
    for k in 0..SORT_ROOM {
        let more = has_bit(sorts[k], class);
        let raised = raise(counts[k], more);
        counts[k] = raised;
    }
}

// One more of each sort of bonds that has the kind and the classes of its ends.
fn add_bond(counts: &mut [u8; SORT_ROOM], kind: u16, a: u16, b: u16)
    requires kind { kind < 8 }
    requires a { a < 64 }
    requires b { b < 64 }
    ensures { (k : ℕ) → k < SORT_ROOM → slice_index counts.new k
        ≡ min 255 (slice_index counts.old k + (if is_of_sort (bond_sort k) kind a b then 1 else 0)) }
{
    let sorts = bond_sorts();
    for k in 0..SORT_ROOM {
        let more = sorts[k].has(kind, a, b);
        let raised = raise(counts[k], more);
        counts[k] = raised;
    }
}

/// A count with one more, if there is one; 255 stays.
#[inline(always)]
pub fn raise(count: u8, more: bool) -> u8
    ensures { result ≡ min 255 (count + (if more then 1 else 0)) }
{
    let byte = u8::from(more);
    count.saturating_add(byte)
}

// The class of the atom at a place.
fn class_in(atoms: &[Atom], place: u16) -> u16
    requires { place < length atoms.now }
    ensures value { result ≡ class_in atoms.now place }
    ensures few { result < 64 }
{
    let atom = atoms[usize::from(place)];
    class(u16::from(atom.number), atom.aromatic)
}

// The number of a kind.
fn kind_number(kind: BondKind) -> u16
    ensures value { result ≡ kind_number kind }
    ensures few { result < 8 }
{
    match kind {
        BondKind::Single => 0,
        BondKind::Double => 1,
        BondKind::Triple => 2,
        BondKind::Quad => 3,
        BondKind::Aromatic => 4,
    }
}

// Whether the bit of the word is set.
#[inline(always)]
fn has_bit(word: u64, bit: u16) -> bool
    requires { bit < 64 }
    ensures { result ≡ has_class word bit }
{
    (word >> bit) & 1 == 1
}

// Whether one of the counts is less than that at its place in a second list.
#[inline(always)]
fn is_less(counts: &[u8; SORT_ROOM], asked: &[u8; SORT_ROOM]) -> bool
    ensures { IsTrue result ↔ IsLess counts.now asked.now }
{
    let mut less = false;
    for k in 0..SORT_ROOM {
        less |= counts[k] < asked[k];
    }
    less
}
