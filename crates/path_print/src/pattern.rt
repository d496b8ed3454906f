//! The need of a pattern: the bits that every molecule has in which it embeds.
//!
//! The labels and bytes that the expressions imply are computed once: for each atom, and in a square for each two
//! atoms. So are the neighbours of each atom. Those that give a path the same texts are side by side, and one or two of
//! them are enough.
ghost use Rattle.std.specs.Prelude.{All, ◌≡◌, ◌≢◌, ◌⊎◌, ◌+◌, ◌*◌, ◌<◌, ◌≤◌, ℕ, true, Some, ◌∷◌, length, reverse, slice_index, slice_set, IfSome, IfNone, IsTrue};
ghost use Rattle.chem_core.specs.Bits.{HasBit};
ghost use Rattle.smarts_parse.specs.Pattern.{pattern_of, graph_of};
ghost use Rattle.smarts_parse.specs.Sound.{IsSoundPattern};
ghost use Rattle.path_print.specs.Prints.{graph_view, IsNeed};
ghost use Rattle.path_print.specs.Texts.{IsOn, IsOneLonger, IsBitFrom, IsMarked, IsSpent, NoneFrom, SetsBits, last_of};
ghost use Rattle.path_print.specs.Squares.{AreKnown, IsSimplePattern, IsSquare};
ghost use Rattle.path_print.specs.Sheets.{IsReady, views_of, IsAtom, IsStep, AreTwins};

use crate::implied::{implied, implied_byte};
use crate::known::Known;
use crate::path::{MOST, More, Path};
use crate::rows::{PLACES, SIDE, fill_rows};
use crate::step::{Step, is_again};
use chem_core::Print;
use smarts_parse::{Graph, Pattern};

/// The bits of the paths whose atoms and bonds all imply their labels and bytes.
pub fn need(pattern: &Pattern) -> Print
    requires { IsSoundPattern (pattern_of pattern.now) }
    ensures { IsNeed (pattern_of pattern.now) result }
{
    let graph = &pattern.top;
    let known = known_atoms(graph);
    let mut square = [0; PLACES];
    fill(&mut square, graph);
    let mut rows = [0; PLACES];
    let mut counts = [0; SIDE];
    fill_rows(&mut rows, &mut counts, &square, &known, graph.atoms.len());
    let sheet = Sheet {
        graph,
        known: &known,
        square: &square,
        rows: &rows,
        counts: &counts,
    };
    let mut print = Print::empty();
    for atom in 0..graph.atoms.len() {
        let path = Path::start(atom as u16, known[atom]);
        <More<More<LastTwo>>>::walk(&sheet, &path, &mut print);
    }
    print
}

// The facts that each atom implies.
fn known_atoms(graph: &Graph) -> [Known; SIDE]
    requires { length (graph_of graph.now).atoms ≤ SIDE }
    ensures known { AreKnown (graph_of graph.now) result }
    ensures size { length result ≡ SIDE }
{
    let mut known = [Known::NOTHING; SIDE];
    for (place, expr) in graph.atoms.iter().enumerate() {
        known[place] = implied(expr);
    }
    known
}

// Writes the byte that each bond implies, at its ends either way round, into a square of zeros.
fn fill(square: &mut [u8], graph: &Graph)
    requires pattern { IsSimplePattern SIDE (graph_of graph.now).bonds }
    requires zero { (i : ℕ) → slice_index square.old i ≡ 0 }
    requires size { length square.old ≡ PLACES }
    ensures square { IsSquare (graph_of graph.now).bonds square.new }
    ensures size { length square.new ≡ PLACES }
{
    for bond in &graph.bonds {
        if let Some(byte) = implied_byte(&bond.expr) {
            write(square, usize::from(bond.a), usize::from(bond.b), byte);
        }
    }
}

fn write(square: &mut [u8], a: usize, b: usize, byte: u8)
    requires size { length square.old ≡ PLACES }
    requires a { a < SIDE }
    requires b { b < SIDE }
    ensures { square.new ≡ slice_set (slice_set square.old (SIDE * a + b) byte) (SIDE * b + a) byte }
{
    square[SIDE * a + b] = byte;
    square[SIDE * b + a] = byte;
}

/// A pattern's graph and the facts that its expressions imply, as the walks read it.
#[derive(Clone, Copy)]
pub struct Sheet<'s> {
    pub graph: &'s Graph,
    /// The facts that each atom implies.
    pub known: &'s [Known],
    /// For two atoms the byte of the bond between them, and 0 if no byte is implied.
    pub square: &'s [u8],
    /// In each row of the square the neighbours of an atom, those that are reached by the same step side by side.
    pub rows: &'s [u8],
    /// The number of neighbours of each atom.
    pub counts: &'s [u16],
}

// The walk on from a path, one for each number of atoms that may still follow, as for molecules.
trait Walk {
    // the number of atoms that may follow
    ghost left: { ℕ };

    // Sets the bits of all paths that grow from this one.
    fn walk(sheet: &Sheet, path: &Path, print: &mut Print)
        requires sheet { IsReady sheet.now }
        requires path { IsOn (views_of sheet.now) path.now }
        requires atoms { All (IsAtom sheet.now) path.now.atoms }
        requires left { length path.now.atoms + left ≡ MOST }
        ensures { SetsBits (IsBitFrom (views_of sheet.now) path.now.atoms) print.old print.new };
}

impl<W: Walk> Walk for More<W> {
    ghost left = { W.left + 1 };

    #[inline(always)]
    fn walk(sheet: &Sheet, path: &Path, print: &mut Print) {
        if has_all(print) {
            return;
        }
        path.mark(print);
        if path.is_spent() {
            return;
        }
        let last = usize::from(path.last());
        for place in 0..sheet.counts[last] {
            let atom = sheet.rows[SIDE * last + usize::from(place)];
            if let Some(longer) = path_to(sheet, path, u16::from(atom)) {
                W::walk(sheet, &longer, print);
            }
        }
    }
}

// Two atoms may follow. If several steps give the path the same texts, two of them are enough: atoms that follow the
// others follow one of the two.
struct LastTwo;

impl Walk for LastTwo {
    ghost left = { 2 };

    #[inline(always)]
    fn walk(sheet: &Sheet, path: &Path, print: &mut Print) {
        path.mark(print);
        if path.is_spent() {
            return;
        }
        let last = usize::from(path.last());
        let mut twins = None;
        for place in 0..sheet.counts[last] {
            let atom = sheet.rows[SIDE * last + usize::from(place)];
            twins = mark_two(sheet, path, u16::from(atom), twins, print);
        }
    }
}

// One atom may follow. Of those that give the path the same texts one is enough.
struct Last;

impl Walk for Last {
    ghost left = { 1 };

    #[inline(always)]
    fn walk(sheet: &Sheet, path: &Path, print: &mut Print) {
        path.mark(print);
        if path.is_spent() {
            return;
        }
        let last = usize::from(path.last());
        let mut marked = None;
        for place in 0..sheet.counts[last] {
            let atom = sheet.rows[SIDE * last + usize::from(place)];
            marked = mark_end(sheet, path, u16::from(atom), marked, print);
        }
    }
}

// The step that was walked last, and the atom that it led to.
#[derive(Clone, Copy)]
pub struct Twins {
    pub step: Step,
    pub first: u16,
    /// True if the same step led to a second atom, and from it on to the first.
    pub both: bool,
}

// Sets the bits of the paths that go on to an atom and beyond, unless the step that was walked last gave the same.
// Returns the step that is walked now.
#[inline(always)]
fn mark_two(
    sheet: &Sheet,
    path: &Path,
    atom: u16,
    twins: Option<Twins>,
    print: &mut Print,
) -> Option<Twins>
    requires sheet { IsReady sheet.now }
    requires path { IsOn (views_of sheet.now) path.now }
    requires atoms { All (IsAtom sheet.now) path.now.atoms }
    requires atom { IsAtom sheet.now atom }
    requires room { length path.now.atoms + 2 ≡ MOST }
    requires twins { IfSome twins (λ t. AreTwins sheet.now path.now t print.old) }
    ensures bits { SetsBits (IsBitFrom (views_of sheet.now) (atom ∷ reverse path.now.atoms)) print.old print.new }
    ensures twins { IfSome result (λ t. AreTwins sheet.now path.now t print.new) }
{
    let step = match step_to(sheet, path, atom) {
        Some(step) => step,
        None => return twins,
    };
    match twins_by(twins, step) {
        Some(pair) => Some(mark_twin(sheet, path, atom, pair, print)),
        None => match path.longer(atom, step.byte, step.known) {
            Some(longer) => {
                Last::walk(sheet, &longer, print);
                Some(Twins {
                    step,
                    first: atom,
                    both: false,
                })
            }
            None => twins,
        },
    }
}

// The twins, if that is their step.
#[inline(always)]
fn twins_by(twins: Option<Twins>, step: Step) -> Option<Twins>
    ensures { IfSome result (λ t. (twins ≡ Some t) × (t.step ≡ step)) }
{
    let pair = twins?;
    if pair.step == step { Some(pair) } else { None }
}

// As `mark_two`, if the step is that of the twins: only paths from the atom on to the first twin can be new.
#[inline(always)]
fn mark_twin(sheet: &Sheet, path: &Path, atom: u16, twins: Twins, print: &mut Print) -> Twins
    requires sheet { IsReady sheet.now }
    requires path { IsOn (views_of sheet.now) path.now }
    requires atoms { All (IsAtom sheet.now) path.now.atoms }
    requires atom { IsAtom sheet.now atom }
    requires room { length path.now.atoms + 2 ≡ MOST }
    requires step { IsStep sheet.now path.now atom twins.step }
    requires twins { AreTwins sheet.now path.now twins print.old }
    ensures bits { SetsBits (IsBitFrom (views_of sheet.now) (atom ∷ reverse path.now.atoms)) print.old print.new }
    ensures twins { AreTwins sheet.now path.now result print.new }
{
    if is_marked(&twins, atom) {
        return twins;
    }
    match path.longer(atom, twins.step.byte, twins.step.known) {
        Some(longer) => {
            mark_to(sheet, &longer, twins.first, print);
            Twins {
                step: twins.step,
                first: twins.first,
                both: true,
            }
        }
        None => twins,
    }
}

// True if there are two twins, or the atom is the first.
#[inline(always)]
fn is_marked(twins: &Twins, atom: u16) -> bool
    ensures yes { IsTrue result → (twins.now.both ≡ true) ⊎ (atom ≡ twins.now.first) }
    ensures no { (IsTrue result → ⊥) → atom ≢ twins.now.first }
{
    if twins.both {
        true
    } else {
        atom == twins.first
    }
}

// Sets the bits of the path that goes on to an atom.
#[inline(always)]
fn mark_to(sheet: &Sheet, path: &Path, atom: u16, print: &mut Print)
    requires sheet { IsReady sheet.now }
    requires path { IsOn (views_of sheet.now) path.now }
    requires last { IsAtom sheet.now (last_of path.now.atoms) }
    requires atom { IsAtom sheet.now atom }
    requires room { length path.now.atoms + 1 ≡ MOST }
    ensures { SetsBits (IsBitFrom (views_of sheet.now) (atom ∷ reverse path.now.atoms)) print.old print.new }
{
    if let Some(whole) = path_to(sheet, path, atom) {
        whole.mark(print);
    }
}

// Sets the bits of the path that goes on to an atom, unless the step that was marked last gave the same. Returns the
// step that is marked now.
#[inline(always)]
fn mark_end(
    sheet: &Sheet,
    path: &Path,
    atom: u16,
    marked: Option<Step>,
    print: &mut Print,
) -> Option<Step>
    requires sheet { IsReady sheet.now }
    requires path { IsOn (views_of sheet.now) path.now }
    requires last { IsAtom sheet.now (last_of path.now.atoms) }
    requires atom { IsAtom sheet.now atom }
    requires room { length path.now.atoms + 1 ≡ MOST }
    requires counted { IsSpent path.now.atoms → ⊥ }
    requires marked { IfSome marked (λ s. IsMarked path.now s.byte s.known print.old) }
    ensures bits { SetsBits (IsBitFrom (views_of sheet.now) (atom ∷ reverse path.now.atoms)) print.old print.new }
    ensures marked { IfSome result (λ s. IsMarked path.now s.byte s.known print.new) }
{
    let step = match step_to(sheet, path, atom) {
        Some(step) => step,
        None => return marked,
    };
    if is_again(marked, step) {
        return marked;
    }
    match path.longer(atom, step.byte, step.known) {
        Some(longer) => {
            longer.mark(print);
            Some(step)
        }
        None => marked,
    }
}

// The path that goes on to an atom. `None` if no path does.
#[inline(always)]
fn path_to(sheet: &Sheet, path: &Path, atom: u16) -> Option<Path>
    requires sheet { IsReady sheet.now }
    requires path { IsOn (views_of sheet.now) path.now }
    requires last { IsAtom sheet.now (last_of path.now.atoms) }
    requires atom { IsAtom sheet.now atom }
    ensures some { IfSome result (IsOneLonger (views_of sheet.now) path.now atom) }
    ensures none { IfNone result (NoneFrom (views_of sheet.now) (atom ∷ reverse path.now.atoms)) }
{
    let step = step_to(sheet, path, atom)?;
    path.longer(atom, step.byte, step.known)
}

// The step to an atom. `None` if no bond to it has a byte.
#[inline(always)]
fn step_to(sheet: &Sheet, path: &Path, atom: u16) -> Option<Step>
    requires sheet { IsReady sheet.now }
    requires path { IsOn (views_of sheet.now) path.now }
    requires last { IsAtom sheet.now (last_of path.now.atoms) }
    requires atom { IsAtom sheet.now atom }
    ensures some { IfSome result (IsStep sheet.now path.now atom) }
    ensures none { IfNone result (NoneFrom (views_of sheet.now) (atom ∷ reverse path.now.atoms)) }
{
    let byte = sheet.square[SIDE * usize::from(path.last()) + usize::from(atom)];
    if byte == 0 {
        return None;
    }
    let known = sheet.known[usize::from(atom)];
    Some(Step { byte, known })
}

// True if all bits are set.
#[inline(always)]
fn has_all(print: &Print) -> bool
    ensures { IsTrue result → (bit : ℕ) → bit < 1024 → HasBit print.now bit }
{
    print.count() == 1024
}
