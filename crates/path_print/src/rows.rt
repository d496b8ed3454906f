//! The neighbours of each atom of a pattern, so that a step of a path looks at these alone.
ghost use Rattle.std.specs.Prelude.{◌≡◌, ◌+◌, ◌*◌, ◌<◌, ◌≤◌, ◌⊎◌, ℕ, length, take, slice_get, slice_index, Some, IsPermutation};
ghost use Rattle.path_print.specs.Squares.{rank_of, AreRows, AreEnds};

use crate::known::Known;

/// The most atoms of a pattern, and the side of the square.
pub const SIDE: usize = 256;

/// The places of the square.
pub const PLACES: usize = SIDE * SIDE;

// A number that neighbours with the same byte and the same label share, and then the neighbour.
type Ranked = (u16, u8);

/// Writes the neighbours of each atom into its row of a square, those that are reached by the same step side by side.
/// The counts are those of each row.
pub fn fill_rows(rows: &mut [u8], counts: &mut [u16], square: &[u8], known: &[Known], atoms: usize)
    requires few { atoms ≤ SIDE }
    requires room { length rows.old ≡ PLACES }
    requires counts_room { length counts.old ≡ SIDE }
    requires side { length square.now ≡ PLACES }
    requires known { length known.now ≡ SIDE }
    ensures rows { AreRows atoms square.now rows.new counts.new }
    ensures room { length rows.new ≡ PLACES }
    ensures counts_room { length counts.new ≡ SIDE }
{
    let mut ends = [(0, 0); SIDE];
    for atom in 0..atoms {
        let count = gather(&mut ends, square, known, atom, atoms);
        sort(&mut ends, count);
        write_row(rows, atom, &ends, count);
        counts[atom] = count as u16;
    }
}

// Gathers the neighbours of an atom. Returns their number.
fn gather(ends: &mut [Ranked], square: &[u8], known: &[Known], atom: usize, atoms: usize) -> usize
    requires few { atoms ≤ SIDE }
    requires atom { atom < atoms }
    requires room { length ends.old ≡ SIDE }
    requires side { length square.now ≡ PLACES }
    requires known { length known.now ≡ SIDE }
    ensures ends { AreEnds atoms square.now atom (take result ends.new) }
    ensures count { result ≤ atoms }
    ensures room { length ends.new ≡ SIDE }
{
    let mut count = 0;
    for to in 0..atoms {
        let byte = square[SIDE * atom + to];
        if byte != 0 {
            ends[count] = (rank(byte, known[to]), to as u8);
            count += 1;
        }
    }
    count
}

// A number that steps with the same byte and the same label share.
fn rank(byte: u8, known: Known) -> u16
    ensures { result ≡ rank_of byte known }
{
    let number = match known.number {
        Some(number) => u16::from(number),
        None => 255,
    };
    let aromatic = match known.aromatic {
        Some(aromatic) => u16::from(aromatic),
        None => 2,
    };
    15 * number + 5 * aromatic + u16::from(byte)
}

// Sorts the first `count` neighbours.
fn sort(ends: &mut [Ranked], count: usize)
    requires { count ≤ length ends.old }
    ensures same { IsPermutation (take count ends.old) (take count ends.new) }
    ensures room { length ends.new ≡ length ends.old }
{
    ends[..count].sort_unstable();
}

// Writes the first `count` neighbours into the row of an atom.
fn write_row(rows: &mut [u8], atom: usize, ends: &[Ranked], count: usize)
    requires atom { atom < SIDE }
    requires count { count ≤ SIDE }
    requires room { length rows.old ≡ PLACES }
    requires ends { length ends.now ≡ SIDE }
    ensures row { (k : ℕ) (end : ℕ × ℕ) → k < count → slice_get ends.now k ≡ Some end
        → slice_index rows.new (SIDE * atom + k) ≡ end.1 }
    ensures others { (i : ℕ) → (i < SIDE * atom) ⊎ (SIDE * atom + SIDE ≤ i)
        → slice_index rows.new i ≡ slice_index rows.old i }
    ensures room { length rows.new ≡ PLACES }
{
    for place in 0..count {
        rows[SIDE * atom + place] = ends[place].1;
    }
}
