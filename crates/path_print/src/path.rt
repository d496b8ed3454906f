//! Paths under way: the atoms so far, and the text in each family of labels.
//!
//! A path grows from its middle atom at its two ends in turn. It goes on to one more atom and is turned, so that it
//! goes on at its other end next. So each path comes up once, and few are begun in vain.
ghost use Rattle.std.specs.Prelude.{◌≡◌, ◌<◌, ◌≤◌, ◌+◌, ◌⊎◌, ◌↔◌, ◌∷◌, length, take, reverse, Contains, None, IsTrue, IfSome, IfNone, option_map};
ghost use Rattle.chem_core.specs.Bits.{HasBit};
ghost use Rattle.path_print.specs.Path.{bit_of};
ghost use Rattle.path_print.specs.Texts.{longer_if, path_start, path_longer, IsBitHere, IsBitOf, IsCounted, IsSpent, SetsBits, last_of};

use crate::known::Known;
use crate::text::Text;
use chem_core::Print;
use std::marker::Model;

/// The most atoms of a path.
pub const MOST: usize = 5;

/// One atom may follow, and after it those of `W`.
pub struct More<W>(W);

/// A path under way. Contracts see its atoms and its texts.
#[derive(Drop)]
pub struct Path {
    atoms: [u16; 5],
    count: usize,
    exact: Option<Text>,
    plain: Option<Text>,
}

impl Model for Path {
    ghost use Rattle.std.specs.Prelude.{take};
    ghost use Rattle.path_print.specs.Texts.{PathTerm, IsPathInside};

    ghost Value = { PathTerm };

    ghost view = { λ p. record { atoms = take p.count p.atoms; exact = p.exact; plain = p.plain } };

    ghost invariant = { λ p. IsPathInside p.atoms p.count p.exact p.plain };
}

impl Path {
    /// The path of one atom.
    pub fn start(atom: u16, known: Known) -> Path
        ensures { result ≡ path_start atom known }
    {
        Path {
            atoms: [atom, 0, 0, 0, 0],
            count: 1,
            exact: known.exact().map(|label| Text::of(label)),
            plain: known.plain().map(|label| Text::of(label)),
        }
    }

    /// True if it has five atoms.
    #[inline(always)]
    pub fn is_full(&self) -> bool
        ensures { IsTrue result ↔ (length self.now.atoms ≡ MOST) }
    {
        self.count == MOST
    }

    /// The atom that it has come to.
    #[inline(always)]
    pub fn last(&self) -> u16
        ensures { result ≡ last_of self.now.atoms }
    {
        self.atoms[self.count - 1]
    }

    /// True if it is counted in this direction.
    #[inline(always)]
    fn is_counted(&self) -> bool
        ensures { IsTrue result ↔ IsCounted self.now.atoms }
    {
        let before = (self.count / 2).saturating_sub(1);
        self.atoms[before] <= self.atoms[self.count - 1 - before]
    }

    /// True if no longer path is counted that grows from it.
    #[inline(always)]
    pub fn is_spent(&self) -> bool
        ensures { IsTrue result ↔ IsSpent self.now.atoms }
    {
        let [first, second, third, fourth, _] = self.atoms;
        match self.count {
            3 => second < third && third < first,
            4 => second < fourth,
            _ => false,
        }
    }

    /// The path that goes on to an atom by a bond with this byte, turned. `None` if it is full, if the atom is in it,
    /// or if it has no text.
    #[inline(always)]
    pub fn longer(&self, atom: u16, byte: u8, known: Known) -> Option<Path>
        ensures value { IfSome result (λ p. p ≡ path_longer self.now atom byte known) }
        ensures new { IfSome result (λ _. Contains self.now.atoms atom → ⊥) }
        ensures room { IfSome result (λ _. length self.now.atoms < MOST) }
        ensures none { IfNone result ((length self.now.atoms ≡ MOST) ⊎ Contains self.now.atoms atom
            ⊎ ((path_longer self.now atom byte known).exact ≡ None)
            × ((path_longer self.now atom byte known).plain ≡ None)) }
    {
        if self.is_full() || self.has(atom) {
            return None;
        }
        let exact = longer_text(&self.exact, byte, known.exact());
        let plain = longer_text(&self.plain, byte, known.plain());
        if exact.is_none() && plain.is_none() {
            return None;
        }
        Some(Path {
            atoms: self.turned(atom),
            count: self.count + 1,
            exact,
            plain,
        })
    }

    // Its atoms and one more, turned.
    #[inline(always)]
    fn turned(&self, atom: u16) -> [u16; 5]
        requires { length self.now.atoms < MOST }
        ensures { take (length self.now.atoms + 1) result ≡ atom ∷ reverse self.now.atoms }
    {
        let [first, second, third, fourth, _] = self.atoms;
        match self.count {
            1 => [atom, first, 0, 0, 0],
            2 => [atom, second, first, 0, 0],
            3 => [atom, third, second, first, 0],
            _ => [atom, fourth, third, second, first],
        }
    }

    // True if the atom is in it. There is no slice and no loop, so that the compiler keeps the atoms in registers.
    #[inline(always)]
    fn has(&self, atom: u16) -> bool
        ensures { IsTrue result ↔ Contains self.now.atoms atom }
    {
        let [first, second, third, fourth, fifth] = self.atoms;
        if atom == first {
            return true;
        }
        if self.count == 1 {
            return false;
        }
        if atom == second {
            return true;
        }
        if self.count == 2 {
            return false;
        }
        if atom == third {
            return true;
        }
        if self.count == 3 {
            return false;
        }
        if atom == fourth {
            return true;
        }
        if self.count == 4 {
            return false;
        }
        atom == fifth
    }

    /// Sets the bit of each of its texts, if it is counted in this direction.
    #[inline(always)]
    pub fn mark(&self, print: &mut Print)
        ensures bits { SetsBits (IsBitHere self.now) print.old print.new }
    {
        if self.is_counted() {
            mark_text(&self.exact, print);
            mark_text(&self.plain, print);
        }
    }
}

#[inline(always)]
fn longer_text(text: &Option<Text>, byte: u8, label: Option<(u8, u8)>) -> Option<Text>
    requires { IfSome text.now (λ t. length t.there ≤ 11) }
    ensures { result ≡ longer_if text.now byte label }
{
    match (text, label) {
        (Some(text), Some(label)) => Some(text.longer(byte, label)),
        _ => None,
    }
}

#[inline(always)]
fn bit_of(text: &Option<Text>) -> Option<u16>
    ensures value { result ≡ option_map (λ t. bit_of t.there t.back) text.now }
    ensures small { IfSome result (λ bit. bit < 1024) }
{
    Some(text.as_ref()?.bit())
}

// Sets the bit of a text, if there is one.
#[inline(always)]
fn mark_text(text: &Option<Text>, print: &mut Print)
    ensures bits { SetsBits (IsBitOf text.now) print.old print.new }
{
    if let Some(bit) = bit_of(text) {
        print.set(bit);
    }
}
