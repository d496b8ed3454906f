//! The table of the electrons that an atom gives to an aromatic ring, this project's own profile. At most one row fits
//! an atom.
ghost use Rattle.std.specs.Prelude.{◌≡◌, ◌<◌, ℕ, length, pos, slice_index_or, true};
ghost use Rattle.std.specs.List.{find};
ghost use Rattle.aromatic.specs.declared.environment.Environment.{Environment};
ghost use Rattle.aromatic.specs.declared.table.Row.{Row};
ghost use Rattle.aromatic.specs.Electrons.{by_ring_double, candidate_row, fits, has_connected, has_doubles, has_number, row_of, rows};

use self::{Doubles as D, Family as F};
use crate::environment::Environment;

/// Elements that share a row.
#[derive(Clone, Copy, Debug, PartialEq, Eq)]
pub enum Family {
    Boron,
    Carbon,
    Nitrogen,
    NitrogenOrPhosphorus,
    /// N, P and As.
    NitrogenGroup,
    /// O, S and Se.
    OxygenGroup,
}

/// The double bonds of an atom.
#[derive(Clone, Copy, Debug, PartialEq, Eq)]
pub enum Doubles {
    Absent,
    /// One, in a ring.
    Ring,
    /// Two: one in a ring, and one outside rings, to O.
    RingAndOxygen,
    /// One, outside rings, to O.
    Oxygen,
    /// One, outside rings, to O, N or S.
    Hetero,
}

/// A row of the table.
#[derive(Clone, Copy, Debug, PartialEq, Eq)]
pub struct Row {
    pub family: Family,
    pub charge: i8,
    /// True if it asks for a symbol in lower case.
    pub lower: bool,
    pub doubles: Doubles,
    /// Neighbours and hydrogens, if it asks for a number of them.
    pub connected: Option<u8>,
    pub electrons: u8,
}

impl Row {
    /// True if the row is that of an atom.
    #[tactic(auto, unfolding(crate::specs::Electrons::fits))]
    pub fn fits(&self, environment: &Environment) -> bool
        ensures { result ≡ fits self.now environment.now }
    {
        has_number(self.family, environment.number)
            && self.charge == environment.charge
            && (!self.lower || environment.lower)
            && has_doubles(self.doubles, environment)
            && has_connected(self.connected, environment)
    }

    /// True if the row names a double bond in a ring.
    pub fn by_ring_double(self) -> bool
        ensures { result ≡ by_ring_double self }
    {
        match self.doubles {
            Doubles::Ring | Doubles::RingAndOxygen => true,
            Doubles::Absent | Doubles::Oxygen | Doubles::Hetero => false,
        }
    }
}

/// A law: at most one row fits an atom, so the order of the rows does not count.
pub fn one_row()
    ensures { (environment : Environment) (i j : ℕ) (d : Row) → i < length rows → j < length rows
        → fits (slice_index_or rows i d) environment ≡ true → fits (slice_index_or rows j d) environment ≡ true
        → i ≡ j }
{}

impl Environment {
    /// The row that it fits; `None` if the atom is not a candidate.
    pub fn row(&self) -> Option<Row>
        ensures { result ≡ candidate_row self.now }
    {
        if self.is_eligible() {
            row_of(self)
        } else {
            None
        }
    }
}

// The row that fits an atom, if one does.
fn row_of(environment: &Environment) -> Option<Row>
    ensures { result ≡ row_of environment.now }
{
    if environment.number == 6
        && environment.charge == 0
        && environment.ring_doubles == 0
        && environment.outer_doubles == 0
    {
        return plain_carbon_row(environment);
    }
    first_fit(table(), environment)
}

// The row of a carbon atom without charge and double bonds, as most are: one row alone may fit.
fn plain_carbon_row(environment: &Environment) -> Option<Row>
    requires number { environment.now.number ≡ 6 }
    requires charge { environment.now.charge ≡ pos 0 }
    requires inner { environment.now.ring_doubles ≡ 0 }
    requires outer { environment.now.outer_doubles ≡ 0 }
    ensures { result ≡ row_of environment.now }
{
    if PLAIN_CARBON.fits(environment) {
        Some(PLAIN_CARBON)
    } else {
        None
    }
}

fn has_number(family: Family, number: u8) -> bool
    ensures { result ≡ has_number family number }
{
    match family {
        Family::Boron => number == 5,
        Family::Carbon => number == 6,
        Family::Nitrogen => number == 7,
        Family::NitrogenOrPhosphorus => number == 7 || number == 15,
        Family::NitrogenGroup => number == 7 || number == 15 || number == 33,
        Family::OxygenGroup => number == 8 || number == 16 || number == 34,
    }
}

fn has_doubles(doubles: Doubles, environment: &Environment) -> bool
    ensures { result ≡ has_doubles doubles environment.now }
{
    match doubles {
        Doubles::Absent => environment.ring_doubles == 0 && environment.outer_doubles == 0,
        Doubles::Ring => environment.ring_doubles == 1 && environment.outer_doubles == 0,
        Doubles::RingAndOxygen => {
            environment.ring_doubles == 1
                && environment.outer_doubles == 1
                && environment.to_oxygen == 1
        }
        Doubles::Oxygen => {
            environment.ring_doubles == 0
                && environment.outer_doubles == 1
                && environment.to_oxygen == 1
        }
        Doubles::Hetero => {
            environment.ring_doubles == 0
                && environment.outer_doubles == 1
                && environment.to_hetero == 1
        }
    }
}

fn has_connected(connected: Option<u8>, environment: &Environment) -> bool
    ensures { result ≡ has_connected connected environment.now }
{
    match connected {
        None => true,
        Some(count) => usize::from(environment.neighbours) + usize::from(environment.hydrogens)
            == usize::from(count),
    }
}

fn first_fit(rows: &[Row], environment: &Environment) -> Option<Row>
    ensures { result ≡ find (λ row. fits row environment.now) rows.now }
{
    for row in rows {
        if row.fits(environment) {
            return Some(*row);
        }
    }
    None
}

fn table() -> &'static [Row]
    ensures { result.now ≡ rows }
{
    &ROWS
}

// Carbon without charge and double bonds, as most atoms of rings are.
const PLAIN_CARBON: Row = Row {
    family: Family::Carbon,
    charge: 0,
    lower: true,
    doubles: Doubles::Absent,
    connected: Some(3),
    electrons: 1,
};

#[rattlefmt::skip]
const ROWS: [Row; 20] = [
    Row { family: F::Carbon, charge: 0, lower: false, doubles: D::Ring, connected: None, electrons: 1 },
    Row { family: F::NitrogenGroup, charge: 0, lower: false, doubles: D::Ring, connected: None, electrons: 1 },
    Row { family: F::NitrogenGroup, charge: 1, lower: false, doubles: D::Ring, connected: None, electrons: 1 },
    Row { family: F::OxygenGroup, charge: 1, lower: false, doubles: D::Ring, connected: None, electrons: 1 },
    Row { family: F::Boron, charge: -1, lower: false, doubles: D::Ring, connected: None, electrons: 1 },
    Row { family: F::Nitrogen, charge: 0, lower: false, doubles: D::RingAndOxygen, connected: None, electrons: 1 },
    Row { family: F::Nitrogen, charge: 0, lower: true, doubles: D::Oxygen, connected: Some(3), electrons: 1 },
    Row { family: F::Carbon, charge: 0, lower: false, doubles: D::Hetero, connected: None, electrons: 0 },
    PLAIN_CARBON,
    Row { family: F::NitrogenGroup, charge: 0, lower: true, doubles: D::Absent, connected: Some(2), electrons: 1 },
    Row { family: F::NitrogenGroup, charge: 1, lower: true, doubles: D::Absent, connected: Some(3), electrons: 1 },
    Row { family: F::OxygenGroup, charge: 1, lower: true, doubles: D::Absent, connected: Some(2), electrons: 1 },
    Row { family: F::Boron, charge: 0, lower: true, doubles: D::Absent, connected: Some(2), electrons: 1 },
    Row { family: F::Boron, charge: -1, lower: true, doubles: D::Absent, connected: Some(3), electrons: 1 },
    Row { family: F::NitrogenGroup, charge: 0, lower: false, doubles: D::Absent, connected: Some(3), electrons: 2 },
    Row { family: F::NitrogenOrPhosphorus, charge: -1, lower: false, doubles: D::Absent, connected: Some(2), electrons: 2 },
    Row { family: F::OxygenGroup, charge: 0, lower: false, doubles: D::Absent, connected: Some(2), electrons: 2 },
    Row { family: F::Carbon, charge: -1, lower: false, doubles: D::Absent, connected: Some(3), electrons: 2 },
    Row { family: F::Carbon, charge: 1, lower: false, doubles: D::Absent, connected: Some(3), electrons: 0 },
    Row { family: F::Boron, charge: 0, lower: false, doubles: D::Absent, connected: Some(3), electrons: 0 },
];
