//! A pair of an identifier and a version, with its print and a value.
ghost use Rattle.std.specs.Prelude.{◌≡◌, ◌+◌, ◌*◌, ◌/◌, ◌%◌, nat_lt};
ghost use Rattle.screen_index.specs.Pairs.{Rises, column_of, is_apart, rank, rank_of};

use chem_core::Print;

/// A print, the identifier and version that it is of, and a value.
#[derive(Drop)]
pub struct Screened<V> {
    pub id: u32,
    pub version: u32,
    /// The version before which it is known to be its identifier's latest; `u32::MAX` if no later version is known.
    pub until: u32,
    pub value: V,
    pub print: Print,
}

impl<V> Screened<V> {
    /// True if it is before a place, by identifier and then by version.
    pub fn is_before(&self, place: (u32, u32)) -> bool
        ensures { result ≡ nat_lt (rank_of self.now) (rank place.0 place.1) }
    {
        let (own, version) = (self.id, self.version);
        let (id, other) = place;
        own < id || own == id && version < other
    }

    /// The column of rows in which it is noted. Consecutive identifiers and versions are spread over the columns.
    pub fn column(&self) -> u8
        ensures { result ≡ column_of self.now }
    {
        column_at(self.id, self.version)
    }

    /// True if it is after a place.
    pub fn is_behind(&self, place: (u32, u32)) -> bool
        ensures { result ≡ nat_lt (rank place.0 place.1) (rank_of self.now) }
    {
        is_before(place, (self.id, self.version))
    }

    /// True if it is at none of these places.
    pub fn is_apart(&self, places: &[(u32, u32)]) -> bool
        requires { Rises places.now }
        ensures { result ≡ is_apart places.now self.now }
    {
        let own = (self.id, self.version);
        let place = places.partition_point(|place| is_before(*place, own));
        place == places.len() || is_before(own, places[place])
    }
}

// True if a place is before another.
fn is_before(place: (u32, u32), other: (u32, u32)) -> bool
    ensures { result ≡ nat_lt (rank place.0 place.1) (rank other.0 other.1) }
{
    place.0 < other.0 || place.0 == other.0 && place.1 < other.1
}

// The column of rows in which the pair of an identifier and a version is noted.
fn column_at(id: u32, version: u32) -> u8
    ensures { result ≡ (id * 2654435769 + version * 374761393) / 67108864 % 64 }
{
    let spread = u64::from(id) * 2_654_435_769 + u64::from(version) * 374_761_393;
    (spread / 67_108_864 % 64) as u8
}
