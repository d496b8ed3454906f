//! The best of the offers.
ghost use Rattle.std.specs.Prelude.{◌≡◌, ◌*◌, ◌-◌, ◌≤◌, nat_le, true, false, length, slice_get, Some};
ghost use Rattle.std.specs.List.Sorted.{IsPartitionedBy, IsPartitionPoint};
ghost use Rattle.similar_find.specs.Board.{Offer, is_better};

use std::alloc::{AllocError, Global};
use std::marker::Model;

/// The most hits that may be asked for.
pub const MOST_HITS: u32 = 256;

// An identifier, the number of bits in both prints, and the number in at least one.
type Offer = (u32, u32, u32);

/// The best of the offers: those whose fraction of bits in both prints over bits in at least one is at least `p / q`.
/// The greater fraction is first, and of equal ones the smaller identifier; at most `k` are kept. Contracts see the
/// request, and the hits.
#[derive(Debug, Drop)]
pub struct Best {
    p: u32,
    q: u32,
    most: usize,
    // the best first
    hits: Vec<Offer>,
}

impl Model for Best {
    ghost use Rattle.std.specs.Prelude.{◌≤◌, vec_len, vec_capacity};
    ghost use Rattle.similar_find.specs.Board.{Board};

    ghost Value = { Board };

    ghost view = { λ b. record { p = b.p; q = b.q; most = b.most; hits = b.hits.items } };

    ghost invariant = { λ b. (vec_len b.hits ≤ b.most) × (b.most ≤ vec_capacity b.hits) };
}

impl Best {
    ghost use Rattle.std.specs.Prelude.{ℕ, ◌≡◌, ◌*◌, ◌<◌, ◌≤◌, [], ◌∷◌, false, List, IfOk};
    ghost use Rattle.similar_find.specs.Board.{AreOffers, IsBest};

    /// Nothing offered yet, with room for `k` hits of at least `p / q`. Fails only for want of memory.
    pub fn reserve(alloc: Global, p: u32, q: u32, k: u32) -> Result<Best, AllocError>
        requires whole { (1 ≤ q) × (q ≤ 1000) }
        requires part { p ≤ q }
        requires few { (1 ≤ k) × (k ≤ MOST_HITS) }
        ensures asked { IfOk result (λ b. b ≡ record { p = p; q = q; most = k; hits = [] }) }
        ensures none { IfOk result (λ b. IsBest [] b) }
    {
        let most = k as usize;
        let hits = Vec::with_capacity(alloc, most)?;
        Ok(Best { p, q, most, hits })
    }

    /// Offers an identifier with the bits in both prints and those in at least one. Takes no memory.
    pub fn offer(&mut self, id: u32, c: u32, u: u32)
        requires { (1 ≤ u) × (u ≤ 1024) × (c ≤ u) }
        ensures best { (offered : List Offer) → AreOffers ((id, c, u) ∷ offered)
            → IsBest offered self.old → IsBest ((id, c, u) ∷ offered) self.new }
        ensures p { self.new.p ≡ self.old.p }
        ensures q { self.new.q ≡ self.old.q }
        ensures most { self.new.most ≡ self.old.most }
    {
        let offer = (id, c, u);
        if !passes(self.p, self.q, &offer) {
            return;
        }
        let place = place_of(&self.hits, offer);
        if place == self.most {
            return;
        }
        self.hits.truncate(self.most - 1);
        let _ = self.hits.insert(place, offer);
    }

    /// False only if an offer under this identifier, of a fraction that is at most `c / u`, cannot change the hits. So
    /// it is if each of `k` hits is better. Then the hits are the best with it and without it. Takes no memory.
    pub fn may_take(&self, id: u32, c: u32, u: u32) -> bool
        requires { 1 ≤ u }
        ensures same { result ≡ false → (offered : List Offer) (d v : ℕ) → d * u ≤ c * v
            → AreOffers ((id, d, v) ∷ offered) → IsBest offered self.now
            → IsBest ((id, d, v) ∷ offered) self.now }
    {
        let most = (id, c, u);
        if !passes(self.p, self.q, &most) {
            return false;
        }
        self.hits.len() < self.most || is_before_last(&self.hits, &most)
    }

    /// The hits, the best first: the best of all that were offered, in whatever order.
    pub fn list(&self) -> &[(u32, u32, u32)]
        ensures { result.now ≡ self.now.hits }
    {
        &self.hits
    }
}

// True if the fraction is at least the requested one.
fn passes(p: u32, q: u32, offer: &Offer) -> bool
    ensures { result ≡ nat_le (p * offer.now.2) (offer.now.1 * q) }
{
    u64::from(p) * u64::from(offer.2) <= u64::from(offer.1) * u64::from(q)
}

// True if the first is better than the second: by the fraction, and of equal ones by the smaller identifier.
fn is_better(first: &Offer, second: &Offer) -> bool
    ensures { result ≡ is_better first.now second.now }
{
    let one = u64::from(first.1) * u64::from(second.2);
    let other = u64::from(second.1) * u64::from(first.2);
    other < one || (one == other && first.0 < second.0)
}

// True if the offer is better than the last hit, or there is no hit.
fn is_before_last(hits: &[Offer], offer: &Offer) -> bool
    ensures last { result ≡ false → (last : Offer)
        × (slice_get hits.now (length hits.now - 1) ≡ Some last)
        × (is_better offer.now last ≡ false) }
{
    match hits.last() {
        Some(last) => is_better(offer, last),
        None => true,
    }
}

// The number of hits that are better than the offer, if the better ones are first.
fn place_of(hits: &[Offer], offer: Offer) -> usize
    ensures bound { result ≤ length hits.now }
    ensures place { IsPartitionedBy (λ hit. is_better hit offer) hits.now
        → IsPartitionPoint (λ hit. is_better hit offer ≡ true) (λ hit. is_better hit offer ≡ false)
        hits.now result }
{
    hits.partition_point(|hit| is_better(hit, &offer))
}
