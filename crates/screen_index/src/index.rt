//! The blocks of an index, and the block of a pair among them.
ghost use Rattle.std.specs.Prelude.{◌≡◌, ◌+◌, ◌<◌, ◌≤◌, [], All, IfSome, IsSome, IsTrue, None, OnErr, OnOk, Some, drop, filter, length, option_copied, take, vec_capacity, vec_len};
ghost use Rattle.screen_index.specs.declared.entry.Screened.{Screened};
ghost use Rattle.screen_index.specs.Pairs.{AreBlocks, Ascend, IsNext, Lacks, Rises, is_apart, joined, new_pair, put_in, rank, rank_of, superseded};

use crate::block::{Block, ROOM};
use crate::entry::Screened;
use crate::hint::Hint;
use crate::want::Want;
use chem_core::Print;
use std::alloc::{AllocError, Global};
use std::marker::Model;

/// A map from identifiers and versions to prints, each with a value. Contracts see its pairs in ascending order, and
/// the print and value for which memory was taken.
#[derive(Drop)]
pub struct ScreenIndex<V> {
    alloc: Global,
    blocks: Vec<Block<V>>,
    spare: Option<Block<V>>,
    next: Option<(Print, V)>,
}

impl<V> Model for ScreenIndex<V> {
    ghost use Rattle.std.specs.Prelude.{◌≡◌, ◌<◌, [], IfSome, Some, vec_capacity, vec_len};
    ghost use Rattle.screen_index.specs.Pairs.{AreBlocks, IndexTerm, joined};

    ghost Value = { IndexTerm V };

    ghost view = { λ s. record { entries = joined s.blocks.items; reserved = s.next } };

    ghost invariant = { λ s. AreBlocks s.blocks.items × IfSome s.spare (λ b. b ≡ [])
        × IfSome s.next (λ _. (s.spare ≡ Some []) × (vec_len s.blocks < vec_capacity s.blocks)) };
}

impl<V: Drop> ScreenIndex<V> {
    /// An index without pairs. It takes no memory.
    pub fn new(alloc: Global) -> ScreenIndex<V>
        ensures entries { result.entries ≡ [] }
        ensures reserved { result.reserved ≡ None }
    {
        ScreenIndex {
            alloc,
            blocks: Vec::new(alloc),
            spare: None,
            next: None,
        }
    }

    /// Takes the memory for one more pair, with this print and value.
    pub fn reserve(&mut self, print: &Print, value: V) -> Result<(), AllocError>
        ensures entries { self.new.entries ≡ self.old.entries }
        ensures ok { OnOk result (self.new.reserved ≡ Some (print.now, value)) }
        ensures err { OnErr result (self.new.reserved ≡ self.old.reserved) }
    {
        let print = print.clone()?;
        self.blocks.reserve(1)?;
        if self.spare.is_none() {
            self.spare = Some(Block::new(self.alloc)?);
        }
        self.next = Some((print, value));
        Ok(())
    }

    /// Inserts a pair that is new, with the print and value that memory was taken for. It takes no memory.
    pub fn add(&mut self, id: u32, version: u32)
        requires reserved { IsSome self.old.reserved }
        requires absent { Lacks (rank id version) self.old.entries }
        ensures entries { IfSome self.old.reserved (λ r. self.new.entries
            ≡ put_in (new_pair id version r.0 r.1) self.old.entries) }
        ensures reserved { self.new.reserved ≡ None }
    {
        let (Some((print, value)), Some(spare)) = (self.next.take(), self.spare.take()) else {
            return;
        };
        self.spare = put(
            &mut self.blocks,
            spare,
            Screened {
                id,
                version,
                until: u32::MAX,
                value,
                print,
            },
        );
    }

    /// Notes, for the pair at a place if there is one, a version before which it is the latest. It stays the latest
    /// there if others are removed, and may be so later too. It takes no memory.
    pub fn supersede(&mut self, id: u32, version: u32, until: u32)
        ensures entries { self.new.entries ≡ superseded (rank id version) until self.old.entries }
        ensures reserved { self.new.reserved ≡ self.old.reserved }
    {
        let place = block_of(&self.blocks, (id, version));
        if place < self.blocks.len() {
            self.blocks[place].supersede((id, version), until);
        }
    }

    /// Removes the pairs at these places, which ascend. It takes no memory.
    pub fn drop_all(&mut self, places: &[(u32, u32)])
        requires { Rises places.now }
        ensures entries { self.new.entries ≡ filter (is_apart places.now) self.old.entries }
        ensures reserved { self.new.reserved ≡ self.old.reserved }
    {
        drop_all(&mut self.blocks, places);
    }

    /// The least pair from a place on whose print holds the wanted bits; `None` only if there is no such pair. The
    /// answer does not depend on the hint, which is then for the pairs after the answer. It takes no memory.
    pub fn next(&self, want: &Want<'_>, from: (u32, u32), hint: &mut Hint) -> Option<&Screened<V>>
        ensures next { IsNext want.now (rank from.0 from.1) self.now.entries (option_copied result) }
        ensures ascending { Ascend 0 self.now.entries }
    {
        for place in block_near(&self.blocks, from, hint.block)..self.blocks.len() {
            if let Some(found) = self.blocks[place].next(want, from, &mut hint.place) {
                hint.block = place;
                return Some(found);
            }
            hint.place = 0;
        }
        None
    }
}

// The number of blocks that end before a place.
fn block_of<V: Drop>(blocks: &Vec<Block<V>>, place: (u32, u32)) -> usize
    requires { AreBlocks blocks.now.items }
    ensures within { result ≤ length blocks.now.items }
    ensures before { All (λ x. rank_of x < rank place.0 place.1) (joined (take result blocks.now.items)) }
    ensures behind { All (λ x. rank place.0 place.1 < rank_of x) (joined (drop (result + 1) blocks.now.items)) }
{
    blocks
        .as_slice()
        .partition_point(|block| block.ends_before(place))
}

// As `block_of`, but the hint is tried first.
fn block_near<V: Drop>(blocks: &Vec<Block<V>>, place: (u32, u32), hint: usize) -> usize
    requires { AreBlocks blocks.now.items }
    ensures within { result ≤ length blocks.now.items }
    ensures before { All (λ x. rank_of x < rank place.0 place.1) (joined (take result blocks.now.items)) }
    ensures behind { All (λ x. rank place.0 place.1 < rank_of x) (joined (drop (result + 1) blocks.now.items)) }
{
    if is_block_of(blocks, hint, place) {
        hint
    } else {
        block_of(blocks, place)
    }
}

// True if the block at an index is the first that does not end before a place.
fn is_block_of<V: Drop>(blocks: &Vec<Block<V>>, index: usize, place: (u32, u32)) -> bool
    requires { AreBlocks blocks.now.items }
    ensures within { IsTrue result → index ≤ length blocks.now.items }
    ensures before { IsTrue result
        → All (λ x. rank_of x < rank place.0 place.1) (joined (take index blocks.now.items)) }
    ensures behind { IsTrue result
        → All (λ x. rank place.0 place.1 < rank_of x) (joined (drop (index + 1) blocks.now.items)) }
{
    if index >= blocks.len() || blocks[index].ends_before(place) {
        return false;
    }
    index == 0 || blocks[index - 1].ends_before(place)
}

// Inserts a pair, and returns the spare block if it was not needed.
fn put<V: Drop>(
    blocks: &mut Vec<Block<V>>,
    mut spare: Block<V>,
    entry: Screened<V>,
) -> Option<Block<V>>
    requires blocks { AreBlocks blocks.old.items }
    requires room { vec_len blocks.old < vec_capacity blocks.old }
    requires empty { spare ≡ [] }
    requires absent { Lacks (rank_of entry) (joined blocks.old.items) }
    ensures entries { joined blocks.new.items ≡ put_in entry (joined blocks.old.items) }
    ensures blocks { AreBlocks blocks.new.items }
    ensures spare { IfSome result (λ b. b ≡ []) }
{
    let len = blocks.len();
    if len == 0 {
        spare.insert(entry);
        blocks.push_reserved(spare);
        return None;
    }
    let place = block_of(blocks, (entry.id, entry.version)).min(len - 1);
    let block = &mut blocks[place];
    if block.len() < ROOM {
        block.insert(entry);
        return Some(spare);
    }
    block.insert_split(entry, &mut spare);
    let Ok(()) = blocks.insert(place + 1, spare) else {
        unreachable!()
    };
    None
}

// Removes the pairs at these places, which ascend.
fn drop_all<V: Drop>(blocks: &mut Vec<Block<V>>, places: &[(u32, u32)])
    requires blocks { AreBlocks blocks.old.items }
    requires rises { Rises places.now }
    ensures entries { joined blocks.new.items
        ≡ filter (is_apart places.now) (joined blocks.old.items) }
    ensures blocks { AreBlocks blocks.new.items }
    ensures len { vec_len blocks.new ≤ vec_len blocks.old }
    ensures capacity { vec_capacity blocks.new ≡ vec_capacity blocks.old }
{
    let mut done = 0;
    while done < places.len() {
        done += drop_first(blocks, &places[done..]);
    }
}

// Removes the pairs at the leading places that fall into one block, and returns the number of these places. A block
// that has few pairs left goes into the one before it or after it.
fn drop_first<V: Drop>(blocks: &mut Vec<Block<V>>, places: &[(u32, u32)]) -> usize
    requires blocks { AreBlocks blocks.old.items }
    requires rises { Rises places.now }
    requires some { 0 < length places.now }
    ensures some { 0 < result }
    ensures within { result ≤ length places.now }
    ensures entries { joined blocks.new.items
        ≡ filter (is_apart (take result places.now)) (joined blocks.old.items) }
    ensures blocks { AreBlocks blocks.new.items }
    ensures len { vec_len blocks.new ≤ vec_len blocks.old }
    ensures capacity { vec_capacity blocks.new ≡ vec_capacity blocks.old }
{
    let index = block_of(blocks, places[0]);
    if index == blocks.len() {
        return places.len();
    }
    let block = &mut blocks[index];
    let count = 1 + block.reach(&places[1..]);
    block.drop_all(&places[..count]);
    if block.len() == 0 {
        let _empty = blocks.remove(index);
        return count;
    }
    join_next(blocks, index);
    if index > 0 {
        join_next(blocks, index - 1);
    }
    count
}

// Moves the pairs of the next block into this one, if both together fill half a block at most.
fn join_next<V: Drop>(blocks: &mut Vec<Block<V>>, index: usize)
    requires blocks { AreBlocks blocks.old.items }
    requires within { index < vec_len blocks.old }
    ensures entries { joined blocks.new.items ≡ joined blocks.old.items }
    ensures blocks { AreBlocks blocks.new.items }
    ensures within { index < vec_len blocks.new }
    ensures len { vec_len blocks.new ≤ vec_len blocks.old }
    ensures capacity { vec_capacity blocks.new ≡ vec_capacity blocks.old }
{
    if blocks.len() <= index + 1 || ROOM / 2 < blocks[index].len() + blocks[index + 1].len() {
        return;
    }
    let mut next = blocks.remove(index + 1);
    let block = &mut blocks[index];
    block.append(&mut next);
}
