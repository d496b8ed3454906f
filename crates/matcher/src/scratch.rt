//! The memory that a search uses, and the data that depend on its pattern.
ghost use Rattle.std.specs.Prelude.{◌≤◌, vec_len};

use crate::candidates::Candidates;
use crate::choices::Choices;
use crate::follow::Trail;
use crate::grouping::Grouping;
use crate::narrow::Narrowing;
use crate::planned::MOST_PLACES;
use crate::prepare::Prepared;
use smarts_mean::RecTable;
use smarts_parse::Pattern;
use std::alloc::{AllocError, Global};

/// Memory for searches: room for every pattern and molecule within the limits. It is taken once, and may be used again
/// for any pattern and molecule.
#[derive(Debug, Drop)]
pub struct Scratch {
    pub(crate) prepared: Prepared,
    pub(crate) memory: Memory,
}

/// The memory that a search in a molecule writes.
#[derive(Debug, Drop)]
pub struct Memory {
    // the atoms to which the places of a graph are mapped
    pub image: Vec<u16>,
    pub table: RecTable,
    pub choices: Choices,
    pub candidates: Candidates,
    pub narrowing: Narrowing,
    pub grouping: Grouping,
    pub trail: Trail,
    ghost image_room: { 256 ≤ vec_len image },
}

impl Scratch {
    ghost use Rattle.smarts_parse.specs.Pattern.{pattern_of};
    ghost use Rattle.smarts_parse.specs.Sound.{IsSoundPattern};
    ghost use Rattle.matcher.specs.Prepared.{IsPreparedFor};

    /// Takes the memory.
    pub fn reserve(alloc: Global) -> Result<Scratch, AllocError> {
        Ok(Scratch {
            prepared: Prepared::reserve(alloc)?,
            memory: Memory::reserve(alloc)?,
        })
    }

    /// Works out the data that depend on the pattern alone, for searches in any number of molecules. Takes no memory.
    pub fn prepare(&mut self, pattern: &Pattern)
        requires { IsSoundPattern (pattern_of pattern.now) }
        ensures { IsPreparedFor (pattern_of pattern.now) self.new }
    {
        self.prepared.prepare(pattern);
        self.memory.narrowing.begin();
        self.memory.grouping.begin(pattern);
        self.memory.choices.begin(pattern);
    }
}

impl Memory {
    fn reserve(alloc: Global) -> Result<Memory, AllocError> {
        Ok(Memory {
            image: vec![in alloc; 0; MOST_PLACES]?,
            table: RecTable::reserve(alloc)?,
            choices: Choices::reserve(alloc)?,
            candidates: Candidates::reserve(alloc)?,
            narrowing: Narrowing::reserve(alloc)?,
            grouping: Grouping::reserve(alloc)?,
            trail: Trail::reserve(alloc)?,
        })
    }
}
