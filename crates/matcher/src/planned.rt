//! The steps of all graphs of a pattern, worked out once for searches in any number of molecules.
ghost use Rattle.std.specs.Prelude.{◌≡◌, ◌<◌, ◌≤◌, ◌+◌, length, take, vec_len};
ghost use Rattle.smarts_parse.specs.Pattern.{graph_of, pattern_of};
ghost use Rattle.smarts_parse.specs.Sound.{IsSoundPattern};
ghost use Rattle.matcher.specs.Partial.{IsSearchable};
ghost use Rattle.matcher.specs.Plan.{ArePartsPlanned, StandsAt};

use crate::plan::{EarlierBonds, NONE_EARLIER, plan};
use smarts_mean::MOST_PARTS;
use smarts_parse::{Graph, Pattern};
use std::alloc::{AllocError, Global};

/// The most atoms of a pattern, with those of its recursive parts.
pub const MOST_PLACES: usize = 256;

/// The steps of the graphs of a pattern.
#[derive(Debug, Drop)]
pub struct Plans {
    // those of the top graph, then those of each recursive part
    steps: Vec<EarlierBonds>,
    // the place of the first step of each part
    begins: Vec<usize>,
    ghost steps_room: { vec_len steps ≡ 256 },
    ghost begins_room: { vec_len begins ≡ 64 },
}

impl Plans {
    ghost use Rattle.std.specs.Prelude.{slice_get, Some};
    ghost use Rattle.smarts_parse.specs.Pattern.{GraphTerm};
    ghost use Rattle.matcher.specs.Plan.{IsReady};
    ghost use Rattle.matcher.specs.Prepared.{IsPlanned};

    /// Takes the memory.
    pub fn reserve(alloc: Global) -> Result<Plans, AllocError> {
        Ok(Plans {
            steps: vec![in alloc; NONE_EARLIER; MOST_PLACES]?,
            begins: vec![in alloc; 0; MOST_PARTS]?,
        })
    }

    /// Finds the steps of each graph of a pattern.
    pub fn plan(&mut self, pattern: &Pattern)
        requires { IsSoundPattern (pattern_of pattern.now) }
        ensures { IsPlanned (pattern_of pattern.now) self.new }
    {
        plan_all(pattern, &mut self.steps, &mut self.begins);
    }

    /// The steps of the top graph.
    pub fn top(&self, pattern: &Pattern) -> &[EarlierBonds]
        requires { IsPlanned (pattern_of pattern.now) self.now }
        ensures { IsReady (graph_of pattern.now.top) result.now }
    {
        self.steps_at(&pattern.top, 0)
    }

    /// The steps of a recursive part.
    pub fn part(&self, pattern: &Pattern, part: usize) -> &[EarlierBonds]
        requires planned { IsPlanned (pattern_of pattern.now) self.now }
        requires part { part < length pattern.now.recs.items }
        ensures { (g : GraphTerm) → slice_get (pattern_of pattern.now).recs part ≡ Some g
            → IsReady g result.now }
    {
        let begin = self.begins[part];
        self.steps_at(&pattern.recs[part], begin)
    }

    // The steps of a graph, from place `begin` on.
    fn steps_at(&self, graph: &Graph, begin: usize) -> &[EarlierBonds]
        requires { StandsAt (graph_of graph.now) self.now.steps.items begin }
        ensures { IsReady (graph_of graph.now) result.now }
    {
        &self.steps[begin..begin + graph.atoms.len()]
    }
}

// Finds the steps of the top graph and of each part in turn, and the place of the first step of each part.
fn plan_all(pattern: &Pattern, steps: &mut [EarlierBonds], begins: &mut [usize])
    requires sound { IsSoundPattern (pattern_of pattern.now) }
    requires room { length steps.old ≡ 256 }
    requires places { length begins.old ≡ 64 }
    ensures top { StandsAt (graph_of pattern.now.top) steps.new 0 }
    ensures parts { let recs = (pattern_of pattern.now).recs
        in ArePartsPlanned recs (length recs) steps.new begins.new }
{
    let mut end = plan_at(&pattern.top, steps, 0);
    for (part, graph) in pattern.recs.iter().enumerate() {
        begins[part] = end;
        end = plan_at(graph, steps, end);
    }
}

// Finds the steps of a graph, from place `begin` on. Returns their end.
fn plan_at(graph: &Graph, steps: &mut [EarlierBonds], begin: usize) -> usize
    requires searchable { IsSearchable (graph_of graph.now) }
    requires room { begin + length graph.now.atoms.items ≤ length steps.old }
    ensures end { result ≡ begin + length graph.now.atoms.items }
    ensures stands { StandsAt (graph_of graph.now) steps.new begin }
    ensures before { take begin steps.new ≡ take begin steps.old }
{
    let end = begin + graph.atoms.len();
    plan(graph, &mut steps[begin..end]);
    end
}
