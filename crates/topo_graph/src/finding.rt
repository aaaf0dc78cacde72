//! Finds the streams into ports, regions, dependencies and carried seals of a view, each once.
ghost use Rattle.std.specs.Prelude.{◌≡◌, ◌<◌, ◌≤◌, map, length, position, IfOk, IfSome};
ghost use Rattle.std.specs.List.{position_or_len};
ghost use Rattle.blz_value.specs.Regions as reach;
ghost use Rattle.topo_forms.specs.Found as spec;
ghost use Rattle.blz_value.specs.Graph as graph;
ghost use Rattle.topo_forms.specs.Kept.{view_kept};
ghost use Rattle.topo_forms.specs.Regions as regions_spec;
ghost use Rattle.blz_value.specs.NumberSets.{below};
ghost use Rattle.topo_forms.specs.View.{component_numbers};
ghost use Rattle.topo_graph.specs.Code.Lines as lines_spec;
ghost use Rattle.topo_graph.specs.Code.Ports as ports_spec;

use crate::dependencies::{all_holdings, all_upheld, all_usable};
use crate::feeders::all_feeders;
use crate::lines::{all_into, lines_of};
use crate::paths::paths_of;
use crate::ports::{all_rows, all_unions};
use blz_value::{Items, all_carried, is_cyclic, is_in, regions_in, sets_of};
use std::alloc::{AllocError, Global};
use topo_forms::{GraphFacts, Kept};

/// Regions, and which components are in a cyclic one.
#[derive(Drop)]
pub struct FoundRegions {
    /// The members of each region.
    pub regions: Vec<u64>,
    /// Whether each region is cyclic.
    pub cyclic: Vec<bool>,
    /// The number of the region of each component.
    pub numbers: Vec<u32>,
    /// Whether each component is in a cyclic region.
    pub cycles: Vec<bool>,
}

// Whether each of some regions is cyclic.
fn are_cyclic(
    alloc: Global,
    feeding: &[u64],
    count: usize,
    sets: &[u64],
) -> Result<Vec<bool>, AllocError>
    ensures { IfOk result (λ cyclic. cyclic.items ≡ map (reach.is_cyclic_by feeding.now count) sets.now) }
{
    sets.iter()
        .map(|set| is_cyclic(feeding, count, *set))
        .collect(alloc)
}

fn place_of(regions: &[u64], component: usize) -> Option<usize>
    ensures place { result ≡ position (graph.is_in component) regions.now }
    ensures within { IfSome result (λ place. place < length regions.now) }
{
    regions.iter().position(|set| is_in(component, *set))
}

// The number of the region of a component.
#[tactic(auto, using(crate::proofs::Positions::from_place))]
fn number_of(regions: &[u64], component: usize) -> u32
    requires { length regions.now ≤ 64 }
    ensures { result ≡ position_or_len (graph.is_in component) regions.now }
{
    place_of(regions, component).unwrap_or(regions.len()) as u32
}

#[tactic(auto, using(blz_value::proofs::Ranges::map_below_more))]
fn numbers_of(alloc: Global, regions: &[u64], count: usize) -> Result<Vec<u32>, AllocError>
    requires { length regions.now ≤ 64 }
    ensures { IfOk result (λ numbers. numbers.items ≡ map (λ c. position_or_len (graph.is_in c) regions.now) (below count)) }
{
    let mut numbers = Vec::new(alloc);
    for component in 0..count {
        numbers.push(number_of(regions, component))?;
    }
    Ok(numbers)
}

// The regions of a view, told the streams into each component.
#[tactic(auto, using(crate::proofs::FeedersTold::feeders_told, crate::proofs::RegionsFound::few_found, crate::proofs::RegionsFound::regions_found, crate::proofs::RegionsFound::cyclic_found, crate::proofs::RegionsFound::cycles_found, crate::proofs::RegionsFound::numbers_found))]
fn regions_with(alloc: Global, kept: &Kept, into: &[u64]) -> Result<FoundRegions, AllocError>
    requires ends { spec.HasEnds (view_kept kept.now) }
    requires into { into.now ≡ lines_spec.all_into (view_kept kept.now) }
    ensures regions { IfOk result (λ r. r.regions.items ≡ regions_spec.regions (view_kept kept.now)) }
    ensures cyclic { IfOk result (λ r. r.cyclic.items ≡ map (regions_spec.is_cyclic (view_kept kept.now)) (below (length (regions_spec.regions (view_kept kept.now))))) }
    ensures numbers { IfOk result (λ r. r.numbers.items ≡ map (regions_spec.region_of (view_kept kept.now)) (component_numbers (view_kept kept.now))) }
    ensures cycles { IfOk result (λ r. r.cycles.items ≡ map (regions_spec.is_in_cycle (view_kept kept.now)) (component_numbers (view_kept kept.now))) }
{
    let feeding = all_feeders(alloc, kept, into)?;
    let count = feeding.len();
    let sets = sets_of(alloc, &feeding)?;
    let regions = regions_in(alloc, &feeding, &sets)?;
    let cyclic = are_cyclic(alloc, &feeding, count, &regions)?;
    let cycles = are_cyclic(alloc, &feeding, count, &sets)?;
    let numbers = numbers_of(alloc, &regions, count)?;
    Ok(FoundRegions {
        regions,
        cyclic,
        numbers,
        cycles,
    })
}

/// The regions of a view. Costs a step for each component and each port to which a stream goes.
pub fn regions_of(alloc: Global, kept: &Kept) -> Result<FoundRegions, AllocError>
    requires { spec.HasEnds (view_kept kept.now) }
    ensures regions { IfOk result (λ r. r.regions.items ≡ regions_spec.regions (view_kept kept.now)) }
    ensures cyclic { IfOk result (λ r. r.cyclic.items ≡ map (regions_spec.is_cyclic (view_kept kept.now)) (below (length (regions_spec.regions (view_kept kept.now))))) }
    ensures numbers { IfOk result (λ r. r.numbers.items ≡ map (regions_spec.region_of (view_kept kept.now)) (component_numbers (view_kept kept.now))) }
    ensures cycles { IfOk result (λ r. r.cycles.items ≡ map (regions_spec.is_in_cycle (view_kept kept.now)) (component_numbers (view_kept kept.now))) }
{
    let into = all_into(alloc, kept)?;
    regions_with(alloc, kept, &into)
}

// What is found of a view, told its regions, the streams into each port and those into each
// component.
#[tactic(auto, using(crate::proofs::AllFound::upheld_found, crate::proofs::AllFound::usable_found, crate::proofs::AllFound::carried_found))]
fn found_from(
    alloc: Global,
    kept: &Kept,
    regions: FoundRegions,
    rows: Items<Items<u64>>,
    into: &[u64],
) -> Result<GraphFacts, AllocError>
    requires ends { spec.HasEnds (view_kept kept.now) }
    requires regions { regions.regions.items ≡ regions_spec.regions (view_kept kept.now) }
    requires cyclic { regions.cyclic.items ≡ map (regions_spec.is_cyclic (view_kept kept.now)) (below (length (regions_spec.regions (view_kept kept.now)))) }
    requires numbers { regions.numbers.items ≡ map (regions_spec.region_of (view_kept kept.now)) (component_numbers (view_kept kept.now)) }
    requires cycles { regions.cycles.items ≡ map (regions_spec.is_in_cycle (view_kept kept.now)) (component_numbers (view_kept kept.now)) }
    requires rows { rows ≡ ports_spec.all_rows (view_kept kept.now) }
    requires into { into.now ≡ lines_spec.all_into (view_kept kept.now) }
    ensures { IfOk result (λ found. found ≡ spec.found_of (view_kept kept.now)) }
{
    let lines = lines_of(alloc, kept, &regions.cycles, into)?;
    let held = all_holdings(alloc, &lines, into, kept.fds.as_slice())?;
    let upheld = all_upheld(alloc, &held)?;
    let usable = all_usable(alloc, &held)?;
    let paths = paths_of(alloc, kept, rows.as_slice(), &usable)?;
    let carried = all_carried(alloc, &paths)?;
    Ok(GraphFacts {
        into: rows,
        regions: Items::from_vec(regions.regions),
        cyclic: Items::from_vec(regions.cyclic),
        numbers: Items::from_vec(regions.numbers),
        upheld: Items::from_vec(upheld),
        usable: Items::from_vec(usable),
        carried: Items::from_vec(carried),
    })
}

/// What is found of a view, of which these are the regions. Costs a step for each component and
/// each port to which a stream goes.
pub fn found_with(
    alloc: Global,
    kept: &Kept,
    regions: FoundRegions,
) -> Result<GraphFacts, AllocError>
    requires ends { spec.HasEnds (view_kept kept.now) }
    requires regions { regions.regions.items ≡ regions_spec.regions (view_kept kept.now) }
    requires cyclic { regions.cyclic.items ≡ map (regions_spec.is_cyclic (view_kept kept.now)) (below (length (regions_spec.regions (view_kept kept.now)))) }
    requires numbers { regions.numbers.items ≡ map (regions_spec.region_of (view_kept kept.now)) (component_numbers (view_kept kept.now)) }
    requires cycles { regions.cycles.items ≡ map (regions_spec.is_in_cycle (view_kept kept.now)) (component_numbers (view_kept kept.now)) }
    ensures { IfOk result (λ found. found ≡ spec.found_of (view_kept kept.now)) }
{
    let into = all_into(alloc, kept)?;
    let rows = all_rows(alloc, kept)?;
    found_from(alloc, kept, regions, Items::from_vec(rows), &into)
}

/// What is found of a view, told the streams into each of its ports: no port to which a stream goes
/// is looked at again.
#[tactic(auto, using(crate::proofs::PortsFound::rows_found, crate::proofs::RowsInto::rows_into))]
pub(crate) fn found_again(
    alloc: Global,
    kept: &Kept,
    rows: Items<Items<u64>>,
) -> Result<GraphFacts, AllocError>
    requires ends { spec.HasEnds (view_kept kept.now) }
    requires ports { ports_spec.HasPorts (view_kept kept.now) }
    requires rows { rows ≡ map (spec.into_ports (view_kept kept.now)) (component_numbers (view_kept kept.now)) }
    ensures { IfOk result (λ found. found ≡ spec.found_of (view_kept kept.now)) }
{
    let into = all_unions(alloc, rows.as_slice())?;
    let regions = regions_with(alloc, kept, &into)?;
    found_from(alloc, kept, regions, rows, &into)
}
