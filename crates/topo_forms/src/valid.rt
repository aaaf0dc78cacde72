//! Valid topologies, by numbers.
ghost use Rattle.std.specs.Prelude.{◌≡◌, ◌<◌, ◌≤◌, None, [], map, filter, length, is_none, slice_index_or, IfOk, IfSome};
ghost use Rattle.std.specs.Option.{option_map};
ghost use Rattle.topo_forms.specs.Carried as carried;
ghost use Rattle.topo_forms.specs.Dependencies as dependencies;
ghost use Rattle.topo_forms.specs.Regions as regions;
ghost use Rattle.topo_forms.specs.View as view;
ghost use Rattle.topo_forms.specs.Bounded.{IsBounded};
ghost use Rattle.topo_forms.specs.Found.{found_of};
ghost use Rattle.topo_forms.specs.Kept.{view_kept, port_kept, output_kept};
ghost use Rattle.topo_forms.specs.Valid.{IsValid, IsWhole};

use crate::graph_facts::GraphFacts;
use crate::index::{Index, number_in};
use crate::kept::{Kept, KeptOutput, KeptPort, KeptStream};
use crate::sets::set_at;
use crate::topology::Topology;
use bloom_forms::{Mode, Note, Program};
use blz_value::{Attrs, Faithful, Fd, Str, is_in};
use std::alloc::{AllocError, Global};
use std::marker::Model;

/// What a valid topology consists of: as it is written, by numbers, what is found of it, and its
/// names.
#[derive(Drop)]
struct Parts {
    topology: Topology,
    kept: Kept,
    found: GraphFacts,
    index: Index,
}

/// A topology without a fault, with its parts by their numbers. It is one pointer, so that a
/// function that holds one by value is proved as soon as one that borrows it.
#[derive(Drop)]
pub struct Valid {
    parts: Box<Parts>,
}

impl Model for Valid {
    ghost use Rattle.std.specs.Prelude.{◌≡◌};
    ghost use Rattle.std.specs.Coded.{codes};
    ghost use Rattle.bloom_forms.specs.Codes.{accepted_code};
    ghost use Rattle.topo_forms.specs.Valid.{Validated};

    ghost Value = { Validated };

    ghost coded = { Prim.hlevel (codes, accepted_code (Prim.hlevel codes) (Prim.hlevel codes)) };

    ghost use Rattle.topo_forms.specs.Bounded.{IsBounded};
    ghost use Rattle.topo_forms.specs.Found.{found_of};
    ghost use Rattle.topo_forms.specs.Code.Index.{IsIndex};
    ghost use Rattle.topo_forms.specs.Kept.{view_kept};
    ghost use Rattle.topo_forms.specs.Valid.{IsWhole, IsValid};

    ghost invariant = { λ t. IsWhole (record { topology = t.parts.value.topology; view = view_kept t.parts.value.kept }) × IsValid (view_kept t.parts.value.kept) × IsBounded (view_kept t.parts.value.kept) × (t.parts.value.found ≡ found_of (view_kept t.parts.value.kept)) × IsIndex (view_kept t.parts.value.kept) t.parts.value.index };

    ghost view = { λ t. record { topology = t.parts.value.topology; view = view_kept t.parts.value.kept } };
}

impl Valid {
    /// A topology without a fault, with its parts and what is found of them. The error is want of
    /// memory.
    pub fn new(
        alloc: Global,
        topology: Topology,
        kept: Kept,
        found: GraphFacts,
    ) -> Result<Valid, AllocError>
        requires whole { IsWhole (record { topology = topology; view = view_kept kept }) }
        requires valid { IsValid (view_kept kept) }
        requires bounded { IsBounded (view_kept kept) }
        requires found { found ≡ found_of (view_kept kept) }
        ensures { IfOk result (λ valid. valid ≡ record { topology = topology; view = view_kept kept }) }
    {
        let index = Index::of(alloc, &kept)?;
        let parts = Parts {
            topology,
            kept,
            found,
            index,
        };
        Ok(Valid {
            parts: Box::new(alloc, parts)?,
        })
    }

    /// The topology as it is written, and its parts by their numbers. What was found of them goes.
    pub fn into_parts(self) -> (Topology, Kept)
        ensures topology { result.0 ≡ self.topology }
        ensures kept { view_kept result.1 ≡ self.view }
    {
        let Valid { parts } = self;
        let Parts {
            topology,
            kept,
            found: _found,
            index: _index,
        } = Box::into_inner(parts);
        (topology, kept)
    }

    /// The topology as it is written, with the modes that it has.
    pub fn topology(&self) -> &Topology
        ensures { result.now ≡ self.now.topology }
    {
        &self.parts.topology
    }

    /// The parts of the topology by their numbers.
    pub fn kept(&self) -> &Kept
        ensures { view_kept result.now ≡ self.now.view }
    {
        &self.parts.kept
    }

    /// What is found of the view.
    pub fn found(&self) -> &GraphFacts
        ensures { result.now ≡ found_of self.now.view }
    {
        &self.parts.found
    }

    /// What holds of each valid topology; the call does nothing.
    pub fn known(&self)
        ensures { IsValid self.now.view }
    {
        let _ = &self.parts.topology;
    }

    /// That the topology is allowed and has no fault, and that the view is that of it; the call does
    /// nothing.
    pub fn whole(&self)
        ensures { IsWhole self.now }
    {
        let _ = &self.parts.topology;
    }

    /// How many parts there are at most; the call does nothing.
    pub fn bounded(&self)
        ensures { IsBounded self.now.view }
    {
        let _ = &self.parts.topology;
    }

    // ---- streams

    /// The number of streams, sources included.
    pub fn stream_count(&self) -> u32
        ensures { result ≡ length self.now.view.streams }
    {
        self.known();
        self.parts.kept.streams.as_slice().len() as u32
    }

    /// The name of a stream.
    pub fn stream_name(&self, stream: u32) -> &Str
        requires { stream < length self.now.view.streams }
        ensures { result.now ≡ (view.stream_at self.now.view stream).name }
    {
        &self.parts.kept.streams.as_slice()[stream as usize].name
    }

    /// The number of sources, which stand first among the streams. Takes a step for each stream.
    #[tactic(auto, using(crate::proofs::Views::KeptLemmas::counted_sources))]
    pub fn source_count(&self) -> u32
        ensures { result ≡ view.source_count self.now.view }
    {
        self.known();
        count_sources(self.parts.kept.streams.as_slice()) as u32
    }

    /// The component and the output from which a stream comes, None for a source.
    pub fn origin(&self, stream: u32) -> Option<(u32, u32)>
        requires { stream < length self.now.view.streams }
        ensures { result ≡ view.origin_of self.now.view stream }
    {
        self.parts.kept.streams.as_slice()[stream as usize].origin
    }

    // The attributes of the columns of a stream.
    fn columns(&self, stream: u32) -> &[Option<u8>]
        requires { stream < length self.now.view.streams }
        ensures { result.now ≡ (view.stream_at self.now.view stream).columns }
    {
        self.parts.kept.streams.as_slice()[stream as usize]
            .columns
            .as_slice()
    }

    /// How many columns a stream has.
    #[tactic(auto, using(crate::proofs::Views::InRange::few_columns))]
    pub fn stream_width(&self, stream: u32) -> u32
        requires { stream < length self.now.view.streams }
        ensures { result ≡ length (view.stream_at self.now.view stream).columns }
    {
        self.bounded();
        self.columns(stream).len() as u32
    }

    /// The attribute of a stream's column, None where its name is no attribute.
    pub fn stream_column(&self, stream: u32, place: u32) -> Option<u8>
        requires stream { stream < length self.now.view.streams }
        requires place { place < length (view.stream_at self.now.view stream).columns }
        ensures { result ≡ slice_index_or (view.stream_at self.now.view stream).columns place None }
    {
        self.columns(stream)[place as usize]
    }

    // The ports to which a stream goes.
    fn ends(&self, stream: u32) -> &[(u32, u32)]
        requires { stream < length self.now.view.streams }
        ensures { result.now ≡ view.ends_of self.now.view stream }
    {
        self.parts.kept.streams.as_slice()[stream as usize]
            .to
            .as_slice()
    }

    /// To how many ports a stream goes.
    #[tactic(auto, using(crate::proofs::Views::InRange::few_ends))]
    pub fn to_count(&self, stream: u32) -> u32
        requires { stream < length self.now.view.streams }
        ensures { result ≡ length (view.ends_of self.now.view stream) }
    {
        self.bounded();
        self.ends(stream).len() as u32
    }

    /// The component and the port of an entry of the list of ports to which a stream goes.
    pub fn to(&self, stream: u32, n: u32) -> (u32, u32)
        requires stream { stream < length self.now.view.streams }
        requires entry { n < length (view.ends_of self.now.view stream) }
        ensures { result ≡ slice_index_or (view.ends_of self.now.view stream) n (0, 0) }
    {
        self.ends(stream)[n as usize]
    }

    /// How many replicas send a stream.
    #[tactic(auto, using(crate::proofs::Views::InRange::origin_within))]
    pub fn stream_replicas(&self, stream: u32) -> u32
        requires { stream < length self.now.view.streams }
        ensures { result ≡ view.stream_replicas self.now.view stream }
    {
        self.known();
        match self.origin(stream) {
            None => 1,
            Some((component, _)) => self.replicas(component),
        }
    }

    // ---- components

    /// The number of components.
    pub fn component_count(&self) -> u32
        ensures { result ≡ length self.now.view.components }
    {
        self.known();
        self.parts.kept.components.as_slice().len() as u32
    }

    /// The name of a component.
    pub fn component_name(&self, component: u32) -> &Str
        requires { component < length self.now.view.components }
        ensures { result.now ≡ (view.component_at self.now.view component).name }
    {
        &self.parts.kept.components.as_slice()[component as usize].name
    }

    /// How many replicas a component has.
    pub fn replicas(&self, component: u32) -> u32
        requires { component < length self.now.view.components }
        ensures { result ≡ view.replicas_of self.now.view component }
    {
        self.parts.kept.components.as_slice()[component as usize].replicas
    }

    // The ports of a component.
    fn ports(&self, component: u32) -> &[KeptPort]
        requires { component < length self.now.view.components }
        ensures { map port_kept result.now ≡ (view.component_at self.now.view component).ports }
    {
        self.parts.kept.components.as_slice()[component as usize]
            .ports
            .as_slice()
    }

    /// How many ports a component has.
    #[tactic(auto, using(crate::proofs::Views::InRange::few_ports))]
    pub fn port_count(&self, component: u32) -> u32
        requires { component < length self.now.view.components }
        ensures { result ≡ length (view.component_at self.now.view component).ports }
    {
        self.bounded();
        self.ports(component).len() as u32
    }

    // The outputs of a component.
    fn outputs(&self, component: u32) -> &[KeptOutput]
        requires { component < length self.now.view.components }
        ensures { map output_kept result.now ≡ (view.component_at self.now.view component).outputs }
    {
        self.parts.kept.components.as_slice()[component as usize]
            .outputs
            .as_slice()
    }

    /// How many outputs a component has.
    #[tactic(auto, using(crate::proofs::Views::InRange::few_outputs))]
    pub fn output_count(&self, component: u32) -> u32
        requires { component < length self.now.view.components }
        ensures { result ≡ length (view.component_at self.now.view component).outputs }
    {
        self.bounded();
        self.outputs(component).len() as u32
    }

    /// The name of a port.
    pub fn port_name(&self, component: u32, port: u32) -> &Str
        requires component { component < length self.now.view.components }
        requires port { port < length (view.component_at self.now.view component).ports }
        ensures { result.now ≡ (view.port_at self.now.view component port).name }
    {
        &self.parts.kept.components.as_slice()[component as usize]
            .ports
            .as_slice()[port as usize]
            .name
    }

    /// The name of an output.
    pub fn output_name(&self, component: u32, output: u32) -> &Str
        requires component { component < length self.now.view.components }
        requires output { output < length (view.component_at self.now.view component).outputs }
        ensures { result.now ≡ (view.output_at self.now.view component output).name }
    {
        &self.parts.kept.components.as_slice()[component as usize]
            .outputs
            .as_slice()[output as usize]
            .name
    }

    /// How a component coordinates.
    pub fn mode(&self, component: u32) -> Mode
        requires { component < length self.now.view.components }
        ensures { result ≡ view.mode_of self.now.view component }
    {
        self.parts.kept.components.as_slice()[component as usize].mode
    }

    /// What a component runs, None where it has no body.
    pub fn program(&self, component: u32) -> Option<&Program>
        requires { component < length self.now.view.components }
        ensures { option_map (λ p. p.now) result ≡ view.program_of self.now.view component }
    {
        self.parts.kept.components.as_slice()[component as usize]
            .program
            .as_ref()
    }

    /// The attributes of a port's columns.
    pub fn port_columns(&self, component: u32, port: u32) -> &[u8]
        requires component { component < length self.now.view.components }
        requires port { port < length (view.component_at self.now.view component).ports }
        ensures { result.now ≡ (view.port_at self.now.view component port).columns }
    {
        self.parts.kept.components.as_slice()[component as usize]
            .ports
            .as_slice()[port as usize]
            .columns
            .as_slice()
    }

    /// The note of the path from a port to an output, None where there is none. A declared note
    /// counts in place of a derived one.
    #[tactic(auto, using(crate::proofs::Views::InRange::row_within, crate::proofs::Views::InRange::note_within))]
    pub fn note(&self, component: u32, port: u32, output: u32) -> Option<Note>
        requires component { component < length self.now.view.components }
        requires port { port < length (view.component_at self.now.view component).ports }
        requires output { output < length (view.component_at self.now.view component).outputs }
        ensures { result ≡ view.note_at self.now.view component port output }
    {
        self.known();
        self.parts.kept.components.as_slice()[component as usize]
            .notes
            .as_slice()[port as usize]
            .as_slice()[output as usize]
    }

    // ---- regions

    /// The number of the region of a component.
    #[tactic(auto, using(crate::proofs::Found::FoundAt::number_within, crate::proofs::Found::FoundAt::number_is))]
    pub fn region(&self, component: u32) -> u32
        requires { component < length self.now.view.components }
        ensures { result ≡ regions.region_of self.now.view component }
    {
        self.parts.found.numbers.as_slice()[component as usize]
    }

    /// Whether a region is cyclic.
    #[tactic(auto, using(crate::proofs::Found::FoundAt::cyclic_within, crate::proofs::Found::FoundAt::cyclic_is))]
    pub fn is_cyclic(&self, region: u32) -> bool
        requires { region < length (regions.regions self.now.view) }
        ensures { result ≡ regions.is_cyclic self.now.view region }
    {
        self.parts.found.cyclic.as_slice()[region as usize]
    }

    /// The number of regions.
    #[tactic(auto, using(crate::proofs::Regions::RegionSets::regions_found, crate::proofs::Regions::RegionSets::few_regions))]
    pub fn region_count(&self) -> u32
        ensures { result ≡ length (regions.regions self.now.view) }
    {
        self.known();
        self.parts.found.regions.as_slice().len() as u32
    }

    /// The components of a region, as a set of their numbers.
    #[tactic(auto, using(crate::proofs::Regions::RegionSets::regions_found))]
    pub fn region_members(&self, region: u32) -> Attrs
        requires { region < length (regions.regions self.now.view) }
        ensures { result.bits ≡ slice_index_or (regions.regions self.now.view) region 0 }
    {
        Attrs::from_bits(self.parts.found.regions.as_slice()[region as usize])
    }

    // ---- names

    /// The names of the attributes, in the order of their numbers.
    pub fn attr_names(&self) -> &[Str]
        ensures { result.now ≡ self.now.view.attributes }
    {
        self.parts.kept.attributes.names()
    }

    /// The name of an attribute.
    pub fn attr_name(&self, attr: u8) -> &Str
        requires { attr < length self.now.view.attributes }
        ensures { result.now ≡ view.attribute_name self.now.view attr }
    {
        &self.parts.kept.attributes.names()[attr as usize]
    }

    /// The number of the stream of this name, None where there is none.
    #[tactic(auto, using(crate::proofs::Found::FoundAt::stream_found))]
    pub fn find_stream(&self, name: &Str) -> Option<u32>
        ensures { result ≡ view.find_stream self.now.view name.now }
    {
        self.known();
        let number = number_in(&self.parts.index.streams, name)?;
        Some(number as u32)
    }

    /// The number of the component of this name, None where there is none.
    #[tactic(auto, using(crate::proofs::Found::FoundAt::component_found))]
    pub fn find_component(&self, name: &Str) -> Option<u32>
        ensures { result ≡ view.find_component self.now.view name.now }
    {
        self.known();
        let number = number_in(&self.parts.index.components, name)?;
        Some(number as u32)
    }

    /// The number of the port of this name, None where the component has none.
    #[tactic(auto, using(crate::proofs::Found::FoundAt::port_found, crate::proofs::Found::FoundAt::ports_within, crate::proofs::Found::FoundAt::port_place))]
    pub fn find_port(&self, component: u32, name: &Str) -> Option<u32>
        requires { component < length self.now.view.components }
        ensures { result ≡ view.find_port self.now.view component name.now }
    {
        self.bounded();
        let number = number_in(&self.parts.index.ports.as_slice()[component as usize], name)?;
        Some(number as u32)
    }

    // ---- dependencies

    /// How many dependencies there are.
    pub fn fd_count(&self) -> u32
        ensures { result ≡ length self.now.view.fds }
    {
        self.bounded();
        self.parts.kept.fds.as_slice().len() as u32
    }

    /// A dependency.
    pub fn fd(&self, fd: u32) -> Fd
        requires { fd < length self.now.view.fds }
        ensures first { result ≡ view.fd_at self.now.view fd }
    {
        self.parts.kept.fds.as_slice()[fd as usize]
    }
}

/// An equal valid topology of its own.
pub fn valid_copy(alloc: Global, valid: &Valid) -> Result<Valid, AllocError>
    ensures { IfOk result (λ copy. copy ≡ valid.now) }
{
    valid.whole();
    valid.known();
    valid.bounded();
    let topology = valid.topology().copied()?;
    let kept = valid.kept().copied()?;
    let found = valid.found().copied()?;
    Valid::new(alloc, topology, kept, found)
}

fn count_sources(streams: &[KeptStream]) -> usize
    ensures few { result ≤ length streams.now }
    ensures all { result ≡ length (filter (λ s. is_none s.origin) streams.now) }
{
    streams
        .iter()
        .filter(|stream| stream.origin.is_none())
        .count()
}

/// Whether a stream goes to a port, by one look-up.
#[tactic(auto, using(crate::proofs::Found::IntoPorts::goes_found))]
pub fn goes_to(valid: &Valid, component: u32, port: u32, stream: u32) -> bool
    requires { stream < length valid.now.view.streams }
    ensures { result ≡ view.goes_to valid.now.view component port stream }
{
    valid.known();
    let rows = valid.parts.found.into.as_slice();
    is_in(
        stream as usize,
        set_at(rows, component as usize, port as usize),
    )
}

/// Whether a stream upholds a dependency.
#[tactic(auto, using(crate::proofs::Found::FoundAt::upheld_within, crate::proofs::Found::FoundAt::upheld_is))]
pub fn upholds(valid: &Valid, stream: u32, fd: u32) -> bool
    requires stream { stream < length valid.now.view.streams }
    requires fd { fd < length valid.now.view.fds }
    ensures { result ≡ dependencies.upholds valid.now.view (view.fd_at valid.now.view fd) stream }
{
    is_in(
        stream as usize,
        valid.parts.found.upheld.as_slice()[fd as usize],
    )
}

/// Whether a dependency is usable at a component.
#[tactic(auto, using(crate::proofs::Found::FoundAt::usable_within, crate::proofs::Found::FoundAt::usable_is))]
pub fn usable(valid: &Valid, component: u32, fd: u32) -> bool
    requires component { component < length valid.now.view.components }
    requires fd { fd < length valid.now.view.fds }
    ensures { result ≡ dependencies.is_usable valid.now.view component (view.fd_at valid.now.view fd) }
{
    valid.known();
    is_in(
        component as usize,
        valid.parts.found.usable.as_slice()[fd as usize],
    )
}

/// The key that a stream carries, None where it carries none.
#[tactic(auto, using(crate::proofs::Found::FoundAt::carried_within, crate::proofs::Found::FoundAt::carried_is))]
pub fn carries(valid: &Valid, stream: u32) -> Option<Attrs>
    requires { stream < length valid.now.view.streams }
    ensures { result ≡ carried.carries valid.now.view stream }
{
    valid.parts.found.carried.as_slice()[stream as usize]
}
