//! The modules of a topology, with copies in the place of a component's.
ghost use Rattle.std.specs.Prelude.{◌≡◌, ◌++◌, if◌then◌else◌, IfOk, OnOk};
ghost use Rattle.shard_route.specs.Routing as spec;
ghost use Rattle.topo_forms.specs.Sites as sites;

use bloom_forms::Checked;
use blz_value::Str;
use std::alloc::{AllocError, Global};
use topo_forms::{Body, ComponentEntry};

fn push_copies(
    alloc: Global,
    modules: &[Checked],
    into: &mut Vec<Checked>,
) -> Result<(), AllocError>
    ensures { OnOk result (into.new.items ≡ into.old.items ++ modules.now) }
{
    for checked in modules {
        into.push(checked.copy(alloc)?)?;
    }
    Ok(())
}

// Adds the module of a body, where the modules from its own on are these.
fn push_own_module(
    alloc: Global,
    body: &Body,
    modules: &[Checked],
    into: &mut Vec<Checked>,
) -> Result<(), AllocError>
    ensures { OnOk result (into.new.items ≡ into.old.items ++ spec.own_module body.now modules.now) }
{
    match body {
        Body::Module(_) => match modules {
            [own, ..] => Ok(into.push(own.copy(alloc)?)?),
            [] => Ok(()),
        },
        Body::Stock(_) | Body::None => Ok(()),
    }
}

// Adds the copies for the component, and for another its own module.
fn push_modules(
    alloc: Global,
    same: bool,
    copies: &[Checked],
    body: &Body,
    modules: &[Checked],
    into: &mut Vec<Checked>,
) -> Result<(), AllocError>
    ensures { OnOk result (into.new.items ≡ into.old.items ++ (if same then copies.now else spec.own_module body.now modules.now)) }
{
    if same {
        push_copies(alloc, copies, into)
    } else {
        push_own_module(alloc, body, modules, into)
    }
}

// The modules after that of a body.
fn modules_after<'a>(body: &Body, modules: &'a [Checked]) -> &'a [Checked]
    ensures { result.now ≡ sites.modules_after body.now modules.now }
{
    match body {
        Body::Module(_) => match modules {
            [_, others @ ..] => others,
            [] => modules,
        },
        Body::Stock(_) | Body::None => modules,
    }
}

/// The modules of the components with one, in their order, with the copies in place of the
/// component's.
pub fn sharded_modules(
    alloc: Global,
    name: &Str,
    copies: &[Checked],
    components: &[ComponentEntry],
    modules: &[Checked],
) -> Result<Vec<Checked>, AllocError>
    ensures { IfOk result (λ all. all.items ≡ spec.sharded_modules name.now copies.now components.now modules.now) }
{
    let mut all = Vec::new(alloc);
    let mut rest = modules;
    for component in components {
        let same = component.name.equals(name);
        push_modules(alloc, same, copies, &component.body, rest, &mut all)?;
        rest = modules_after(&component.body, rest);
    }
    Ok(all)
}
