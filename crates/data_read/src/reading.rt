//! The data that the bytes of a file give.
ghost use Rattle.std.specs.Prelude.{◌<◌, ◌≤◌, ◌-◌, ◌^◌, IfOk, length};
ghost use Rattle.data_read.specs.Code.Weight.{weight};
ghost use Rattle.data_read.specs.Form.{form_of};
ghost use Rattle.data_read.specs.Gives.{Gives};
ghost use Rattle.data_read.specs.Reading as spec;
ghost use Rattle.data_read.specs.Shape.{shapes_of};
ghost use Rattle.serde_json.specs.View.{view};
ghost use Rattle.topo_forms.specs.Data.{IsData, Holds};

use crate::entries::form_of;
use crate::fault::DataFault;
use crate::making::data_from;
use crate::shape::shapes_of;
use serde_json::Value as Json;
use std::alloc::Global;
use topo_forms::{Data, SourceLists, Valid};

fn value_of(alloc: Global, text: &[u8]) -> Result<Json, DataFault>
    ensures { Gives view result (spec.or_not_json (spec.value_of text.now)) }
{
    match Json::from_slice(alloc, text) {
        Ok(value) => Ok(value),
        Err(error) => {
            if error.is_memory() {
                return Err(DataFault::NoMemory);
            }
            Err(DataFault::NotJson)
        }
    }
}

// The value of the bytes, which weighs little.
fn small_value(alloc: Global, text: &[u8]) -> Result<Json, DataFault>
    requires { length text.now < 2 ^ 32 - 1 }
    ensures value { Gives view result (spec.or_not_json (spec.value_of text.now)) }
    ensures small { IfOk result (λ value. weight (view value) ≤ 2 ^ 32) }
{
    value_of(alloc, text)
}

fn sources_of(alloc: Global, valid: &Valid, top: &Json) -> Result<Vec<SourceLists>, DataFault>
    requires { weight (view top.now) ≤ 2 ^ 32 }
    ensures { Gives (λ sources. sources.items) result (form_of (shapes_of valid.now) (view top.now)) }
{
    let shapes = shapes_of(alloc, valid)?;
    form_of(alloc, &shapes, top)
}

// The rows and parts of each source, which are as wide as it is.
fn wide_sources(alloc: Global, valid: &Valid, top: &Json) -> Result<Vec<SourceLists>, DataFault>
    requires { weight (view top.now) ≤ 2 ^ 32 }
    ensures form { Gives (λ sources. sources.items) result (form_of (shapes_of valid.now) (view top.now)) }
    ensures fits { IfOk result (λ sources. IsData valid.now.view sources.items) }
{
    sources_of(alloc, valid, top)
}

/// The data that the bytes of a JSON file give, read against a topology.
///
/// NotJson comes where the bytes are no JSON text. DataForm comes at the first break of the form:
/// sources in file order, then names of no source in byte order. TooMany comes where rows and parts pass
/// 65,536, repeats included, with the source at which they do. FdBroken comes for the first dependency
/// that is broken, with the first record that breaks it beside one before, and the earliest of those. Of
/// several the first in this order is the answer. Takes a look-up by hash for each record, and at most two
/// more for each dependency and one for each attribute of dependencies.
#[tactic(auto, unfolding(crate::specs::Reading::data_of))]
pub fn read(alloc: Global, text: &[u8], valid: &Valid) -> Result<Data, DataFault>
    requires { length text.now < 2 ^ 32 - 1 }
    ensures reading { Gives (λ d. d) result (spec.data_of valid.now text.now) }
    ensures fits { IfOk result (IsData valid.now.view) }
    ensures holds { IfOk result (Holds valid.now.view) }
{
    let top = small_value(alloc, text)?;
    let sources = wide_sources(alloc, valid, &top)?;
    data_from(alloc, valid, sources)
}
