//! The components, ports and outputs that names name.
ghost use Rattle.std.specs.Prelude.{◌≡◌};
ghost use Rattle.std.specs.Option.{option_map};
ghost use Rattle.topo_forms.specs.Sites as spec;
ghost use Rattle.topo_types.specs.Code.Built.{site_seen, sites_seen};

use crate::view::sites::Site;
use blz_value::Str;
use topo_forms::{Side, Spot};

fn site_of<'s, 'a>(sites: &'s [Site<'a>], name: &Str) -> Option<&'s Site<'a>>
    ensures { option_map (λ s. site_seen s.now) result ≡ spec.site_of (sites_seen sites.now) name.now }
{
    for site in sites {
        if site.entry.name == *name {
            return Some(site);
        }
    }
    None
}

/// The first port or output of this name.
pub(crate) fn side_of<'s>(sides: &'s [Side], name: &Str) -> Option<&'s Side>
    ensures { option_map (λ s. s.now) result ≡ spec.side_of sides.now name.now }
{
    sides.iter().find(|side| side.name == *name)
}

/// The port that a spot names.
pub(crate) fn port_of<'s>(sites: &'s [Site<'_>], spot: &Spot) -> Option<&'s Side>
    ensures { option_map (λ s. s.now) result ≡ spec.port_of (sites_seen sites.now) spot.now }
{
    match site_of(sites, &spot.component) {
        Some(site) => side_of(site.ports.as_slice(), &spot.port),
        None => None,
    }
}

/// The output that a spot names.
pub(crate) fn output_of<'s>(sites: &'s [Site<'_>], spot: &Spot) -> Option<&'s Side>
    ensures { option_map (λ s. s.now) result ≡ spec.output_of (sites_seen sites.now) spot.now }
{
    match site_of(sites, &spot.component) {
        Some(site) => side_of(site.outputs.as_slice(), &spot.port),
        None => None,
    }
}
