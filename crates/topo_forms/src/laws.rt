//! Laws of views, regions, dependencies and carried seals, each the contract of a function that does
//! nothing.
ghost use Rattle.topo_forms.specs.Laws.{ValidLaw, ModulesLaw, RegionsLaw, RegionOrder, OrderIsAcyclic, UpholdsLaw, CarriesLaw, UpholdsOnce, CarriesOnce};

/// The view of a topology without a fault is valid, and the modules that it was made with can be told
/// from it.
pub fn valid_law()
    ensures valid { ValidLaw }
    ensures modules { ModulesLaw }
{}

/// Each node of a graph is in one region, and regions stand in an order in which each comes after
/// those that feed it. In a valid topology a stream that counts goes to a later region, or stays
/// in a cyclic one, and no component in a cyclic region is Order.
pub fn regions_law()
    ensures numbered { RegionsLaw }
    ensures order { RegionOrder }
    ensures unordered { OrderIsAcyclic }
{}

/// A stream upholds a dependency, or carries a key, exactly where the rule says so of the streams
/// that come before it; and in a valid topology no other streams fit the rule.
pub fn carried_law()
    ensures upholds { UpholdsLaw }
    ensures carries { CarriesLaw }
    ensures upholds_once { UpholdsOnce }
    ensures carries_once { CarriesOnce }
{}
