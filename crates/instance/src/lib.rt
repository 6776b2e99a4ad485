//! The guarantee is about something: one ceremony under a toy digest function, computed from the definitions.
#![tactic(auto)]

ghost use Rattle.instance.specs.Instance.{Calls, Collisions, Witness, SpoiledRefused, Refusals};

/// Every call, accepted, comes to the bytes that an independent program gives.
pub fn calls_compute()
    ensures { Calls }
{}

/// Both kinds of collision are found and placed.
pub fn collisions_are_shown()
    ensures { Collisions }
{}

/// There are a run and a history as the guarantee asks for.
pub fn witness_exists()
    ensures { Witness }
{}

/// A record with one byte changed is refused as the independent program refuses it.
pub fn spoiled_records_are_refused()
    ensures { SpoiledRefused }
{}

/// The refusals of all calls, in their order.
pub fn refusals_are_ordered()
    ensures { Refusals }
{}
