//! Why a scan may go over all places: each law is the contract of a function that does nothing.
ghost use Rattle.fact_columns.specs.Filters.{FreePlacesDropOut, LiveFactsThatPass};

/// A filter over all places with a test that a free place fails is a filter over the live ones.
pub fn free_places_drop_out()
    ensures { FreePlacesDropOut }
{}

/// The live facts that pass a test are those of the places that are live and whose fact passes.
pub fn live_facts_that_pass()
    ensures { LiveFactsThatPass }
{}
