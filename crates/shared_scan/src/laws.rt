//! What the scan rests on, as a law over the definitions.
ghost use Rattle.shared_scan.specs.CanScan.{PlacesCanBeSearched};
ghost use Rattle.shared_scan.specs.Laws.{TotalsAnswer};

/// Rows that are right for the totals of a question over all places are its answer over the live lines.
pub fn totals_answer()
    ensures { TotalsAnswer }
{}

/// Columns of places within the dimensions can be searched by masks that cover their rows.
pub fn places_can_be_searched()
    ensures { PlacesCanBeSearched }
{}
