//! What the rows of a base hold by their types: they are such as their tables may have.
ghost use Rattle.ssb_trace.specs.Allowed.{AreTakenDimensions};

use ssb_base::Base;
use ssb_text::are_table_rows;

// The rows of a base's dimensions are such as the schema takes.
pub(crate) fn dimensions_are_taken(base: &Base)
    ensures { AreTakenDimensions base.now.dimensions }
{
    are_table_rows(base.customers().rows());
    are_table_rows(base.suppliers().rows());
    are_table_rows(base.parts().rows());
    are_table_rows(base.dates().rows());
}
