//! What follows the live lines as they come and go.

use crate::scanned_line::ScannedLine;

/// What is told of each live line that comes, and of each that goes. It takes no memory, so it cannot fail. Contracts
/// see for which lines it is right.
pub trait Watch {
    ghost use Rattle.std.specs.Prelude.{List};
    ghost use Rattle.ssb_base.specs.Base.{Tables};
    ghost use Rattle.fact_columns.specs.declared.scanned_line.ScannedLine.{ScannedLine as PlainLine};
    ghost use Rattle.fact_columns.specs.Watching.{IsOneMore};

    /// Whether it is right for these live lines over a base.
    ghost follows: { Self → Tables → List PlainLine → Type 0 };

    /// A line comes.
    fn come(&mut self, line: &ScannedLine)
        ensures { (base : Tables) (fewer more : List PlainLine) → IsOneMore line.now fewer more
            → follows self.old base fewer → follows self.new base more };

    /// A line goes.
    fn go(&mut self, line: &ScannedLine)
        ensures { (base : Tables) (fewer more : List PlainLine) → IsOneMore line.now fewer more
            → follows self.old base more → follows self.new base fewer };
}

/// A watch that nothing is asked of.
#[derive(Drop)]
pub struct Nobody;

impl Watch for Nobody {
    ghost follows = { λ nobody base lines. Unit {0} };

    #[inline(always)]
    fn come(&mut self, line: &ScannedLine) {
        let _ = line;
    }

    #[inline(always)]
    fn go(&mut self, line: &ScannedLine) {
        let _ = line;
    }
}
