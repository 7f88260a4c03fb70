//! What the codes of a question's group columns add to the number of a group.
ghost use Rattle.std.specs.Prelude.{◌≡◌, IfOk, IfSome};
ghost use Rattle.shared_scan.specs.Parts.{parts_in, IsFew};

use ssb_schema::Items;
use std::alloc::{AllocError, Global};

/// How many groups a question may have and still be summed up with a number for each of them. The totals of a batch of
/// sixteen such questions then take 25 MB at most for each thread, and as much where they are joined.
pub const MOST_DENSE: u128 = 65_536;

/// By group column, what each code adds to the number of a group: in 32 bits where a number is kept for each group, and
/// in 128 where only the groups that lines have are kept.
#[derive(Drop)]
pub enum Parts {
    /// For a number for each group.
    Narrow(Vec<Items<u32>>),
    /// For the groups that lines have alone.
    Wide(Vec<Items<u128>>),
}

/// The same numbers in 32 bits, if they fit.
fn narrow(alloc: Global, part: &[u128]) -> Result<Option<Items<u32>>, AllocError>
    ensures { IfOk result (λ made. IfSome made (λ same. same ≡ part.now)) }
{
    let mut same = Vec::with_capacity(alloc, part.len())?;
    for number in part {
        let Ok(number) = u32::try_from(*number) else {
            return Ok(None);
        };
        same.push(number)?;
    }
    Ok(Some(Items::from_vec(same)))
}

/// The same parts in 32 bits, if they fit.
fn narrow_all(alloc: Global, parts: &[Items<u128>]) -> Result<Option<Vec<Items<u32>>>, AllocError>
    ensures { IfOk result (λ made. IfSome made (λ same. same.items ≡ parts.now)) }
{
    let mut same = Vec::with_capacity(alloc, parts.len())?;
    for part in parts {
        let Some(part) = narrow(alloc, part.as_slice())? else {
            return Ok(None);
        };
        same.push(part)?;
    }
    Ok(Some(same))
}

/// The parts, in 32 bits where there are few groups.
pub fn parts_for(alloc: Global, parts: Vec<Items<u128>>, size: u128) -> Result<Parts, AllocError>
    ensures parts { IfOk result (λ made. parts_in made ≡ parts.items) }
    ensures few { IfOk result (λ made. IsFew made size) }
{
    if size <= MOST_DENSE {
        if let Some(same) = narrow_all(alloc, &parts)? {
            return Ok(Parts::Narrow(same));
        }
    }
    Ok(Parts::Wide(parts))
}
