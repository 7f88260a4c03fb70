//! How a cell is made.
ghost use Rattle.std.specs.Prelude.{◌≡◌, ◌<◌, ◌≤◌, ◌^◌, [], drop, vec_len, All, IfOk};
ghost use Rattle.left_right.specs.Sides.{view as view_of};
ghost use Rattle.row_store.specs.State.{StandsFor};
ghost use Rattle.twin_cell.specs.Rule.{newcomer};

use crate::ends::EndsCopies;
use crate::error::TwinError;
use crate::note::Note;
use crate::reader::TwinReader;
use crate::side::Side;
use crate::writer::{Copies, TwinWriter, publish_pending};
use left_right::writer::Writer;
use row_store::Replica;
use std::alloc::{AllocError, Global};
use std::sync::Wait;

// A step under the rule: the writer's seat is the first one.
fn new_copies<R: Replica + Drop>(
    alloc: Global,
    first: R,
    second: R,
    places: usize,
) -> Result<Copies<R>, AllocError>
    requires places { (0 < places) × (places < 2 ^ 32) }
    requires alike { R.state first ≡ R.state second }
    requires fresh { StandsFor (R.state first) [] }
    ensures shown { IfOk result (λ copies. copies.desk.shown.value.replica ≡ first) }
    ensures pending { IfOk result (λ copies. drop copies.behind copies.log.items ≡ []) }
    ensures place { IfOk result (λ copies. view_of copies.desk.place ≡ newcomer) }
{
    Writer::new(
        alloc,
        Side { replica: first },
        Side { replica: second },
        places,
    )
}

// Makes the writer. It publishes once, with nothing pending, so that its seat names the base.
fn new_writer<R: Replica + Drop, W: Wait + Drop>(
    alloc: Global,
    rt: W,
    first: R,
    second: R,
    places: usize,
) -> Result<TwinWriter<R, W>, AllocError>
    requires places { (0 < places) × (places < 2 ^ 32) }
    requires alike { R.state first ≡ R.state second }
    requires fresh { StandsFor (R.state first) [] }
    ensures { IfOk result (λ writer. writer ≡ record { base = (R.state first).base; published = []; pending = [] }) }
{
    let copies = new_copies(alloc, first, second, places)?;
    let (copies, published) = publish_pending(copies, &rt);
    if published.is_err() {
        drop(copies.take(&rt));
        return Err(AllocError);
    }
    Ok(TwinWriter {
        copies,
        taken: 0,
        rt,
    })
}

// So many readers, each of which knows what the writer has published.
fn new_readers<R: Replica + Drop, W: EndsCopies + Drop>(
    alloc: Global,
    writer: &mut TwinWriter<R, W>,
    count: usize,
) -> Result<Vec<TwinReader<R>>, TwinError>
    ensures kept { writer.new ≡ writer.old }
    ensures count { IfOk result (λ readers. vec_len readers ≡ count) }
    ensures known { IfOk result (λ readers. All (λ reader.
        (reader.base ≡ writer.old.base) × (reader.told ≡ writer.old.published)) readers.items) }
{
    let mut readers = Vec::new(alloc);
    for _ in 0..count {
        let Ok(note) = writer.tell() else {
            return Err(TwinError::NoReader);
        };
        let Note { seat } = note;
        if readers.push(TwinReader { seat }).is_err() {
            return Err(TwinError::OutOfMemory);
        }
    }
    Ok(readers)
}

/// Two copies of the replica, which has no commits, with a writer and so many readers. `NoReader` where no place is
/// free for one of them; then, and where memory runs out, `first` is dropped. Each reader and each note has a place of
/// its own, and there are twice as many places as readers.
///
/// It is not proved to return, since the writer publishes once, so that it knows the base, and `publish` may wait for
/// readers. Here there are none yet.
pub fn twin<R: Replica + Drop, W: Wait + Drop>(
    alloc: Global,
    rt: W,
    first: R,
    readers: usize,
) -> Result<(TwinWriter<R, W>, Vec<TwinReader<R>>), TwinError>
    requires readers { (0 < readers) × (readers ≤ 4) }
    requires fresh { StandsFor (R.state first) [] }
    ensures writer { IfOk result (λ made. made.0
        ≡ record { base = (R.state first).base; published = []; pending = [] }) }
    ensures count { IfOk result (λ made. vec_len made.1 ≡ readers) }
    ensures known { IfOk result (λ made. All (λ reader. (reader.base ≡ (R.state first).base) × (reader.told ≡ []))
        made.1.items) }
{
    let Ok(second) = first.copy() else {
        return Err(TwinError::OutOfMemory);
    };
    let Ok(mut writer) = new_writer(alloc, rt, first, second, 2 * readers) else {
        return Err(TwinError::OutOfMemory);
    };
    let list = new_readers(alloc, &mut writer, readers)?;
    Ok((writer, list))
}
