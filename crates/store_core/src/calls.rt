//! The calls by which programs change what stands under the names of a store. Clauses alone read them.

/// A call on a store that succeeded, or what was found in it. Tables and segments go by their numbers.
#[derive(Drop)]
pub enum StoreCall {
    /// The folder has nothing: a new store begins.
    FindNothing,
    /// These are the newest whole tables.
    FindNewest(u64),
    /// These tables are whole.
    FindTables(u64),
    /// This segment is there.
    FindSegment(u64),
    /// The last segment ends behind so many commits, and all of it is on the disk: nothing is written into it until the
    /// turn to the next one is over.
    EndSegment(u64, u64),
    /// Behind it a segment was made that begins behind so many commits, and has none.
    BeginSegment(u64, u64),
    /// The names in the store's folder were synced.
    SyncNames,
    /// The server goes on in that segment.
    GoOn(u64, u64),
    /// These tables were written, and have no name.
    WriteTables(u64),
    /// All of them is on the disk.
    SyncTables(u64),
    /// They got their name.
    NameTables(u64),
    /// The name of these tables was synced.
    SyncName(u64),
    /// Tables were dropped, since newer ones are there: these.
    DropTables(u64, u64),
    /// A segment was dropped, since newer tables are there: these.
    DropSegment(u64, u64),
    /// A call failed: it may have been made, or not.
    Fail,
}
