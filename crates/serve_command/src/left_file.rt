//! What becomes of a journal's file behind which nobody was served, or not to the end.

use crate::fault::ServeRefusal;

/// A journal's file behind which nobody was served, or not to the end.
#[derive(Drop)]
pub enum LeftFile<U: Drop, D: Drop> {
    /// It was not read to its end. Nothing was written.
    Unread(U),
    /// It was read to its end.
    Read(D),
}

/// Why nobody was served behind a journal's file, or not to the end, and the file.
#[derive(Drop)]
pub struct UnservedFile<U: Drop, D: Drop> {
    pub refusal: ServeRefusal,
    pub file: LeftFile<U, D>,
}

/// The same behind a journal's file, and what became of what a crash had torn of it.
#[derive(Drop)]
pub struct UnservedSource<U: Drop, D: Drop, T: Drop> {
    pub refusal: ServeRefusal,
    pub file: LeftFile<U, D>,
    /// The evidence that what a crash had torn was kept; without it the file is as it was.
    pub torn: Option<T>,
}
