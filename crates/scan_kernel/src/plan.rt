//! What a search of a chunk looks at.

/// Dimensions, told by name.
#[derive(Clone, Copy)]
pub struct TestedDimensions {
    pub customers: bool,
    pub suppliers: bool,
    pub parts: bool,
    pub dates: bool,
}

/// What has to be looked at of a chunk's lines.
#[derive(Clone, Copy)]
pub struct ChunkPlan {
    /// The questions that may take a line of the chunk, a bit for each.
    pub active: u16,
    /// The other dimensions are settled: of these each line of the chunk passes all active questions.
    pub looks_at: TestedDimensions,
}
