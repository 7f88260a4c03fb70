//! What holds of every file that grows: each law is the contract of a function that does nothing.
ghost use Rattle.std.specs.Prelude.{◌≡◌, ◌≤◌, ◌^◌, ◌++◌, List, ℕ, length};
ghost use Rattle.journal.specs.Groups.{recovered, blocks, IsAppending};
ghost use Rattle.journal.specs.Growing.{HasGrown, IsLater, IsReadOf, IsShut, Moment};

/// What a file stood for stands in it byte by byte from then on.
pub fn grown_file_begins_alike()
    ensures { (old new : List ℕ) → HasGrown old new
        → (rest : List ℕ) × (new ≡ blocks (recovered old) ++ rest) }
{}

/// A file that has grown twice has grown.
pub fn growth_goes_on()
    ensures { (first second third : List ℕ) → HasGrown first second → HasGrown second third
        → HasGrown first third }
{}

/// A read that takes its time stands for what the file stood for at some moment meanwhile: no less than at its
/// beginning, and no more than at its end.
pub fn slow_read_is_of_one_moment()
    ensures { (first bytes last : List ℕ) (moments : List Moment) → IsShut first → IsReadOf first moments bytes last
        → HasGrown first bytes × (HasGrown bytes last × IsShut bytes) }
{}

/// At each moment of an append a reader finds a file that has grown.
pub fn append_grows()
    ensures { (old group file : List ℕ) → length group ≤ 2 ^ 49 → IsAppending (recovered old) group file
        → IsLater old file }
{}
