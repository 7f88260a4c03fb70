//! The totals of a question by group.
ghost use Rattle.std.specs.Prelude.{◌≡◌, vec_len};

/// For each group the number of its lines, and what they add to the measure and take away from it,
/// all modulo 2^64.
#[derive(Drop)]
pub struct Totals {
    pub counts: Vec<u64>,
    pub gains: Vec<u64>,
    pub losses: Vec<u64>,
    pub ghost all_gains: { vec_len gains ≡ vec_len counts },
    pub ghost all_losses: { vec_len losses ≡ vec_len counts },
}
