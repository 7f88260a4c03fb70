//! What a crash makes of a file, drawn by a seed.
ghost use Rattle.std.specs.Prelude.{◌<◌};

use std::alloc::AllocError;

/// Numbers that look random, the same for the same seed.
#[derive(Drop)]
pub struct Dice {
    state: u64,
}

impl Dice {
    /// Those of a seed.
    pub fn new(seed: u64) -> Dice {
        Dice { state: seed }
    }

    /// A number below this one.
    pub fn roll(&mut self, sides: usize) -> usize
        requires { 0 < sides }
        ensures { result < sides }
    {
        self.state = self
            .state
            .wrapping_mul(6364136223846793005)
            .wrapping_add(1442695040888963407);
        (self.state >> 33) as usize % sides
    }
}

/// Writes bytes over those of a file, and past its end.
pub fn write_over(file: &mut Vec<u8>, at: usize, bytes: &[u8]) -> Result<(), AllocError> {
    for (i, new) in bytes.iter().enumerate() {
        let place = at.saturating_add(i);
        if place < file.len() {
            file[place] = *new;
        } else {
            file.push(*new)?;
        }
    }
    Ok(())
}

/// The same of a write that a crash cuts short: of half of them a beginning is there, else all of it. In half of them
/// each byte is the old one, the new one, an open gate or any other, else the new one.
pub fn tear(
    file: &mut Vec<u8>,
    at: usize,
    bytes: &[u8],
    dice: &mut Dice,
) -> Result<(), AllocError> {
    let is_rough = dice.roll(2) == 0;
    let mut len = bytes.len();
    if dice.roll(2) == 0 {
        len = dice.roll(len.saturating_add(1));
    }
    for (i, new) in bytes.iter().take(len).enumerate() {
        let place = at.saturating_add(i);
        let byte = match dice.roll(8) {
            0 if is_rough => file.get(place).copied().unwrap_or(0),
            1 if is_rough => b'1',
            2 if is_rough => dice.roll(256) as u8,
            _ => *new,
        };
        write_over(file, place, &[byte])?;
    }
    Ok(())
}
