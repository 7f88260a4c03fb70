//! What a crash leaves of files and folders, drawn by a seed.

use crate::calls::{FileCall, NameChange};
use crate::tree::Tree;
use journal_tests::{Dice, tear};
use std::alloc::{AllocError, Global};

// A name whose change is lost, and all later ones with it.
#[derive(Drop)]
struct LostName {
    folder: usize,
    name: String,
}

// What a crash leaves, as it is made call by call.
#[derive(Drop)]
struct Crash {
    left: Tree,
    lost: Vec<LostName>,
    dice: Dice,
}

impl Crash {
    // Whether an earlier change of one of these names is lost.
    fn has_lost(&self, folder: usize, changes: &[NameChange]) -> bool {
        self.lost.iter().any(|lost| {
            lost.folder == folder && changes.iter().any(|change| change.name == lost.name)
        })
    }

    // A change of names that is not on the disk: it may be there where the earlier ones of each name are.
    fn tear_names(&mut self, folder: usize, changes: &[NameChange]) -> Result<(), AllocError> {
        if self.dice.roll(2) == 0 && !self.has_lost(folder, changes) {
            return self.left.change_names(folder, changes);
        }
        for change in changes {
            let name = change.name.clone()?;
            self.lost.push(LostName { folder, name })?;
        }
        Ok(())
    }

    // A call whose change is not on the disk.
    fn tear_call(&mut self, call: &FileCall) -> Result<(), AllocError> {
        match call {
            FileCall::Names { folder, changes } => self.tear_names(*folder, changes),
            FileCall::Write { file, at, bytes } => match self.left.bytes_mut(*file) {
                Some(old) => tear(old, *at, bytes, &mut self.dice),
                None => Ok(()),
            },
            FileCall::Cut { file, len } => {
                let more = self.dice.roll(3);
                if let Some(old) = self.left.bytes_mut(*file) {
                    old.truncate(len.saturating_add(more));
                }
                Ok(())
            }
            FileCall::Sync { node: _ } => Ok(()),
        }
    }
}

/// What a crash may leave of files and folders that were all on the disk at first, once these calls have begun, which
/// have led to those that are there now.
pub(crate) fn left_by_crash(
    alloc: Global,
    first: &Tree,
    now: &Tree,
    calls: &[FileCall],
    seed: u64,
) -> Result<Tree, AllocError> {
    let mut crash = Crash {
        left: first.with_new_of(alloc, now)?,
        lost: Vec::new(alloc),
        dice: Dice::new(seed),
    };
    for number in 0..calls.len() {
        let call = &calls[number];
        if call.is_synced_by(&calls[number..]) {
            crash.left.take(call)?;
        } else {
            crash.tear_call(call)?;
        }
    }
    let Crash {
        left,
        lost: _,
        dice: _,
    } = crash;
    Ok(left)
}
