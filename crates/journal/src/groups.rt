//! The groups of a file. A group is a gate, a head and its bytes: `1 000000000000005`, a line feed, `hello`.
ghost use Rattle.std.specs.Prelude.{◌≡◌, ◌+◌, ◌*◌, ◌^◌, ◌≤◌, ◌++◌, [], ◌∷◌, length, IfOk, IfSome, OnOk, MatchOption, ◌≢◌};
ghost use Rattle.journal.specs.Groups.{digits, number_from, head, whole_length, recovered, blocks, behind, lists, IsFirst};

use std::alloc::{AllocError, Global};

/// An open gate, by which a group counts.
pub(crate) const OPEN: u8 = b'1';

/// A closed gate, which stands behind the last group.
pub const CLOSED: u8 = b'0';

/// The bytes of a gate and a head.
pub(crate) const HEAD: usize = 18;

fn push_digits(out: &mut Vec<u8>, number: usize, count: u8) -> Result<(), AllocError>
    ensures { OnOk result (out.new.items ≡ out.old.items ++ digits count number) }
{
    if count > 0 {
        push_digits(out, number / 10, count - 1)?;
        out.push(b'0' + (number % 10) as u8)?;
    }
    Ok(())
}

/// Writes the head of a group of this length, behind its gate.
pub(crate) fn push_head(out: &mut Vec<u8>, len: usize) -> Result<(), AllocError>
    ensures { OnOk result (out.new.items ≡ out.old.items ++ head len) }
{
    out.push(b' ')?;
    push_digits(out, len, 15)?;
    out.push(b'\n')?;
    Ok(())
}

fn number_of(digits: &[u8]) -> usize
    requires { length digits.now ≤ 15 }
    ensures value { result ≡ number_from 0 digits.now }
    ensures small { result ≤ 23 * 10 ^ 15 }
{
    let mut number = 0;
    for digit in digits {
        number = 10 * number + digit.saturating_sub(b'0') as usize;
    }
    number
}

fn whole_len(alloc: Global, file: &[u8]) -> Result<Option<usize>, AllocError>
    ensures value { IfOk result (λ len. len ≡ whole_length file.now) }
    ensures inside { IfOk result (λ len. IfSome len (λ n. 18 + n ≤ length file.now)) }
{
    if file.len() < HEAD {
        return Ok(None);
    }
    let len = number_of(&file[2..17]);
    let mut head = vec![in alloc; OPEN]?;
    push_head(&mut head, len)?;
    if file.starts_with(&head) && len <= file.len() - HEAD {
        Ok(Some(len))
    } else {
        Ok(None)
    }
}

/// The first group of a file, if it counts.
pub(crate) fn first_group(alloc: Global, file: &[u8]) -> Result<Option<Vec<u8>>, AllocError>
    ensures { IfOk result (λ found. MatchOption found (recovered file.now ≡ []) (λ group. IsFirst file.now group.items)) }
{
    match whole_len(alloc, file)? {
        None => Ok(None),
        Some(len) => Ok(Some(file[HEAD..HEAD + len].to_vec(alloc)?)),
    }
}
