//! The lines of one block.

ghost use Rattle.std.specs.Prelude.{IfOk, map};
ghost use Rattle.std.specs.List.{AllZip};
ghost use Rattle.ssb_schema.specs.Rows.{line_values};
ghost use Rattle.ssb_text.specs.Lines.{SpellsUntil};
ghost use Rattle.ssb_text.specs.Parsing.{IsParsed, IsParsedOk};

use crate::blocks::Block;
use crate::direct::read_directly;
use crate::error::LineFault;
use crate::records::{ReadError, next_record, record_reader};
use crate::row::TableRow;
use csv::ByteRecord;
use rayon::prelude::*;
use ssb_schema::Line;
use std::alloc::{AllocError, Global};
use std::thread::Threads;

/// The lines that the first records of a block spell, and the fault of the next record, if it has one. The bytes are kept
/// as room for a later block.
#[derive(Drop)]
pub(crate) struct Parsed {
    pub(crate) bytes: Vec<u8>,
    pub(crate) lines: Vec<Line>,
    pub(crate) fault: Option<LineFault>,
}

// Puts the lines of a block's records, up to its first fault, in place of those that were there, and tells that fault.
fn parse_records(
    alloc: Global,
    block: &[u8],
    lines: &mut Vec<Line>,
) -> Result<Option<LineFault>, ReadError>
    ensures { IfOk result (SpellsUntil block.now (map line_values lines.new.items)) }
{
    let mut reader = record_reader(alloc, block);
    let mut fields = ByteRecord::new(alloc);
    lines.clear();
    for _ in 0..u64::MAX {
        if !next_record(&mut reader, &mut fields)? {
            return Ok(None);
        }
        match Line::read(alloc, &fields) {
            Ok(line) => {
                if lines.push(line).is_err() {
                    return Err(ReadError::OutOfMemory);
                }
            }
            Err(fault) => return Ok(Some(fault)),
        }
    }
    Err(ReadError::Read)
}

// The same, read directly off the block's bytes where nothing in them is odd.
fn parse_lines(
    alloc: Global,
    block: &[u8],
    lines: &mut Vec<Line>,
) -> Result<Option<LineFault>, ReadError>
    ensures { IfOk result (SpellsUntil block.now (map line_values lines.new.items)) }
{
    if read_directly(alloc, block, lines)? {
        return Ok(None);
    }
    parse_records(alloc, block, lines)
}

/// The lines of a block, up to its first fault.
pub(crate) fn parse_block(alloc: Global, block: Block) -> Result<Parsed, ReadError>
    ensures { IfOk result (IsParsed block.bytes.items) }
{
    let Block { bytes, mut lines } = block;
    let fault = parse_lines(alloc, bytes.as_slice(), &mut lines)?;
    Ok(Parsed {
        bytes,
        lines,
        fault,
    })
}

/// The lines of some blocks, in as many threads as there are processors. A block is much work: one is enough for a
/// thread.
pub(crate) fn parse_blocks(
    rt: &(impl Threads + Sync),
    alloc: Global,
    blocks: Vec<Block>,
) -> Result<Vec<Result<Parsed, ReadError>>, AllocError>
    ensures { IfOk result (λ parsed. AllZip (λ block read. IsParsedOk block.bytes.items read) blocks.items
        parsed.items) }
{
    blocks
        .into_par_iter()
        .with_min_len(1)
        .map(
            |block: Block| -> Result<Parsed, ReadError>
                ensures { IsParsedOk block.bytes.items result }
            { parse_block(alloc, block) },
        )
        .collect(rt, alloc)
}
