//! The lines of blocks, one behind the other.

ghost use Rattle.std.specs.Prelude.{◌≡◌, ◌<◌, ◌≤◌, ◌+◌, ◌^◌, [], ◌∷◌, IfErr, OnOk, map, vec_len};
ghost use Rattle.ssb_schema.specs.Rows.{line_values};
ghost use Rattle.ssb_schema.specs.declared.table.Table.TheVariants as table;
ghost use Rattle.ssb_schema.specs.declared.fault.SchemaFault.TheVariants as schema;
ghost use Rattle.ssb_text.specs.declared.error.LoadError.TheVariants as errors;
ghost use Rattle.ssb_text.specs.Joining.{Joins, Stops};
ghost use Rattle.ssb_text.specs.Parsing.{IsParsed, IsParsedOk};

use crate::blocks::Block;
use crate::error::LoadError;
use crate::parsing::Parsed;
use crate::records::ReadError;
use ssb_schema::{Line, SchemaFault, Table};
use std::alloc::Global;

/// The fault of one line more than the limit.
fn too_many(limit: usize) -> LoadError
    requires { limit < 2 ^ 32 }
    ensures { result ≡ errors.Row table.Lineorder (limit + 1) (schema.TooManyRows table.Lineorder) }
{
    LoadError::Row(
        Table::Lineorder,
        limit + 1,
        SchemaFault::TooManyRows(Table::Lineorder),
    )
}

/// Puts the lines of the next block behind those before it, or tells the first fault. What comes back is the block's
/// buffers.
pub(crate) fn join_block(
    lines: &mut Vec<Line>,
    mut parsed: Parsed,
    limit: usize,
) -> Result<Block, LoadError>
    requires small { limit < 2 ^ 32 }
    requires few { vec_len lines.old ≤ limit }
    ensures few { OnOk result (vec_len lines.new ≤ limit) }
    ensures joined { OnOk result (Joins IsParsed (parsed ∷ []) (map line_values lines.old.items)
        (map line_values lines.new.items)) }
    ensures stops { IfErr result (Stops IsParsed (parsed ∷ []) limit (map line_values lines.old.items)) }
{
    if lines.append(&mut parsed.lines).is_err() {
        return Err(LoadError::OutOfMemory);
    }
    if lines.len() > limit {
        return Err(too_many(limit));
    }
    match parsed.fault {
        None => Ok(Block {
            bytes: parsed.bytes,
            lines: parsed.lines,
        }),
        Some(_) if lines.len() == limit => Err(too_many(limit)),
        Some(fault) => Err(LoadError::in_row(Table::Lineorder, lines.len() + 1, fault)),
    }
}

/// Puts the lines of the next blocks behind those before them, or tells the first fault. What comes back is the blocks'
/// buffers.
pub(crate) fn join_blocks(
    alloc: Global,
    lines: &mut Vec<Line>,
    parsed: Vec<Result<Parsed, ReadError>>,
    limit: usize,
) -> Result<Vec<Block>, LoadError>
    requires small { limit < 2 ^ 32 }
    requires few { vec_len lines.old ≤ limit }
    ensures few { OnOk result (vec_len lines.new ≤ limit) }
    ensures joined { OnOk result (Joins IsParsedOk parsed.items (map line_values lines.old.items)
        (map line_values lines.new.items)) }
    ensures stops { IfErr result (Stops IsParsedOk parsed.items limit (map line_values lines.old.items)) }
{
    let mut rooms = Vec::new(alloc);
    for block in parsed {
        match block {
            Ok(block) => {
                let room = join_block(lines, block, limit)?;
                if rooms.push(room).is_err() {
                    return Err(LoadError::OutOfMemory);
                }
            }
            Err(why) => return Err(LoadError::in_table(Table::Lineorder, why)),
        }
    }
    Ok(rooms)
}
