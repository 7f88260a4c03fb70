//! How much is read: tables within the limits of a base, and to which checksums; records of a script, also of a reader
//! that never ends.

use crate::tests::{reads, same};
use small_data::tables;
use ssb_base::Limits;
use ssb_script::{ScriptError, read_script};
use ssb_text::{Tables, load, load_with_checksums};
use std::alloc::{AllocError, Global};
use std::io::{self, Read};
use std::test::Fail;
use std::thread::Threads;

// What is told of the small data set, of four parts and four lines, within limits of so many rows and lines.
fn loaded<R: Threads + Sync>(
    rt: &R,
    alloc: Global,
    rows: usize,
    lines: usize,
) -> Result<String, Fail> {
    let limits = Limits::new(rows, lines, 1).ok_or("limits")?;
    match load(rt, alloc, limits, 64, tables()) {
        Ok(base) => Ok(format!(in alloc; "{} lines", base.lines().len())?),
        Err(error) => Ok(format!(in alloc; "{error}")?),
    }
}

#[test]
fn a_table_past_its_limit_is_told_at_the_first_row_behind_it(rt: HostRuntime) -> Result<(), Fail> {
    for (rows, lines, told) in [
        (4, 4, "4 lines"),
        (3, 4, "24 Row part 4 9 TooManyRows part"),
        (4, 3, "24 Row lineorder 4 9 TooManyRows lineorder"),
    ] {
        reads(&rt, &loaded(&rt, rt.alloc(), rows, lines)?, told);
    }
    Ok(())
}

// So many orders of one line each, with keys from 1.
fn orders(alloc: Global, count: u64) -> Result<String, AllocError> {
    let mut text = String::new(alloc);
    for key in 1..=count {
        let line = format!(in alloc;
            "{key}|1|2|2|2|19930101|o|0|24|1000|3000|3|970|600|0|19930101|AIR|\n"
        )?;
        text.push_str(line.as_str())?;
    }
    Ok(text)
}

// How many bytes so many orders have, and what they and the small data set's customers are hashed to, within blocks of
// so many bytes.
fn hashed<R: Threads + Sync>(
    rt: &R,
    alloc: Global,
    block: u32,
    count: u64,
) -> Result<(usize, u128, u128), Fail> {
    let limits = Limits::new(4, 100_000, 1).ok_or("limits")?;
    let text = orders(alloc, count)?;
    let tables = Tables {
        lineorder: text.as_bytes(),
        ..tables()
    };
    match load_with_checksums(rt, alloc, limits, block, tables) {
        Ok((_, of)) => Ok((
            text.len(),
            u128::from_be_bytes(of.lineorder),
            u128::from_be_bytes(of.customer),
        )),
        Err(_) => Err("tables")?,
    }
}

// `md5sum` gave these, and for the lines, of two pieces and a part, `split -b 1048576` before it.
#[test]
fn a_table_has_the_checksum_of_its_pieces(rt: HostRuntime) -> Result<(), Fail> {
    let wanted = (
        2_364_894,
        0xe2fb_be06_9de5_f5a2_cebb_6650_775b_a628,
        0xb4e7_e836_3e0a_ec2f_4094_1aed_1695_5e6c,
    );
    for block in [1_000, 1_000_000, 4_000_000] {
        same(&rt, &hashed(&rt, rt.alloc(), block, 36_000)?, &wanted);
    }
    Ok(())
}

const THREE_QUESTIONS: &str = "query|Q1.1\nquery|Q1.2\nquery|Q1.3\n";

// How many requests a script has that may have so many records.
fn requests(alloc: Global, script: &str, most: u64) -> Result<usize, ScriptError> {
    Ok(read_script(alloc, script.as_bytes(), most)?.requests.len())
}

#[test]
fn a_script_has_no_more_records_than_its_bound(rt: HostRuntime) -> Result<(), Fail> {
    let alloc = rt.alloc();
    let too_long = Err(ScriptError::TooLong);
    same(&rt, &requests(alloc, THREE_QUESTIONS, 3), &Ok(3));
    same(&rt, &requests(alloc, THREE_QUESTIONS, 2), &too_long);
    same(&rt, &requests(alloc, "query|Q1.1\nquery|Q1.2\n", 2), &Ok(2));
    same(
        &rt,
        &requests(alloc, "\n\nquery|Q1.1\n\nquery|Q1.2\n\n", 2),
        &Ok(2),
    );
    // The third record is too many before it is bad.
    same(
        &rt,
        &requests(alloc, "query|Q1.1\nquery|Q1.2\nquery\n", 2),
        &too_long,
    );
    Ok(())
}

// A reader of the same record without end, record by record.
#[derive(Drop)]
struct EndlessRecords {
    record: &'static [u8],
}

impl Read for EndlessRecords {
    fn read(&mut self, buf: &mut [u8]) -> io::Result<usize> {
        let count = self.record.len();
        match buf.get_mut(..count) {
            Some(part) => part.copy_from_slice(self.record),
            None => return Ok(0),
        }
        Ok(count)
    }
}

#[test]
fn a_reader_that_never_ends_is_read_to_the_bound(rt: HostRuntime) -> Result<(), Fail> {
    let alloc = rt.alloc();
    let record = b"query|Q1.1\n".as_slice();
    let read = read_script(alloc, EndlessRecords { record }, 1000);
    same(&rt, &read.err(), &Some(ScriptError::TooLong));
    Ok(())
}
