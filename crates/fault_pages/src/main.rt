//! Holds the page of faults to the code: every fault that has a number, and every line of help, prints exactly the line
//! that a row of the page promises, that row says what the fault means and what to do, and no row tells of a line that
//! there is not.
//!
//! The page is `data/FAULTS.md`, which lies in the folder that the program is run in. The program prints a line for
//! each fault without its row and for each row without its fault, and then how many faults have one. Only where all do
//! it ends with status 0.
//!
//! `faults` lists the faults, and `help` the lines of help, each type variant by variant, so that a variant that is not
//! listed is refused by the compiler. `page` reads a row, and puts the values that the listed faults have in the place
//! of its words in capitals: the row `7 KeyRepeated TABLE ROW` promises the line `7 KeyRepeated customer 2`.
#![tactic(auto)]

mod faults;
mod help;
mod page;

use faults::all_lines;
use page::{PageRow, row_of};
use std::alloc::Global;
use std::process::ExitCode;
use std::{fs, io};

/// A fault's line, and how many rows of the page tell of it.
#[derive(Drop)]
struct CountedFault {
    line: String,
    rows: u64,
}

// The faults, with no row yet.
fn faults_of(alloc: Global, lines: Vec<String>) -> io::Result<Vec<CountedFault>> {
    let mut faults = Vec::new(alloc);
    for line in lines {
        faults.push(CountedFault { line, rows: 0 })?;
    }
    Ok(faults)
}

// Counts a row for the fault that prints its line, if the row is whole and there is one.
fn count(faults: &mut [CountedFault], row: &PageRow) -> bool {
    if !row.is_whole {
        return false;
    }
    for fault in faults.iter_mut() {
        if fault.line == row.line {
            fault.rows = fault.rows.saturating_add(1);
            return true;
        }
    }
    false
}

fn main(rt: HostRuntime) -> io::Result<ExitCode> {
    let alloc = rt.alloc();
    let mut faults = faults_of(alloc, all_lines(alloc)?)?;
    let mut all_told = true;
    let page = fs::read_to_string(&rt, "FAULTS.md")?;
    for text in page.lines() {
        if let Some(row) = row_of(alloc, text)? {
            if !count(&mut faults, &row) {
                println!(rt;
                    "no fault prints this line, or its row says too little: {}",
                    row.line
                )?;
                all_told = false;
            }
        }
    }
    let mut told = 0u64;
    for fault in faults.iter() {
        if fault.rows == 1 {
            told = told.saturating_add(1);
        } else {
            println!(rt; "{} rows tell of {}", fault.rows, fault.line)?;
            all_told = false;
        }
    }
    println!(rt; "{told} faults and lines of help with a row each")?;
    Ok(if all_told {
        ExitCode::SUCCESS
    } else {
        ExitCode::FAILURE
    })
}
