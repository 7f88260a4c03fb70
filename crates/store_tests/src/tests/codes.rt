//! The codes of columns over the small data set, as its texts spell them.

use crate::tests::reads;
use dimension_index::{DimIndex, index_of};
use ssb_schema::{C_REGION, Column, D_YEAR, P_MFGR};
use std::alloc::Global;
use std::test::Fail;
use test_fixtures::standard_base;

// The codes of a column's rows, in their order, and then the text and the number of each code.
fn told(alloc: Global, index: &DimIndex, column: Column) -> Result<String, Fail> {
    let mut told = String::new(alloc);
    for code in index.codes_of(column) {
        write!(told, "{code} ")?;
    }
    for code in 0..u32::try_from(index.codes(column)).unwrap_or(0) {
        let (text, number) = (index.text(column, code), index.number(column, code));
        write!(told, "{text}:{number} ")?;
    }
    Ok(told)
}

#[test]
fn codes_go_by_the_first_sight_of_a_value(rt: HostRuntime) -> Result<(), Fail> {
    let alloc = rt.alloc();
    let index = index_of(alloc, &standard_base(&rt, alloc)?)?;
    for (column, codes) in [
        (P_MFGR, "0 1 1 0 MFGR#1:0 MFGR#2:0 "),
        (D_YEAR, "0 1 1 2 :1993 :1994 :1997 "),
        (C_REGION, "0 1 2 EUROPE:0 ASIA:0 AMERICA:0 "),
    ] {
        reads(&rt, &told(alloc, &index, column)?, codes);
    }
    Ok(())
}
