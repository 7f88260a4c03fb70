use std::fmt::Debug;
use std::process::Abort;

mod codes;
mod columns;
mod copies;
mod definition;
mod machine;
mod reading;
mod rows;

// What was found is what is wanted. Tests call this: each assertion in a body makes the proof of that body longer.
fn same<A: Abort, T: PartialEq + Debug>(rt: &A, found: &T, wanted: &T) {
    assert_eq!(rt; found, wanted);
}

// The same of text.
fn reads<A: Abort>(rt: &A, found: &str, wanted: &str) {
    assert_eq!(rt; found, wanted);
}
