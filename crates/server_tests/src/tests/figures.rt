//! Figures that no step of a trial counts.

use row_store::Cause;
use server_figures::{LiveFigures, Refused, resident_bytes};
use std::test::Fail;
use std::time::Duration;

#[test]
fn sessions_come_and_go_and_the_last_batch_lacks_commits(rt: HostRuntime) -> Result<(), Fail> {
    let _ = rt;
    let live = LiveFigures::new();
    live.session_begins();
    live.session_begins();
    live.session_begins();
    live.session_ends(false);
    live.session_ends(true);
    live.has_committed(7, 4);
    live.has_answered(3, 2);
    live.batch_took(5, Duration::from_micros(12));
    let figures = live.now();
    if figures.sessions != 1 || figures.broken != 1 || figures.by_totals != 2 {
        Err("other sessions or totals")?;
    }
    if figures.last_batch != 12_000 || figures.lacked != 2 {
        Err("another batch")?;
    }
    Ok(())
}

#[test]
fn refusals_are_counted_by_their_cause(rt: HostRuntime) -> Result<(), Fail> {
    let _ = rt;
    let live = LiveFigures::new();
    live.has_refused(Cause::Absent(7));
    live.has_refused(Cause::LinesFull);
    live.has_refused(Cause::Absent(8));
    let figures = live.now();
    let refused = Refused {
        lines_full: 1,
        absent: 2,
        ..Refused::default()
    };
    if figures.refusals != 3 || figures.refused != refused {
        Err("other refusals")?;
    }
    Ok(())
}

#[test]
fn memory_is_that_of_the_systems_text(rt: HostRuntime) -> Result<(), Fail> {
    let _ = rt;
    let status = b"Name:\tssb_live\nVmPeak:\t   90000 kB\nVmRSS:\t   12345 kB\nRssAnon:\t   1 kB\n";
    if resident_bytes(status) != Some(12_641_280) {
        Err("other bytes")?;
    }
    if resident_bytes(b"VmRSS:\tmuch\n").is_some() {
        Err("bytes of no number")?;
    }
    Ok(())
}
