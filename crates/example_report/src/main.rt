//! example_report: how many violations of each kind a block has, and which of its components are not legally placed.
//!
//! An example of a program over `leg_app`. It reads one LEF, up to its `END LIBRARY`, and then one DEF from standard
//! input. Its exit status is 0 for a legal block, 1 for one with violations, and 2 where there is no report.
#![tactic(auto)]

mod report;
mod violations;

use leg_app::{STREAM_LIMIT, read_all, split_stream};
use report::report_on;
use std::io;
use std::io::Write;
use std::process::ExitCode;
use std::rt::Runtime;

const VIOLATIONS: u8 = 1;

const NO_REPORT: u8 = 2;

fn main(rt: HostRuntime) -> ExitCode {
    ExitCode::from(reported(&rt).unwrap_or(NO_REPORT))
}

// Writes the report on the block of standard input, and gives the exit status.
fn reported<R: Runtime + AllocGlobal>(rt: &R) -> io::Result<u8> {
    let Ok(stream) = read_all(rt.alloc(), &mut rt.reader(), STREAM_LIMIT) else {
        eprintln!(rt; "standard input cannot be read")?;
        return Ok(NO_REPORT);
    };
    let Some((lef, def)) = split_stream(&stream) else {
        eprintln!(rt; "no LEF that ends in END LIBRARY")?;
        return Ok(NO_REPORT);
    };
    match report_on(rt.alloc(), lef, def) {
        Ok(report) => {
            io::writer(rt).write_all(&report.text)?;
            Ok(if report.is_legal { 0 } else { VIOLATIONS })
        }
        Err(fault) => {
            eprintln!(rt; "{fault:?}")?;
            Ok(NO_REPORT)
        }
    }
}
