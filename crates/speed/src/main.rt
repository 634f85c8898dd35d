//! Times nothing itself: does a job again and again, so that `bench/lanes` and `bench/json` can time it.
//!
//! The arguments are jobs, each a name and a number of rounds. `json` reads the JSON text on standard input. The others
//! run a scan over a text of 1 MiB: `special`, `blank`, `count` or `last`, with `-lanes` or `-plain` behind it. A line
//! for each job has the sum of its answers: of `json` the offsets at which the values that were read end, and of a scan
//! what it found, which is the same by lanes and by plain loops.
#![tactic(auto)]

mod json;
mod lanes;
mod plain;

use json::sum_of_ends;
use lanes::sum_of_scans;
use std::alloc::Global;
use std::{env, io};
use tk_io::{StdSource, read_all};

/// The longest text, in bytes.
const LIMIT: u64 = 1 << 30;

/// The most jobs of a run.
const MOST_JOBS: usize = 100;

// The sum of the answers; none where there is no such job, or it has none.
fn sum_of(alloc: Global, job: &str, rounds: u32, text: &[u8]) -> Option<u64> {
    if job == "json" {
        return sum_of_ends(alloc, text, rounds);
    }
    let Some((scan, way)) = job.split_once('-') else {
        return None;
    };
    match way {
        "lanes" => sum_of_scans(alloc, scan, true, rounds),
        "plain" => sum_of_scans(alloc, scan, false, rounds),
        _ => None,
    }
}

fn main(rt: HostRuntime) -> io::Result<()> {
    let mut src = StdSource::new(rt.stdin());
    let Ok(text) = read_all(rt.alloc(), &mut src, LIMIT) else {
        return println!(rt; "the text was not read");
    };
    let mut words = env::args(&rt)?.skip(1);
    for _ in 0..MOST_JOBS {
        let Some(job) = words.next() else {
            break;
        };
        let rounds = match words.next() {
            Some(word) => word.as_str().parse::<u32>().unwrap_or(0),
            None => 0,
        };
        match sum_of(rt.alloc(), job.as_str(), rounds, text.as_slice()) {
            Some(sum) => println!(rt; "{} {sum}", job.as_str())?,
            None => println!(rt; "{}: no answer", job.as_str())?,
        }
    }
    Ok(())
}
