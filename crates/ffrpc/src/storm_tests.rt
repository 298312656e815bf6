//! Storms: the summaries of worked storms, and a sink that fails.

ghost use Rattle.std.specs.Prelude.{◌≤◌};
ghost use Rattle.replay_model.specs.declared.options.TheConstants.{MOST_CALLS};

use commands::{Status, run_storm};
use ff_io::{MemorySink, Short};
use replay_model::StormOptions;
use std::alloc::{AllocError, Global};

/// The status of a storm, and what it has written, where a sink takes so many bytes in a write, and these writes fail.
fn stormed(
    alloc: Global,
    options: &StormOptions,
    most: usize,
    failing_writes: &[u64],
) -> Result<(Status, Vec<u8>), AllocError>
    requires { (1 ≤ options.now.calls) × (options.now.calls ≤ MOST_CALLS) }
{
    let failing_writes = Vec::from_slice(alloc, failing_writes)?;
    let mut sink = Short {
        inner: MemorySink::new(failing_writes, Vec::with_capacity(alloc, 1024)?),
        most: most.max(1),
    };
    let status = run_storm(alloc, options, &mut sink);
    let written = Vec::from_slice(alloc, sink.inner.written())?;
    Ok((status, written))
}

/// Whether such a storm ends with this number, and has written this.
fn storm_ends(
    alloc: Global,
    options: &StormOptions,
    most: usize,
    failing_writes: &[u64],
    number: u8,
    summary: &[u8],
) -> bool
    requires { (1 ≤ options.now.calls) × (options.now.calls ≤ MOST_CALLS) }
{
    match stormed(alloc, options, most, failing_writes) {
        Ok((status, written)) => status.number() == number && written.as_slice() == summary,
        Err(_) => false,
    }
}

const SMALL: StormOptions = StormOptions {
    seed: 1,
    calls: 100,
};

pub const SMALL_SUMMARY: &[u8] = b"storm 1 100\n\
started 95\n\
runs 63\n\
returned 53\n\
signalled 0\n\
failed 1\n\
refused 0\n\
lost 0\n\
open 41\n\
packets 610\n";

#[test]
fn a_small_storm_is_summed_up(rt: HostRuntime) {
    assert!(rt; storm_ends(rt.alloc(), &SMALL, 1024, &[], 0, SMALL_SUMMARY));
}

const LARGE: StormOptions = StormOptions {
    seed: 7,
    calls: 20_000,
};

const LARGE_SUMMARY: &[u8] = b"storm 7 20000\n\
started 13220\n\
runs 12604\n\
returned 12099\n\
signalled 0\n\
failed 453\n\
refused 431\n\
lost 194\n\
open 43\n\
packets 118818\n";

#[test]
fn a_storm_of_twenty_thousand_calls_is_summed_up(rt: HostRuntime) {
    assert!(rt; storm_ends(rt.alloc(), &LARGE, 1024, &[], 0, LARGE_SUMMARY));
}

#[test]
fn a_sink_that_fails_has_a_front_of_the_summary(rt: HostRuntime) {
    assert!(rt; storm_ends(rt.alloc(), &SMALL, 7, &[3], 5, b"storm 1 100\nst"));
}
