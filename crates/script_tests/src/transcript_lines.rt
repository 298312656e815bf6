//! Each kind of line once. The texts are those of worked transcripts.

use super::telling::{CALL, Data, Packet, Told, are_written, bytes_of};
use Told::{
    BindFails, Binds, Bound, Discards, Exports, Fails, Idles, Impossible, NoExport, Quiet, Readies,
    Refused, Restarted, Returns, Second, Sends, Shows, Signals, Skipped, Starts, TooFast, Unbound,
    Waits, Withdrawn, Works,
};
use binder::ExportFault;
use call_rules::{Did, Unfit};
use replay_lines::calls::put_quiet;
use replay_lines::work::put_idle;
use replay_lines::{Counts, Page, put_end, put_runs};
use replay_model::{Discard, RunLine};
use rpc_header::{HeaderFault, Kind};
use std::alloc::{AllocError, Global};
use std::test::Fail;
use udp_frames::FrameFault;

static CALLS: [(Told, &[u8]); 7] = [
    (Impossible, b"impossible\n"),
    (Starts, b"start 2.1 65536\n"),
    (TooFast(131_072, 1), b"nostart TooFast 131072 1\n"),
    (Returns(Data::Bytes(&[])), b"returned 2.1 65536 0:\n"),
    (
        Returns(Data::Bytes(&[0, 0, 0, 1])),
        b"returned 2.1 65536 4:00000001\n",
    ),
    (Signals(Data::Bytes(&[0, 1])), b"signalled 2.1 65536 1\n"),
    (
        Returns(Data::Text(1437)),
        b"returned 2.1 65536 1441:#5616\n",
    ),
];

#[test]
fn calls_start_and_return(rt: HostRuntime) -> Result<(), Fail> {
    assert!(rt; are_written(rt.alloc(), &CALLS)?);
    Ok(())
}

static ENDINGS: [(Told, &[u8]); 7] = [
    (Waits, b"waiting 2.1 65536\n"),
    (Fails, b"failed 2.1 65536 8\n"),
    (Refused(2), b"refused 2.1 65536 2\n"),
    (BindFails, b"bindfailed 2.1 65536 8\n"),
    (Bound(3, 4), b"bound 2.1 65536 3 4\n"),
    (Unbound, b"unbound 2.1 65536\n"),
    (Quiet, b"quiet\n"),
];

#[test]
fn calls_wait_and_fail_and_names_are_bound(rt: HostRuntime) -> Result<(), Fail> {
    assert!(rt; are_written(rt.alloc(), &ENDINGS)?);
    Ok(())
}

static LIVES: [(Told, &[u8]); 9] = [
    (Second(2), b"second 2\n"),
    (Restarted(1, 2), b"restarted 1 2\n"),
    (Binds, b"bind 2.1 65536\n"),
    (Exports(1, 2), b"export 1 2\n"),
    (NoExport(ExportFault::Exists), b"noexport Exists\n"),
    (NoExport(ExportFault::Full), b"noexport Full\n"),
    (
        NoExport(ExportFault::TooFast { next: 2, now: 1 }),
        b"noexport TooFast 2 1\n",
    ),
    (Withdrawn(1), b"withdrawn 1\n"),
    (Skipped(131_072), b"skipped 2.1 131072\n"),
];

#[test]
fn names_are_exported_and_machines_boot_anew(rt: HostRuntime) -> Result<(), Fail> {
    assert!(rt; are_written(rt.alloc(), &LIVES)?);
    Ok(())
}

/// The whole of the call.
const WHOLE: Packet = Packet {
    number: 1,
    from: 2,
    to: 1,
    kind: Kind::Call,
    please_ack: false,
    last: true,
    fragment: 0,
    len: 0,
};

const FIRST_OF_RESULT: Packet = Packet {
    number: 2,
    from: 1,
    to: 2,
    kind: Kind::Result,
    please_ack: true,
    last: false,
    fragment: 0,
    len: 1440,
};

const LAST_OF_CALL: Packet = Packet {
    number: 3,
    fragment: 1,
    len: 1,
    ..WHOLE
};

const PROBE: Packet = Packet {
    number: 5,
    kind: Kind::Probe,
    please_ack: true,
    ..WHOLE
};

static PACKETS: [(Told, &[u8]); 4] = [
    (Sends(WHOLE), b"packet 1 2>1 call 65536/0 -l 0\n"),
    (
        Sends(FIRST_OF_RESULT),
        b"packet 2 1>2 result 65536/0 a- 1440\n",
    ),
    (Sends(LAST_OF_CALL), b"packet 3 2>1 call 65536/1 -l 1\n"),
    (Sends(PROBE), b"packet 5 2>1 probe 65536/0 al 0\n"),
];

#[test]
fn packets_are_sent(rt: HostRuntime) -> Result<(), Fail> {
    assert!(rt; are_written(rt.alloc(), &PACKETS)?);
    Ok(())
}

static STEPS: [(Told, &[u8]); 26] = [
    (Readies(1), b"ready 1\n"),
    (Shows(1, &[0x00, 0xff, 0x9a]), b"frame 1 3 00ff9a\n"),
    (
        Discards(Discard::Frame(FrameFault::NotForUs)),
        b"drop frame NotForUs\n",
    ),
    (
        Discards(Discard::Frame(FrameFault::UdpChecksum)),
        b"drop frame UdpChecksum\n",
    ),
    (
        Discards(Discard::Header(HeaderFault::Reserved)),
        b"drop header Reserved\n",
    ),
    (Discards(Discard::Kind), b"drop Kind\n"),
    (Discards(Discard::Foreign), b"drop Foreign\n"),
    (Discards(Discard::NoBuffer), b"drop NoBuffer\n"),
    (Discards(Discard::NoRoom), b"drop NoRoom\n"),
    (Discards(Discard::NoCell), b"drop NoCell\n"),
    (Discards(Discard::Stale), b"drop Stale\n"),
    (Discards(Discard::Taken), b"drop Taken\n"),
    (Discards(Discard::Lost), b"drop Lost\n"),
    (Discards(Discard::Unused), b"drop Unused\n"),
    (Idles(1), b"worker 1 idle\n"),
    (Works(1, Did::Claims), b"worker 1 claims 65536\n"),
    (Works(1, Did::Admits), b"worker 1 admits 65536\n"),
    (Works(1, Did::Runs), b"worker 1 runs 65536\n"),
    (Works(1, Did::Replies), b"worker 1 replies 65536\n"),
    (Works(2, Did::Drops(Unfit::Lost)), b"worker 2 drops Lost\n"),
    (Works(3, Did::Begins), b"worker 3 begins 65536\n"),
    (Works(4, Did::Takes), b"worker 4 takes 65536\n"),
    (Works(4, Did::Rests), b"worker 4 rests 65536\n"),
    (Works(4, Did::Rejects(2)), b"worker 4 rejects 65536 2\n"),
    (Works(4, Did::Waits), b"worker 4 waits\n"),
    (
        Works(4, Did::Drops(Unfit::NoBuffer)),
        b"worker 4 drops NoBuffer\n",
    ),
];

#[test]
fn packets_come_and_workers_step(rt: HostRuntime) -> Result<(), Fail> {
    assert!(rt; are_written(rt.alloc(), &STEPS)?);
    Ok(())
}

/// A run: its procedure, its arguments, whether it answered by a signal, and its reply.
type Run = (u16, Data, bool, &'static [u8]);

static RUNS: [Run; 5] = [
    (0, Data::Bytes(&[]), false, &[]),
    (1, Data::Bytes(&[1; 17]), true, &[0, 0]),
    (2, Data::Bytes(&[0, 0, 0, 5]), false, &[0, 0, 0, 7]),
    (3, Data::Text(1437), false, &[]),
    (4, Data::Bytes(&[0, 1, 0x67, 0xfd]), true, &[0, 1]),
];

const ENDS: &[u8] = b"journal empty\n\
run 1 2.1 65536 null 0: -> 0:\n\
run 2 2.1 65536 add 17:#0908 -> !0\n\
run 3 2.1 65536 bump 4:00000005 -> 4:00000007\n\
run 4 2.1 65536 maxarg 1441:#5616 -> 0:\n\
run 5 2.1 65536 maxresult 4:000167fd -> !1\n\
end runs 3 returned 1 signalled 1 failed 2 refused 1\n";

/// A run of the call, whose arguments and reply have at most 2,000 bytes each.
fn line_of(alloc: Global, run: Run) -> Result<RunLine, AllocError> {
    let (procedure, arguments, signal, reply) = run;
    let arguments = bytes_of(alloc, arguments)?;
    if arguments.len() > 2_000 || reply.len() > 2_000 {
        return Err(AllocError);
    }
    Ok(RunLine::new(CALL, procedure, &arguments, signal, reply))
}

fn runs_of(alloc: Global, runs: &[Run]) -> Result<Vec<RunLine>, AllocError> {
    let mut lines = Vec::new(alloc);
    for run in runs {
        lines.push(line_of(alloc, *run)?)?;
    }
    Ok(lines)
}

/// Three runs, of which one returned and one by a signal, two calls that failed and one that was refused.
fn counted() -> Counts {
    let mut counts = Counts::none();
    counts.count_run();
    counts.count_return(false);
    counts.count_run();
    counts.count_return(true);
    counts.count_run();
    counts.count_failure();
    counts.count_failure();
    counts.count_refusal();
    counts
}

/// A journal without runs, one with these, and the last line.
fn ends(alloc: Global) -> Result<Vec<u8>, AllocError> {
    let mut out = Page::of(Vec::new(alloc));
    put_runs(&mut out, &[])?;
    put_runs(&mut out, runs_of(alloc, &RUNS)?.as_slice())?;
    put_end(&mut out, &counted())?;
    Ok(out.into_text())
}

#[test]
fn runs_are_listed_and_counted(rt: HostRuntime) -> Result<(), Fail> {
    assert!(rt; ends(rt.alloc())?.as_slice() == ENDS);
    Ok(())
}

#[test]
fn nothing_comes_onto_a_blank_page(rt: HostRuntime) -> Result<(), Fail> {
    let mut out = Page::blank(rt.alloc());
    put_quiet(&mut out)?;
    put_idle(&mut out, 1)?;
    assert!(rt; out.into_text().is_empty());
    Ok(())
}
