//! What is read of worked scripts.
use binder::{Name, read_name};
use replay_model::{CallWord, Event};
use script_text::{Script, count_lines, parse_script};
use std::alloc::{AllocError, Global};
use std::test::Fail;

/// The script of a text, which is short.
fn script_of(alloc: Global, text: &[u8]) -> Option<Script> {
    if text.len() > 1_000 {
        return None;
    }
    parse_script(alloc, text).ok()
}

/// Whether a text is a script of these events.
fn reads(alloc: Global, text: &[u8], events: &[Event]) -> bool {
    match script_of(alloc, text) {
        Some(script) => script.events.as_slice() == events,
        None => false,
    }
}

/// The name that a text is.
fn named(text: &[u8]) -> Result<Name, Fail> {
    Ok(read_name(text).ok_or("a name")?)
}

/// The server's small and long buffers in the script of a text.
fn buffers(alloc: Global, text: &[u8]) -> Option<(usize, usize)> {
    let script = script_of(alloc, text)?;
    Some((script.small, script.long))
}

const EMPTY_CALL: &[u8] =
    b"call 2 1 null\ndeliver 1\nwork 1\nwork 1\nwork 1\nwork 1\ndeliver 2\njournal\nend\n";

#[test]
fn the_empty_call_is_read(rt: HostRuntime) {
    let call = Event::Call {
        machine: 2,
        process: 1,
        word: CallWord::Null,
    };
    let expected = [
        call,
        Event::Deliver(1),
        Event::Work(1),
        Event::Work(1),
        Event::Work(1),
        Event::Work(1),
        Event::Deliver(2),
        Event::Journal,
        Event::End,
    ];
    assert!(rt; reads(rt.alloc(), EMPTY_CALL, &expected));
    assert!(rt; buffers(rt.alloc(), EMPTY_CALL) == Some((256, 72)));
}

#[test]
fn blanks_may_be_several_and_stand_at_both_ends(rt: HostRuntime) {
    let call = Event::Call {
        machine: 9,
        process: 8,
        word: CallWord::Null,
    };
    let expected = [call, Event::Deliver(4294967295), Event::Work(4), Event::End];
    static TEXT: &[u8] = b" \tcall \t9   8\tnull \t\n\tdeliver\t4294967295\nwork  4\n end";
    assert!(rt; reads(rt.alloc(), TEXT, &expected));
}

#[test]
fn each_number_of_a_line_stands_in_its_place(rt: HostRuntime) {
    let call = Event::Call {
        machine: 3,
        process: 4,
        word: CallWord::Add(0, 4294967295),
    };
    let expected = [
        call,
        Event::Damage {
            packet: 2,
            bit: 12111,
        },
        Event::Damage { packet: 3, bit: 0 },
        Event::Show(1),
        Event::Deliver(1),
        Event::Show(1),
        Event::Show(2),
        Event::End,
    ];
    static TEXT: &[u8] =
        b"call 3 4 add 0 4294967295\ndamage 2 12111\ndamage 3 0\nshow 1\ndeliver 1\nshow 1\nshow 2\nend\n";
    assert!(rt; reads(rt.alloc(), TEXT, &expected));
}

#[test]
fn ticks_may_be_counted_and_packets_may_come_again(rt: HostRuntime) {
    let call = Event::Call {
        machine: 3,
        process: 4,
        word: CallWord::Bump(7),
    };
    let expected = [
        call,
        Event::Tick {
            machine: 3,
            process: 4,
            times: 1,
        },
        Event::Tick {
            machine: 9,
            process: 8,
            times: 1000,
        },
        Event::Deliver(1),
        Event::Damage { packet: 1, bit: 0 },
        Event::Deliver(1),
        Event::End,
    ];
    static TEXT: &[u8] =
        b"call 3 4 bump 7\ntick 3 4\ntick 9 8 1000\ndeliver 1\ndamage 1 0\ndeliver 1\nend\n";
    assert!(rt; reads(rt.alloc(), TEXT, &expected));
}

#[test]
fn seconds_exports_and_restarts_are_read(rt: HostRuntime) -> Result<(), Fail> {
    let letter = named(b"x")?;
    let mixed = named(b"Zz09")?;
    let longest = named(b"abcdefghijklmnopqrstuvwxyzABCDEF")?;
    let expected = [
        Event::Second(1),
        Event::Second(4294967295),
        Event::Export(letter),
        Event::Withdraw(mixed),
        Event::Export(longest),
        Event::Restart(1),
        Event::Restart(9),
        Event::End,
    ];
    static TEXT: &[u8] =
        b"second 1\nsecond 4294967295\nexport x\nwithdraw Zz09\nexport abcdefghijklmnopqrstuvwxyzABCDEF\nrestart 1\nrestart 9\nend\n";
    assert!(rt; reads(rt.alloc(), TEXT, &expected));
    Ok(())
}

#[test]
fn binds_and_skipped_numbers_are_read(rt: HostRuntime) -> Result<(), Fail> {
    let bind = Event::Bind {
        machine: 3,
        process: 4,
        name: named(b"main")?,
    };
    let skips = [
        Event::Skip {
            machine: 2,
            process: 1,
            by: 1,
        },
        Event::Skip {
            machine: 9,
            process: 8,
            by: 4294967295,
        },
    ];
    let expected = [bind, skips[0], skips[1], Event::End];
    static TEXT: &[u8] = b"bind 3 4 main\nskip 2 1 1\nskip 9 8 4294967295\nend\n";
    assert!(rt; reads(rt.alloc(), TEXT, &expected));
    Ok(())
}

/// A call of process 2 of machine 5.
fn call_with(word: CallWord) -> Event {
    Event::Call {
        machine: 5,
        process: 2,
        word,
    }
}

#[test]
fn long_calls_are_read(rt: HostRuntime) {
    let expected = [
        call_with(CallWord::MaxArg(0)),
        call_with(CallWord::MaxArg(92156)),
        call_with(CallWord::MaxResult(0)),
        call_with(CallWord::MaxResult(4294967295)),
        Event::End,
    ];
    static TEXT: &[u8] =
        b"call 5 2 maxarg 0\ncall 5 2 maxarg 92156\ncall 5 2 maxresult 0\ncall 5 2 maxresult 4294967295\nend\n";
    assert!(rt; reads(rt.alloc(), TEXT, &expected));
}

/// Whether each of the texts is a script of these events.
fn all_read(alloc: Global, texts: &[&[u8]], events: &[Event]) -> bool {
    for text in texts {
        if !reads(alloc, text, events) {
            return false;
        }
    }
    true
}

#[test]
fn lines_that_say_nothing_are_skipped(rt: HostRuntime) {
    static TEXTS: [&[u8]; 12] = [
        b"journal\nend",
        b"journal\r\nend\r\n",
        b"\njournal\n\nend\n",
        b"\r\njournal\n \t\r\nend\r\n",
        b"journal\nend\n\n \t \n\t",
        b"# any \xff bytes \r here\njournal\nend\n",
        b"#\njournal\n#\r\nend\n#",
        b"  # x\njournal\n\t#end\nend\n",
        b"journal\nend\n# journal\n#end\r",
        b"journal\n# \x00\x0b\x0c \r\r\nend\n",
        b"#journal 1 2\n# call 2 1 null\njournal\nend\n",
        b"journal \r\nend\t\r\n",
    ];
    let expected = [Event::Journal, Event::End];
    assert!(rt; all_read(rt.alloc(), &TEXTS, &expected));
}

/// How many lines so many newlines are, and with a byte behind them.
fn newlines_counted(alloc: Global, many: usize) -> Result<(usize, usize), AllocError> {
    let mut text = vec![in alloc; b'\n'; many]?;
    let lines = count_lines(&text);
    text.push(b'#')?;
    Ok((lines, count_lines(&text)))
}

#[test]
fn lines_are_counted(rt: HostRuntime) -> Result<(), Fail> {
    assert!(rt; count_lines(b"") == 0);
    assert!(rt; count_lines(b"end") == 1);
    assert!(rt; count_lines(b"end\n") == 1);
    assert!(rt; count_lines(b"\n\r") == 2);
    assert!(rt; count_lines(b"\n\nend\n") == 3);
    assert!(rt; newlines_counted(rt.alloc(), 20_000)? == (20_000, 20_001));
    Ok(())
}
