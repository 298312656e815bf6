//! The first faults of texts just outside the grammar.
use script_text::{ScriptFault, parse_script};
use std::alloc::Global;

/// The fault of a text, which is short.
fn fault_of(alloc: Global, text: &[u8]) -> Option<ScriptFault> {
    if text.len() > 1_000 {
        return None;
    }
    parse_script(alloc, text).err()
}

/// Whether each of the texts has this fault, at this line.
fn all_have(alloc: Global, texts: &[&[u8]], line: u32, number: u8) -> bool {
    let fault = Some(ScriptFault { line, number });
    for text in texts {
        if fault_of(alloc, text) != fault {
            return false;
        }
    }
    true
}

#[test]
fn words_that_begin_no_form(rt: HostRuntime) {
    static FAULT_1_AT_1: [&[u8]; 6] = [
        b"jump\nend\n",
        b"Journal\nend\n",
        b"call 2 1 jump\nend\n",
        b"call 2 1 Null 1\nend\n",
        b"end# x\n",
        b"call 2 1 #null\nend\n",
    ];
    assert!(rt; all_have(rt.alloc(), &FAULT_1_AT_1, 1, 1));
    static FAULT_1_AT_2: [&[u8]; 1] = [b"call 2 1 null\ndeliv"];
    assert!(rt; all_have(rt.alloc(), &FAULT_1_AT_2, 2, 1));
}

#[test]
fn lines_of_another_number_of_words(rt: HostRuntime) {
    static FAULT_2_AT_1: [&[u8]; 20] = [
        b"deliver\nend\n",
        b"deliver 1 2\nend\n",
        b"damage 1\nend\n",
        b"damage 1 2 3\nend\n",
        b"show\nend\n",
        b"work\nend\n",
        b"journal 1\nend\n",
        b"end # x\n",
        b"call\nend\n",
        b"call 2\nend\n",
        b"call 2 1\nend\n",
        b"call 2 1 null 1\nend\n",
        b"call 2 1 add\nend\n",
        b"call 2 1 add 1\nend\n",
        b"call 2 1 add 1 2 3\nend\n",
        b"call 2 1 bump\nend\n",
        b"call 2 1 bump 1 2\nend\n",
        b"tick\nend\n",
        b"tick 2\nend\n",
        b"tick 2 1 1 1\nend\n",
    ];
    assert!(rt; all_have(rt.alloc(), &FAULT_2_AT_1, 1, 2));
}

#[test]
fn lines_of_lives_of_another_number_of_words(rt: HostRuntime) {
    static FAULT_2_AT_1: [&[u8]; 16] = [
        b"second\nend\n",
        b"second 2 3\nend\n",
        b"bind 2 1\nend\n",
        b"bind 2 1 main aux\nend\n",
        b"export\nend\n",
        b"export main aux\nend\n",
        b"withdraw\nend\n",
        b"withdraw main aux\nend\n",
        b"restart\nend\n",
        b"restart 1 1\nend\n",
        b"skip\nend\n",
        b"skip 2 1\nend\n",
        b"skip 2 1 1 1\nend\n",
        b"call 2 1 maxarg\nend\n",
        b"call 2 1 maxarg 1 2\nend\n",
        b"call 2 1 maxresult\nend\n",
    ];
    assert!(rt; all_have(rt.alloc(), &FAULT_2_AT_1, 1, 2));
}

#[test]
fn words_that_are_no_numbers(rt: HostRuntime) {
    static FAULT_3_AT_1: [&[u8]; 18] = [
        b"deliver x\nend\n",
        b"deliver 01\nend\n",
        b"deliver 00\nend\n",
        b"deliver +1\nend\n",
        b"deliver -1\nend\n",
        b"deliver 1x\nend\n",
        b"deliver 0x1\nend\n",
        b"deliver 000000000000000000000000000000000001\nend\n",
        b"call 2 1 add 1 02\nend\n",
        b"call 2 1 bump x\nend\n",
        b"tick x 1\nend\n",
        b"tick 2 1 01\nend\n",
        b"second x\nend\n",
        b"restart 01\nend\n",
        b"skip 2 1 x\nend\n",
        b"bind 2 x main\nend\n",
        b"call 2 1 maxarg x\nend\n",
        b"call 2 1 maxresult 00\nend\n",
    ];
    assert!(rt; all_have(rt.alloc(), &FAULT_3_AT_1, 1, 3));
}

#[test]
fn numbers_out_of_range(rt: HostRuntime) {
    static FAULT_4_AT_1: [&[u8]; 20] = [
        b"deliver 0\nend\n",
        b"deliver 4294967296\nend\n",
        b"deliver 18446744073709551617\nend\n",
        b"deliver 99999999999999999999999999999999999999999999\nend\n",
        b"call 1 1 null\nend\n",
        b"call 10 1 null\nend\n",
        b"call 2 0 null\nend\n",
        b"call 2 9 null\nend\n",
        b"work 0\nend\n",
        b"work 5\nend\n",
        b"damage 0 0\nend\n",
        b"damage 1 12112\nend\n",
        b"show 0\nend\n",
        b"call 2 1 add 4294967296 1\nend\n",
        b"call 2 1 add 1 4294967296\nend\n",
        b"call 2 1 bump 4294967296\nend\n",
        b"tick 1 1\nend\n",
        b"tick 2 9\nend\n",
        b"tick 2 1 0\nend\n",
        b"tick 2 1 1001\nend\n",
    ];
    assert!(rt; all_have(rt.alloc(), &FAULT_4_AT_1, 1, 4));
}

#[test]
fn numbers_of_lives_out_of_range(rt: HostRuntime) {
    static FAULT_4_AT_1: [&[u8]; 14] = [
        b"second 0\nend\n",
        b"second 4294967296\nend\n",
        b"bind 1 1 main\nend\n",
        b"bind 10 1 main\nend\n",
        b"bind 2 0 main\nend\n",
        b"bind 2 9 main\nend\n",
        b"restart 0\nend\n",
        b"restart 10\nend\n",
        b"skip 1 1 1\nend\n",
        b"skip 2 9 1\nend\n",
        b"skip 2 1 0\nend\n",
        b"skip 2 1 4294967296\nend\n",
        b"call 2 1 maxarg 92157\nend\n",
        b"call 2 1 maxresult 4294967296\nend\n",
    ];
    assert!(rt; all_have(rt.alloc(), &FAULT_4_AT_1, 1, 4));
}

#[test]
fn words_that_are_no_names(rt: HostRuntime) {
    static FAULT_5_AT_1: [&[u8]; 10] = [
        b"export 9\nend\n",
        b"export 9main\nend\n",
        b"export ma-in\nend\n",
        b"export ma.in\nend\n",
        b"export main_\nend\n",
        b"export abcdefghijklmnopqrstuvwxyzABCDEFG\nend\n",
        b"withdraw 1\nend\n",
        b"withdraw @\nend\n",
        b"bind 2 1 1\nend\n",
        b"bind 2 1 [\nend\n",
    ];
    assert!(rt; all_have(rt.alloc(), &FAULT_5_AT_1, 1, 5));
}

#[test]
fn lines_behind_the_end(rt: HostRuntime) {
    static FAULT_6_AT_2: [&[u8]; 7] = [
        b"end\njournal\n",
        b"end\nexport 9\n",
        b"end\nend\n",
        b"end\njump\n",
        b"end\nend end\n",
        b"end\npool 2 0\n",
        b"end\ndeliver x\n",
    ];
    assert!(rt; all_have(rt.alloc(), &FAULT_6_AT_2, 2, 6));
    static FAULT_6_AT_4: [&[u8]; 1] = [b"end\n\n# x\njournal"];
    assert!(rt; all_have(rt.alloc(), &FAULT_6_AT_4, 4, 6));
}

#[test]
fn texts_without_an_end(rt: HostRuntime) {
    static FAULT_7_AT_1: [&[u8]; 3] = [b"", b"journal", b"# end"];
    assert!(rt; all_have(rt.alloc(), &FAULT_7_AT_1, 1, 7));
    static FAULT_7_AT_2: [&[u8]; 3] = [b"\n", b"journal\n", b"\njournal"];
    assert!(rt; all_have(rt.alloc(), &FAULT_7_AT_2, 2, 7));
    static FAULT_7_AT_4: [&[u8]; 1] = [b"journal\n\n# x\n"];
    assert!(rt; all_have(rt.alloc(), &FAULT_7_AT_4, 4, 7));
}

#[test]
fn bytes_that_no_line_has(rt: HostRuntime) {
    static FAULT_8_AT_1: [&[u8]; 12] = [
        b"end\x00\n",
        b"end\x7f\n",
        b"end\xff\n",
        b"end\x0b\n",
        b"end\x0c\n",
        b"\x00# x\nend\n",
        b"end\r",
        b"end\r\r\n",
        b"end\r \n",
        b"\rend\n",
        b"work\r1\nend\n",
        b"jump\x01\nend\n",
    ];
    assert!(rt; all_have(rt.alloc(), &FAULT_8_AT_1, 1, 8));
    static FAULT_8_AT_2: [&[u8]; 3] = [
        b"end\n\r",
        b"end\njournal\x80\n",
        b"journal\nexport \x7f\nend\n",
    ];
    assert!(rt; all_have(rt.alloc(), &FAULT_8_AT_2, 2, 8));
}

#[test]
fn forms_that_are_not_built(rt: HostRuntime) {
    static FAULT_9_AT_1: [&[u8]; 8] = [
        b"pool 2 0\nend\n",
        b"pool\nend\n",
        b"holders 1\nend\n",
        b"holders 0 1\nend\n",
        b"sweep\nend\n",
        b"call 2 1 bigarg 1\nend\n",
        b"call 2 1 bigresult 1\nend\n",
        b"call x y bigarg\nend\n",
    ];
    assert!(rt; all_have(rt.alloc(), &FAULT_9_AT_1, 1, 9));
    static FAULT_9_AT_2: [&[u8]; 1] = [b"journal\npool 2 0\nend\n"];
    assert!(rt; all_have(rt.alloc(), &FAULT_9_AT_2, 2, 9));
}

#[test]
fn the_first_of_two_faults_counts(rt: HostRuntime) {
    static FAULT_1_AT_1: [&[u8]; 2] = [b"call x y jump\nend\n", b"jump 1 2 3 4 5 6 7 8\nend\n"];
    assert!(rt; all_have(rt.alloc(), &FAULT_1_AT_1, 1, 1));
    static FAULT_2_AT_1: [&[u8]; 4] = [
        b"deliver x y\nend\n",
        b"call x y add 1\nend\n",
        b"bind x y\nend\n",
        b"export 9 9\nend\n",
    ];
    assert!(rt; all_have(rt.alloc(), &FAULT_2_AT_1, 1, 2));
    static FAULT_3_AT_1: [&[u8]; 5] = [
        b"bind x 9 9\nend\n",
        b"skip 2 x 0\nend\n",
        b"damage x 12112\nend\n",
        b"call x 9 null\nend\n",
        b"call 2 1 add x 4294967296\nend\n",
    ];
    assert!(rt; all_have(rt.alloc(), &FAULT_3_AT_1, 1, 3));
    static FAULT_4_AT_1: [&[u8]; 5] = [
        b"bind 2 9 9\nend\n",
        b"skip 2 9 x\nend\n",
        b"damage 0 x\nend\n",
        b"call 1 x null\nend\n",
        b"call 2 9 add x x\nend\n",
    ];
    assert!(rt; all_have(rt.alloc(), &FAULT_4_AT_1, 1, 4));
    static FAULT_4_AT_2: [&[u8]; 2] = [
        b"deliver 1\ndamage 1 12112\nend\n",
        b"journal\nwork 5\njump\nend\n",
    ];
    assert!(rt; all_have(rt.alloc(), &FAULT_4_AT_2, 2, 4));
}
