//! Names by their bytes.
use interface_tokens::Ident;

fn is_name(bytes: &[u8]) -> bool {
    match Ident::read(bytes) {
        Some(name) => name.as_bytes() == bytes,
        None => false,
    }
}

#[test]
fn letters_and_digits_are_a_name(rt: HostRuntime) {
    assert!(rt; is_name(b"A123456789b123456789c123456789d1"));
    assert!(rt; is_name(b"z"));
}

#[test]
fn other_bytes_are_no_name(rt: HostRuntime) {
    assert!(rt; Ident::read(b"").is_none());
    assert!(rt; Ident::read(b"1a").is_none());
    assert!(rt; Ident::read(b"a_b").is_none());
    assert!(rt; Ident::read(b"A123456789b123456789c123456789d12").is_none());
    assert!(rt; Ident::read("ä".as_bytes()).is_none());
}
