// Names of interfaces, and the data of a Bind.

ghost use Rattle.std.specs.Prelude.{◌≡◌, ◌≤◌, ◌<◌, ◌+◌, ◌++◌, ℕ, List, [], IfSome, IfNone, IsTrue, length, take, drop};
ghost use Rattle.binder.specs.Interfaces.{bind_data, counted, is_interface_name, name_in};

use crate::name::{NAME_LIMIT, Name, read_name};

/// The name of an interface: its type, and which of that type it is.
#[derive(Clone, Copy, PartialEq, Eq, Hash, Debug)]
pub struct InterfaceName {
    pub kind: Name,
    pub instance: Name,
}

/// The most bytes of a Bind's data.
pub const BIND_DATA_LIMIT: usize = 2 * (1 + NAME_LIMIT);

/// The name that a Bind with these bytes as its data asks for, or `None` exactly where they are the data of
/// no name.
pub fn read_bind_data(bytes: &[u8]) -> Option<InterfaceName>
    ensures name { result ≡ name_in bytes.now }
    ensures one_form { IfSome result (λ name. bytes.now ≡ bind_data name) }
{
    let (kind, instance) = split_data(bytes)?;
    Some(InterfaceName {
        kind: read_name(kind)?,
        instance: read_name(instance)?,
    })
}

/// Writes the data of a Bind that asks for a name to the front of `into`, and gives its length.
pub fn write_bind_data(name: &InterfaceName, into: &mut [u8]) -> usize
    requires { BIND_DATA_LIMIT ≤ length into.old }
    ensures data { into.new ≡ bind_data name.now ++ drop result into.old }
    ensures length { result ≡ length (bind_data name.now) }
    ensures within { result ≤ BIND_DATA_LIMIT }
{
    let instance_at = write_counted(name.kind.as_bytes(), into, 0);
    write_counted(name.instance.as_bytes(), into, instance_at)
}

/// The two counted parts that the bytes are, and no more.
fn split_data(bytes: &[u8]) -> Option<(&[u8], &[u8])>
    ensures split { IfSome result (λ parts. bytes.now ≡ counted parts.0.now ++ counted parts.1.now) }
    ensures none { IfNone result ((kind instance : List ℕ) → ¬ (bytes.now ≡ counted kind ++ counted instance)) }
{
    let (kind, rest) = split_counted(bytes)?;
    let (instance, rest) = split_counted(rest)?;
    if rest.is_empty() {
        Some((kind, instance))
    } else {
        None
    }
}

/// The bytes that the first byte counts, and the bytes behind them.
fn split_counted(bytes: &[u8]) -> Option<(&[u8], &[u8])>
    ensures split { IfSome result (λ parts. bytes.now ≡ counted parts.0.now ++ parts.1.now) }
    ensures none { IfNone result ((front rest : List ℕ) → ¬ (bytes.now ≡ counted front ++ rest)) }
{
    let [count, rest @ ..] = bytes else {
        return None;
    };
    let count = usize::from(*count);
    if count > rest.len() {
        return None;
    }
    Some(rest.split_at(count))
}

/// Writes bytes with their count before them, and gives the place behind them.
fn write_counted(bytes: &[u8], into: &mut [u8], at: usize) -> usize
    requires count { length bytes.now < 256 }
    requires room { at + 1 + length bytes.now ≤ length into.old }
    ensures end { result ≡ at + 1 + length bytes.now }
    ensures written { into.new ≡ take at into.old ++ counted bytes.now ++ drop result into.old }
{
    let end = at + 1 + bytes.len();
    into[at] = bytes.len() as u8;
    into[at + 1..end].copy_from_slice(bytes);
    end
}
