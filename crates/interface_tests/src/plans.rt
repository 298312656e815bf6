//! The worked values, values at both ends of their ranges, and the plans of interfaces.
use interface_text::{Interface, Procedure, Shape, parse};
use item_list::Items;
use marshal_plans::{
    GetFault, Plan, PlanFault, PlanPair, Plans, PutFault, Value, Values, compile, get, is_shallow,
    put,
};
use std::alloc::{AllocError, Global};

mod interfaces;

const ADD: &[u8] = b"INTERFACE I; PROCEDURE P(a, b: CARDINAL); END I.";

const BOOLEAN: &[u8] = b"INTERFACE I; PROCEDURE P(a: BOOLEAN); END I.";

const BYTE: &[u8] = b"INTERFACE I; PROCEDURE P(a: BYTE); END I.";

const CARDINAL: &[u8] = b"INTERFACE I; PROCEDURE P(a: CARDINAL); END I.";

const INTEGER: &[u8] = b"INTERFACE I; PROCEDURE P(a: INTEGER); END I.";

const LONGCARD: &[u8] = b"INTERFACE I; PROCEDURE P(a: LONGCARD); END I.";

/// An enumeration of three values.
const CHOICE: &[u8] = b"INTERFACE I; TYPE T = (x, y, z); PROCEDURE P(a: T); END I.";

/// At most two bytes, and at most nine.
const TWO: &[u8] = b"INTERFACE I; PROCEDURE P(VAR IN a: ARRAY OF BYTE UPTO 2); END I.";

const NINE: &[u8] = b"INTERFACE I; PROCEDURE P(VAR IN a: ARRAY OF BYTE UPTO 9); END I.";

const WIDE: &[u8] = b"INTERFACE I; PROCEDURE P(a: ARRAY 2 OF CARDINAL); END I.";

/// An array of two records.
const RECORDS: &[u8] = b"INTERFACE I;
TYPE T = RECORD a: BYTE; b: LONGCARD END;
PROCEDURE P(a: ARRAY 2 OF T);
END I.";

/// A CARDINAL in 15 records.
const DEEP: &[u8] = b"INTERFACE I;
TYPE T = RECORD a: RECORD a: RECORD a: RECORD a: RECORD a: CARDINAL END END END END END;
TYPE U = RECORD a: RECORD a: RECORD a: RECORD a: RECORD a: T END END END END END;
TYPE V = RECORD a: RECORD a: RECORD a: RECORD a: RECORD a: U END END END END END;
PROCEDURE P(a: V);
END I.";

/// The plans of a text, or why it has none. `None` where it is no interface.
fn plans_of(alloc: Global, text: &[u8]) -> Option<Result<Plans, PlanFault>> {
    if text.len() > 1000 {
        return None;
    }
    let interface = parse(alloc, text).ok()?;
    Some(compile(alloc, &interface))
}

/// The plan of the arguments of a text's last procedure.
fn plan_of(alloc: Global, text: &[u8]) -> Option<Plan> {
    let Plans { procedures } = plans_of(alloc, text)?.ok()?;
    let PlanPair { arguments, .. } = procedures.into_vec().pop()?;
    Some(arguments)
}

/// Values as a table has them.
enum Given {
    Numbers(&'static [i128]),
    /// One group, of numbers.
    Group(&'static [i128]),
    /// One group, of groups of numbers.
    Groups(&'static [&'static [i128]]),
    /// One group, of bytes as bytes.
    Bytes(&'static [u8]),
}

fn numbers_of(alloc: Global, numbers: &[i128]) -> Result<Vec<Value>, AllocError> {
    let mut values = Vec::new(alloc);
    for number in numbers {
        values.push(Value::Number(*number))?;
    }
    Ok(values)
}

fn groups_of(alloc: Global, groups: &[&[i128]]) -> Result<Vec<Value>, AllocError> {
    let mut values = Vec::new(alloc);
    for numbers in groups {
        let group = numbers_of(alloc, numbers)?;
        values.push(Value::Group(Values::new(group)))?;
    }
    Ok(values)
}

/// One group of these values.
fn group_of(alloc: Global, values: Values) -> Result<Vec<Value>, AllocError> {
    let mut group = Vec::new(alloc);
    group.push(Value::Group(values))?;
    Ok(group)
}

fn values_of(alloc: Global, given: &Given) -> Result<Vec<Value>, AllocError> {
    match *given {
        Given::Numbers(numbers) => numbers_of(alloc, numbers),
        Given::Group(numbers) => group_of(alloc, Values::new(numbers_of(alloc, numbers)?)),
        Given::Groups(groups) => group_of(alloc, Values::new(groups_of(alloc, groups)?)),
        Given::Bytes(bytes) => group_of(alloc, Values::of_bytes(Vec::from_slice(alloc, bytes)?)),
    }
}

/// Texts, with numbers of their types, and the bytes that these are.
static BOTH_WAYS: [(&[u8], &[i128], &[u8]); 14] = [
    (ADD, &[1, 2], &[0, 0, 0, 1, 0, 0, 0, 2]),
    (BOOLEAN, &[0], &[0]),
    (BOOLEAN, &[1], &[1]),
    (BYTE, &[0], &[0]),
    (BYTE, &[255], &[255]),
    (CHOICE, &[0], &[0, 0]),
    (CHOICE, &[2], &[0, 2]),
    (CARDINAL, &[0], &[0; 4]),
    (CARDINAL, &[4294967295], &[255; 4]),
    (INTEGER, &[-2147483648], &[128, 0, 0, 0]),
    (INTEGER, &[-1], &[255; 4]),
    (INTEGER, &[2147483647], &[127, 255, 255, 255]),
    (LONGCARD, &[0], &[0; 8]),
    (LONGCARD, &[18446744073709551615], &[255; 8]),
];

fn are_numbers(values: &[Value], numbers: &[i128]) -> bool {
    for (value, number) in values.iter().zip(numbers.iter()) {
        if !matches!(value, Value::Number(n) if n == number) {
            return false;
        }
    }
    values.len() == numbers.len()
}

/// What comes of values that are put into so many bytes, each 9, and the bytes then.
fn put_in(
    alloc: Global,
    plan: &Plan,
    values: &[Value],
    len: usize,
) -> Option<(Result<usize, PutFault>, Vec<u8>)> {
    let mut room = vec![in alloc; 9u8; len].ok()?;
    let answer = put(plan, values, &mut room);
    Some((answer, room))
}

/// Whether the numbers are put as these bytes at the front of 9 bytes, and got of them.
fn go_both_ways(alloc: Global, text: &[u8], numbers: &[i128], bytes: &[u8]) -> Option<bool> {
    let plan = plan_of(alloc, text)?;
    let values = numbers_of(alloc, numbers).ok()?;
    let (answer, room) = put_in(alloc, &plan, &values, 9)?;
    let back = get(alloc, &plan, bytes).ok()?;
    Some(
        answer == Ok(bytes.len())
            && room.starts_with(bytes)
            && room.get(bytes.len()) == Some(&9)
            && are_numbers(&back, numbers),
    )
}

#[test]
fn numbers_are_put_and_got(rt: HostRuntime) {
    for (text, numbers, bytes) in BOTH_WAYS.iter() {
        assert!(rt; go_both_ways(rt.alloc(), text, numbers, bytes) == Some(true));
    }
}

/// Texts, with values that aren't put into a room of so many bytes, and why.
static NOT_PUT: [(&[u8], Given, usize, PutFault); 10] = [
    (BOOLEAN, Given::Numbers(&[2]), 9, PutFault::Shape),
    (BYTE, Given::Numbers(&[256]), 9, PutFault::Shape),
    (CHOICE, Given::Numbers(&[3]), 9, PutFault::Shape),
    (CARDINAL, Given::Numbers(&[4294967296]), 9, PutFault::Shape),
    (INTEGER, Given::Numbers(&[-2147483649]), 9, PutFault::Shape),
    (INTEGER, Given::Numbers(&[2147483648]), 9, PutFault::Shape),
    (
        LONGCARD,
        Given::Numbers(&[18446744073709551616]),
        9,
        PutFault::Shape,
    ),
    // another number of values, and a value of another type
    (ADD, Given::Numbers(&[1]), 7, PutFault::Shape),
    (ADD, Given::Group(&[1, 2]), 7, PutFault::Shape),
    (ADD, Given::Numbers(&[1, 2]), 7, PutFault::Room),
];

fn put_fault(alloc: Global, text: &[u8], given: &Given, len: usize) -> Option<PutFault> {
    let values = values_of(alloc, given).ok()?;
    let (answer, _) = put_in(alloc, &plan_of(alloc, text)?, &values, len)?;
    answer.err()
}

#[test]
fn other_values_and_too_little_room_are_refused(rt: HostRuntime) {
    for (text, given, len, fault) in NOT_PUT.iter() {
        assert!(rt; put_fault(rt.alloc(), text, given, *len) == Some(*fault));
    }
}

/// Texts, with bytes that aren't got, and why.
static NOT_GOT: [(&[u8], &[u8], GetFault); 5] = [
    (ADD, &[0, 0, 0, 1, 0, 0, 0], GetFault::Short { at: 4 }),
    (ADD, &[0, 0, 0, 1, 0, 0, 0, 2, 0], GetFault::Left { at: 8 }),
    (BOOLEAN, &[2], GetFault::Range { at: 0 }),
    // a count above its limit, and one with too few bytes
    (TWO, &[0, 0, 0, 3, 7, 7, 7], GetFault::Range { at: 0 }),
    (TWO, &[0, 0, 0, 2, 7], GetFault::Short { at: 5 }),
];

fn fault_of(alloc: Global, text: &[u8], bytes: &[u8]) -> Option<GetFault> {
    get(alloc, &plan_of(alloc, text)?, bytes).err()
}

#[test]
fn bytes_of_no_values_are_refused(rt: HostRuntime) {
    for (text, bytes, fault) in NOT_GOT.iter() {
        assert!(rt; fault_of(rt.alloc(), text, bytes) == Some(*fault));
    }
}

/// Whether the values are put as these bytes, in a room of just so many.
fn is_put(alloc: Global, plan: &Plan, values: &[Value], bytes: &[u8]) -> Option<bool> {
    let (answer, room) = put_in(alloc, plan, values, bytes.len())?;
    Some(answer == Ok(bytes.len()) && room.as_slice() == bytes)
}

const RECORD_BYTES: &[u8] = &[1, 0, 0, 0, 0, 0, 0, 0, 2, 3, 0, 0, 0, 0, 0, 0, 0, 4];

/// Texts, with values that are groups, and their bytes.
static PUT: [(&[u8], Given, &[u8]); 4] = [
    (RECORDS, Given::Groups(&[&[1, 2], &[3, 4]]), RECORD_BYTES),
    (NINE, Given::Bytes(&[5, 255]), &[0, 0, 0, 2, 5, 255]),
    // numbers where bytes are wanted, and bytes where numbers are wanted
    (NINE, Given::Group(&[5, 255]), &[0, 0, 0, 2, 5, 255]),
    (WIDE, Given::Bytes(&[5, 255]), &[0, 0, 0, 5, 0, 0, 0, 255]),
];

fn are_put(alloc: Global, text: &[u8], given: &Given, bytes: &[u8]) -> Option<bool> {
    let values = values_of(alloc, given).ok()?;
    is_put(alloc, &plan_of(alloc, text)?, &values, bytes)
}

#[test]
fn arrays_of_records_and_of_bytes_are_put(rt: HostRuntime) {
    for (text, given, bytes) in PUT.iter() {
        assert!(rt; are_put(rt.alloc(), text, given, bytes) == Some(true));
    }
}

/// Whether what is got of the bytes is put as them.
fn are_put_again(alloc: Global, text: &[u8], bytes: &[u8]) -> Option<bool> {
    let plan = plan_of(alloc, text)?;
    let back = get(alloc, &plan, bytes).ok()?;
    is_put(alloc, &plan, &back, bytes)
}

#[test]
fn an_array_of_records_is_got(rt: HostRuntime) {
    assert!(rt; are_put_again(rt.alloc(), RECORDS, RECORD_BYTES) == Some(true));
}

/// Whether what is got is one group, of these bytes as bytes.
fn are_got_as_bytes(alloc: Global, text: &[u8], bytes: &[u8], packed: &[u8]) -> Option<bool> {
    let back = get(alloc, &plan_of(alloc, text)?, bytes).ok()?;
    match back.as_slice() {
        [Value::Group(group)] => Some(group.as_bytes() == packed && group.as_slice().is_empty()),
        _ => None,
    }
}

#[test]
fn bytes_are_got_as_bytes(rt: HostRuntime) {
    let bytes = [0, 0, 0, 2, 5, 255];
    assert!(rt; are_got_as_bytes(rt.alloc(), NINE, &bytes, &[5, 255]) == Some(true));
}

fn plan_len(alloc: Global, text: &[u8]) -> Option<usize> {
    Some(plan_of(alloc, text)?.as_slice().len())
}

#[test]
fn types_of_depth_16_are_compiled(rt: HostRuntime) {
    assert!(rt; plan_len(rt.alloc(), DEEP) == Some(31));
    assert!(rt; are_put_again(rt.alloc(), DEEP, &[0, 0, 0, 9]) == Some(true));
}

/// The procedure, with its arguments in a record.
fn with_record(alloc: Global, procedure: Procedure) -> Result<Procedure, AllocError> {
    let mut arguments = Vec::new(alloc);
    arguments.push(Shape::Fields(procedure.arguments.into_vec()))?;
    Ok(Procedure {
        arguments: Items::new(arguments),
        ..procedure
    })
}

fn one(alloc: Global, procedure: Procedure) -> Result<Items<Procedure>, AllocError> {
    let mut procedures = Vec::new(alloc);
    procedures.push(procedure)?;
    Ok(Items::new(procedures))
}

/// An interface of the last procedure, with its arguments in a record.
fn one_deeper(alloc: Global, interface: Interface) -> Option<Interface> {
    let Interface {
        name,
        exceptions,
        procedures,
    } = interface;
    let procedure = with_record(alloc, procedures.into_vec().pop()?).ok()?;
    Some(Interface {
        name,
        exceptions,
        procedures: one(alloc, procedure).ok()?,
    })
}

/// Whether the types of a text are shallow, and whether they are with the arguments in a record.
fn are_shallow(alloc: Global, text: &[u8]) -> Option<(bool, bool)> {
    if text.len() > 1000 {
        return None;
    }
    let interface = parse(alloc, text).ok()?;
    let shallow = is_shallow(&interface);
    Some((shallow, is_shallow(&one_deeper(alloc, interface)?)))
}

#[test]
fn types_of_depth_17_are_told(rt: HostRuntime) {
    assert!(rt; are_shallow(rt.alloc(), DEEP) == Some((true, false)));
}
