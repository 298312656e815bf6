//! Values that calls carry.
ghost use Rattle.std.specs.Prelude.{◌≡◌};

/// A value of some type. A BOOLEAN is 0 or 1, an enumeration its ordinal, a BYTE or CHAR its code.
#[cycle(value)]
#[derive(Drop)]
pub enum Value {
    /// A number.
    Number(i128),
    /// The elements of an array, or the fields of a record.
    Group(Values),
}

/// A list of values. Contracts see it as `data_in`. Numbers that are bytes may stand at its front as bytes, so that an array of bytes is
/// copied and not taken apart; such a list equals that of the same numbers as values. No call of it takes memory.
#[cycle(value)]
#[derive(Drop)]
pub struct Values {
    bytes: Vec<u8>,
    others: Vec<Value>,
}

impl Values {
    ghost use Rattle.std.specs.Prelude.{[]};
    ghost use Rattle.marshal_plans.specs.Data.{data_of, data_in, behind_bytes, bytes_in, no_data};

    /// The values of the vector.
    pub fn new(values: Vec<Value>) -> Values
        ensures values { data_in result ≡ data_of values.items }
        ensures bytes { bytes_in result ≡ [] }
    {
        let bytes = Vec::new(*values.allocator());
        Values {
            bytes,
            others: values,
        }
    }

    /// The bytes of the vector, as values.
    pub fn of_bytes(bytes: Vec<u8>) -> Values
        ensures values { data_in result ≡ behind_bytes bytes.items no_data }
        ensures bytes { bytes_in result ≡ bytes.items }
    {
        let others = Vec::new(*bytes.allocator());
        Values { bytes, others }
    }

    /// The values at its front that it has as bytes.
    pub fn as_bytes(&self) -> &[u8]
        ensures { result.now ≡ bytes_in self.now }
    {
        self.bytes.as_slice()
    }

    /// The values behind those bytes.
    pub fn as_slice(&self) -> &[Value]
        ensures { data_in self.now ≡ behind_bytes (bytes_in self.now) (data_of result.now) }
    {
        self.others.as_slice()
    }
}
