//! What holds of headers, their spellings and their call numbers. Each function here does nothing: its
//! contract is the law.

ghost use Rattle.std.specs.Prelude.{◌≡◌, ◌<◌, ◌++◌, ℕ, List, length, All};
ghost use Rattle.rpc_header.specs.declared.CallNumber.{CallNumber};
ghost use Rattle.rpc_header.specs.declared.Header.{Header};
ghost use Rattle.rpc_header.specs.Limits.{header_len};
ghost use Rattle.rpc_header.specs.Reading.{Accepted, call_number_of, read_of};
ghost use Rattle.rpc_header.specs.Spelling.{FitsFields, HasSpelling, spelling};

/// A spelling with its data behind it is read as that header and that data.
pub fn what_is_written_is_read()
    ensures { (h : Header) (d : List ℕ) → FitsFields h → HasSpelling h (length d)
        → read_of (spelling h (length d) ++ d) ≡ Accepted h d }
{}

/// What is read as a header and data is the spelling of that header, and then the data. So a
/// header has no second spelling, and no spelling a second reading.
pub fn what_is_read_was_written()
    ensures { (bytes : List ℕ) (h : Header) (d : List ℕ) → All (λ byte. byte < 256) bytes → read_of bytes ≡ Accepted h d
        → HasSpelling h (length d) × (bytes ≡ spelling h (length d) ++ d) }
{}

/// A spelling is 32 bytes, also that of numbers which have no room in their fields.
pub fn a_spelling_is_32_bytes()
    ensures count { (h : Header) (len : ℕ) → length (spelling h len) ≡ header_len }
    ensures bytes { (h : Header) (len : ℕ) → All (λ byte. byte < 256) (spelling h len) }
{}

/// A call number is the one call number of its value.
pub fn a_call_number_is_its_value()
    ensures { (number : CallNumber) → call_number_of number.value ≡ number }
{}
