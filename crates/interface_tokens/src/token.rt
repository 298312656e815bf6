//! Tokens.

ghost use Rattle.std.specs.Prelude.{◌≡◌, ◌∷◌, []};
ghost use Rattle.interface_tokens.specs.Names.{is_same};
ghost use Rattle.interface_tokens.specs.Tokens.{first_spelled, sign_of, spelling_of, word_of, words_from};

use crate::ident::Ident;
use crate::place::Place;

/// A word that is reserved.
#[derive(Clone, Copy)]
pub enum Word {
    Interface,
    End,
    Type,
    Exception,
    Procedure,
    Var,
    In,
    Out,
    Raises,
    Boolean,
    Byte,
    Char,
    Cardinal,
    Integer,
    Longcard,
    Array,
    Of,
    Upto,
    Record,
}

/// A token of one byte, with its code.
#[derive(Clone, Copy)]
pub enum Sign {
    Semicolon = 59,
    Colon = 58,
    Comma = 44,
    Open = 40,
    Close = 41,
    OpenBrace = 123,
    CloseBrace = 125,
    Equals = 61,
    FullStop = 46,
}

/// A token.
#[derive(Clone, Copy)]
pub enum Token {
    Word(Word),
    Sign(Sign),
    Name(Ident),
    /// A name of more than 32 bytes.
    LongName,
    /// A number. One above the greatest that an array may have counts as one above it.
    Number(u32),
}

/// A token and the place of its first byte.
#[derive(Clone, Copy)]
pub struct Spot {
    pub token: Token,
    pub place: Place,
}

/// The word that some bytes are, if it is reserved.
pub(crate) fn word_of(bytes: &[u8]) -> Option<Word>
    ensures { result ≡ word_of bytes.now }
{
    match bytes {
        [first, ..] => word_from(*first, bytes),
        [] => None,
    }
}

/// The word that some bytes are, among those that begin with a byte.
fn word_from(first: u8, bytes: &[u8]) -> Option<Word>
    ensures { result ≡ first_spelled bytes.now (words_from first) }
{
    match first {
        b'A' => only(Word::Array, bytes),
        b'B' => either(Word::Boolean, Word::Byte, bytes),
        b'C' => either(Word::Char, Word::Cardinal, bytes),
        b'E' => either(Word::End, Word::Exception, bytes),
        b'I' if bytes.len() == 2 => only(Word::In, bytes),
        b'I' => either(Word::Interface, Word::Integer, bytes),
        b'L' => only(Word::Longcard, bytes),
        b'O' => either(Word::Out, Word::Of, bytes),
        b'P' => only(Word::Procedure, bytes),
        b'R' => either(Word::Raises, Word::Record, bytes),
        b'T' => only(Word::Type, bytes),
        b'U' => only(Word::Upto, bytes),
        b'V' => only(Word::Var, bytes),
        _ => None,
    }
}

/// The one of these words that some bytes spell.
fn either(word: Word, other: Word, bytes: &[u8]) -> Option<Word>
    ensures { result ≡ first_spelled bytes.now (word ∷ other ∷ []) }
{
    if spells(bytes, word) {
        Some(word)
    } else {
        only(other, bytes)
    }
}

/// This word, if some bytes spell it.
fn only(word: Word, bytes: &[u8]) -> Option<Word>
    ensures { result ≡ first_spelled bytes.now (word ∷ []) }
{
    spells(bytes, word).then_some(word)
}

/// Whether some bytes are a word's letters. Their number comes first: few names have it.
fn spells(bytes: &[u8], word: Word) -> bool
    ensures { result ≡ is_same bytes.now (spelling_of word) }
{
    let letters = spelling(word);
    bytes.len() == letters.len() && bytes.iter().eq(letters)
}

fn spelling(word: Word) -> &'static [u8]
    ensures { result.now ≡ spelling_of word }
{
    match word {
        Word::Interface => b"INTERFACE",
        Word::End => b"END",
        Word::Type => b"TYPE",
        Word::Exception => b"EXCEPTION",
        Word::Procedure => b"PROCEDURE",
        Word::Var => b"VAR",
        Word::In => b"IN",
        Word::Out => b"OUT",
        Word::Raises => b"RAISES",
        Word::Boolean => b"BOOLEAN",
        Word::Byte => b"BYTE",
        Word::Char => b"CHAR",
        Word::Cardinal => b"CARDINAL",
        Word::Integer => b"INTEGER",
        Word::Longcard => b"LONGCARD",
        Word::Array => b"ARRAY",
        Word::Of => b"OF",
        Word::Upto => b"UPTO",
        Word::Record => b"RECORD",
    }
}

/// The sign that a byte is.
#[tactic(auto, unfolding(crate::specs::Tokens::sign_of))]
pub(crate) fn sign_of(byte: u8) -> Option<Sign>
    ensures { result ≡ sign_of byte }
{
    match byte {
        b';' => Some(Sign::Semicolon),
        b':' => Some(Sign::Colon),
        b',' => Some(Sign::Comma),
        b'(' => Some(Sign::Open),
        b')' => Some(Sign::Close),
        b'{' => Some(Sign::OpenBrace),
        b'}' => Some(Sign::CloseBrace),
        b'=' => Some(Sign::Equals),
        b'.' => Some(Sign::FullStop),
        _ => None,
    }
}
