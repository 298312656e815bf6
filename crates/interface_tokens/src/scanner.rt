//! From bytes to tokens, a byte at a time.
ghost use Rattle.std.specs.Prelude.{◌≡◌, ◌<◌, ◌≤◌, ◌+◌, OnOk, IfOk, length, false};
ghost use Rattle.interface_tokens.specs.Tokens as spec;
ghost use Rattle.interface_tokens.specs.Scanning.{scan_of, tokens_view};

use crate::ident::Ident;
use crate::limits::MAX_ARRAY_LEN;
use crate::place::{Place, START};
use crate::token::{Sign, Spot, Token, sign_of, word_of};
use std::alloc::{AllocError, Global};

/// Where a scanner is.
#[derive(Clone, Copy)]
pub(crate) enum Mode {
    /// Between tokens.
    Between,
    /// Behind a parenthesis, which may begin a comment.
    Parenthesis(Place),
    /// In a comment.
    Comment(Place),
    /// Behind a star in a comment.
    Star(Place),
    /// In a name or a reserved word.
    Letters(Place),
    /// In a number, of which this much has come.
    Digits(Place, u32),
    /// At a byte that begins no token.
    Stopped(Place),
}

/// How the tokens end.
#[derive(Clone, Copy)]
pub enum Ending {
    /// At the end of the text.
    Text,
    /// At a byte that begins no token.
    Character,
    /// At a comment without an end.
    OpenComment,
}

/// The tokens of a text.
#[derive(Drop)]
pub struct Tokens {
    pub spots: Vec<Spot>,
    pub ending: Ending,
    pub end: Place,
}

/// What has been read of a text.
#[derive(Drop)]
pub(crate) struct Scanner {
    /// The place of the next byte.
    here: Place,
    mode: Mode,
    /// The letters of the name or word that is being read.
    letters: Vec<u8>,
    spots: Vec<Spot>,
}

impl Scanner {
    fn new(alloc: Global) -> Self
        ensures { scan_of result ≡ spec.beginning }
    {
        Scanner {
            here: START,
            mode: Mode::Between,
            letters: Vec::new(alloc),
            spots: Vec::new(alloc),
        }
    }

    #[tactic(auto, unfolding(crate::specs::Tokens::take))]
    fn take(&mut self, byte: u8) -> Result<(), AllocError>
        requires line { self.old.here.line < u32.MAX }
        requires column { self.old.here.column < u32.MAX }
        ensures scan { OnOk result (scan_of self.new ≡ spec.take (scan_of self.old) byte) }
        ensures here { OnOk result (self.new.here ≡ spec.behind self.old.here byte) }
    {
        let next = self.here.behind(byte);
        match self.mode {
            Mode::Between => self.begin(byte)?,
            Mode::Parenthesis(place) => {
                if byte == b'*' {
                    self.mode = Mode::Comment(place);
                } else {
                    self.push(Token::Sign(Sign::Open), place)?;
                    self.begin(byte)?;
                }
            }
            Mode::Comment(place) => {
                if byte == b'*' {
                    self.mode = Mode::Star(place);
                }
            }
            Mode::Star(place) => self.mode = behind_star(place, byte),
            Mode::Letters(place) => {
                if byte.is_ascii_alphanumeric() {
                    self.letters.push(byte)?;
                } else {
                    self.end_letters(place)?;
                    self.begin(byte)?;
                }
            }
            Mode::Digits(place, number) => {
                if byte.is_ascii_digit() {
                    self.mode = Mode::Digits(place, with_digit(number, byte));
                } else {
                    self.push(Token::Number(number), place)?;
                    self.begin(byte)?;
                }
            }
            Mode::Stopped(_) => {}
        }
        self.here = next;
        Ok(())
    }

    /// Takes a byte that continues no token.
    #[tactic(auto, unfolding(crate::specs::Tokens::begin))]
    fn begin(&mut self, byte: u8) -> Result<(), AllocError>
        ensures { OnOk result (scan_of self.new ≡ spec.begin (scan_of self.old) byte) }
    {
        self.mode = Mode::Between;
        if byte.is_ascii_alphabetic() {
            self.letters.clear();
            self.letters.push(byte)?;
            self.mode = Mode::Letters(self.here);
        } else if byte.is_ascii_digit() {
            self.mode = Mode::Digits(self.here, with_digit(0, byte));
        } else if byte == b'(' {
            self.mode = Mode::Parenthesis(self.here);
        } else if let Some(sign) = sign_of(byte) {
            self.push(Token::Sign(sign), self.here)?;
        } else if !is_blank(byte) {
            self.mode = Mode::Stopped(self.here);
        }
        Ok(())
    }

    fn push(&mut self, token: Token, place: Place) -> Result<(), AllocError>
        ensures { OnOk result (scan_of self.new ≡ spec.with_token (scan_of self.old) token place) }
    {
        self.spots.push(Spot { token, place })?;
        Ok(())
    }

    fn end_letters(&mut self, place: Place) -> Result<(), AllocError>
        ensures { OnOk result (scan_of self.new ≡ spec.with_token (scan_of self.old) (spec.letters_of self.old.letters.items) place) }
    {
        let token = letters_of(self.letters.as_slice());
        self.push(token, place)
    }

    /// Takes the end of the text.
    fn finish(mut self) -> Result<Tokens, AllocError>
        ensures { IfOk result (λ tokens. tokens_view tokens ≡ spec.finish (scan_of self) self.mode) }
    {
        let here = self.here;
        match self.mode {
            Mode::Between => Ok(self.end(Ending::Text, here)),
            Mode::Parenthesis(place) => {
                self.push(Token::Sign(Sign::Open), place)?;
                Ok(self.end(Ending::Text, here))
            }
            Mode::Comment(place) | Mode::Star(place) => Ok(self.end(Ending::OpenComment, place)),
            Mode::Letters(place) => {
                self.end_letters(place)?;
                Ok(self.end(Ending::Text, here))
            }
            Mode::Digits(place, number) => {
                self.push(Token::Number(number), place)?;
                Ok(self.end(Ending::Text, here))
            }
            Mode::Stopped(place) => Ok(self.end(Ending::Character, place)),
        }
    }

    fn end(self, ending: Ending, end: Place) -> Tokens
        ensures { tokens_view result ≡ record { spots = self.spots.items; ending = ending; end = end } }
    {
        Tokens {
            spots: self.spots,
            ending,
            end,
        }
    }
}

/// The tokens of a text.
pub fn tokens_of(alloc: Global, text: &[u8]) -> Result<Tokens, AllocError>
    requires { length text.now < u32.MAX }
    ensures { IfOk result (λ tokens. tokens_view tokens ≡ spec.tokens_of text.now) }
{
    let mut scanner = Scanner::new(alloc);
    for byte in text {
        scanner.take(*byte)?;
    }
    scanner.finish()
}

/// The token that letters and digits are.
#[tactic(auto, unfolding(crate::specs::Tokens::letters_of))]
fn letters_of(bytes: &[u8]) -> Token
    ensures { result ≡ spec.letters_of bytes.now }
{
    if let Some(word) = word_of(bytes) {
        return Token::Word(word);
    }
    match Ident::read(bytes) {
        Some(name) => Token::Name(name),
        None => Token::LongName,
    }
}

/// A number with one more digit behind it. All that are too large are as one.
fn with_digit(number: u32, digit: u8) -> u32
    requires { 48 ≤ digit }
    ensures { result ≡ spec.with_digit number digit }
{
    let longer = u64::from(number) * 10 + u64::from(digit - b'0');
    longer.min(u64::from(MAX_ARRAY_LEN) + 1) as u32
}

fn behind_star(place: Place, byte: u8) -> Mode
    ensures { result ≡ spec.behind_star place byte }
{
    match byte {
        b')' => Mode::Between,
        b'*' => Mode::Star(place),
        _ => Mode::Comment(place),
    }
}

fn is_blank(byte: u8) -> bool
    ensures { result ≡ spec.is_blank byte }
{
    matches!(byte, b' ' | b'\t' | b'\r' | b'\n')
}
