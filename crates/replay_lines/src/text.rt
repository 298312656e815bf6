//! Printing into a text, and onto a page.

ghost use Rattle.std.specs.Prelude.{◌≡◌, ℕ, List, [], ◌++◌, OnOk, IfSome, Some};
ghost use Rattle.std.specs.Fmt.{AppendsText};
ghost use Rattle.std.specs.Io.KnownBytes.{Appends};
ghost use Rattle.replay_lines.specs.Page as page;
ghost use Rattle.replay_lines.specs.Page.{blank_page, page_of, written};

use std::alloc::{AllocError, Global};
use std::fmt::{self, Display, Write};
use std::marker::Model;

/// A text that is printed into.
pub trait Print {
    /// Appends a value as `{}` prints it, which takes memory only where the text grows. This is what `writeln!` calls.
    fn write_fmt<D: Display + Drop>(&mut self, value: D) -> Result<(), AllocError>;
}

impl Print for Vec<u8> {
    fn write_fmt<D: Display + Drop>(&mut self, value: D) -> Result<(), AllocError>
        ensures { OnOk result (AppendsText self.old.items self.new.items (D.output value)) }
    {
        let mut end = End { text: self };
        match end.write(value) {
            Ok(()) => Ok(()),
            Err(_) => Err(AllocError),
        }
    }
}

/// A text that lines are printed onto, or a blank page, which takes none: what isn't read need not be formatted.
#[derive(Drop)]
pub struct Page {
    text: Vec<u8>,
    is_blank: bool,
}

impl Model for Page {
    ghost use Rattle.replay_lines.specs.Page.{Page};

    ghost Value = { Page };

    ghost view = { λ p. record { text = p.text.items; blank = p.is_blank } };
}

impl Page {
    /// A page that has this text already.
    pub fn of(text: Vec<u8>) -> Self
        ensures { result ≡ page_of text.items }
    {
        Page {
            text,
            is_blank: false,
        }
    }

    /// A page that stays blank.
    pub fn blank(alloc: Global) -> Self
        ensures { result ≡ blank_page }
    {
        Page {
            text: Vec::new(alloc),
            is_blank: true,
        }
    }

    /// Its text.
    pub fn into_text(self) -> Vec<u8>
        ensures { result.items ≡ self.text }
    {
        self.text
    }
}

impl Print for Page {
    fn write_fmt<D: Display + Drop>(&mut self, value: D) -> Result<(), AllocError>
        ensures { OnOk result (IfSome (D.output value) (λ bytes. self.new ≡ written self.old bytes)) }
    {
        if self.is_blank {
            return Ok(());
        }
        self.text.write_fmt(value)
    }
}

/// How lines come onto a page: one after another, and none onto a blank one.
pub fn pages_join()
    ensures joined { (p : page.Page) (a b : List ℕ) → written (written p a) b ≡ written p (a ++ b) }
    ensures nothing { (p : page.Page) → written p [] ≡ p }
    ensures text { (text lines : List ℕ) → written (page_of text) lines ≡ page_of (text ++ lines) }
    ensures blank { (lines : List ℕ) → written blank_page lines ≡ blank_page }
{}

/// The end of a text, as a writer.
#[derive(Drop)]
struct End<'a> {
    text: &'a mut Vec<u8>,
}

impl fmt::Write for End<'_> {
    ghost write_str_gives = { λ s bytes t. (t.text.ghost_name ≡ s.text.ghost_name) × Appends (Some s.text.now.items) (Some t.text.now.items) bytes };

    fn write_str(&mut self, s: &str) -> fmt::Result {
        match self.text.extend_from_slice(s.as_bytes()) {
            Ok(()) => Ok(()),
            Err(_) => Err(fmt::Error),
        }
    }
}
