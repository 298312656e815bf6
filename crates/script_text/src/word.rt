//! The words of a line, one after the other.
ghost use Rattle.std.specs.Prelude.{◌≡◌, [], ◌∷◌, MatchOption, position, not, true};
ghost use Rattle.std.specs.List.{list_all};
ghost use Rattle.replay_model.specs.Script.{is_blank, words_of};
ghost use Rattle.replay_model.specs.TextFault.{is_byte_of_line};
ghost use Rattle.script_text.specs.Lines.{is_plain, is_plain_byte};
ghost use Rattle.script_text.specs.Words.{BeginsWithNoBlank, HasNone, HasOne, HasTwo, HasProcess, HasTicks, HasCall};

use replay_model::TextFault;

/// A blank stands between words. One comparison tells most other bytes from it.
fn is_blank(byte: u8) -> bool
    ensures { result ≡ is_blank byte }
{
    byte <= b' ' && matches!(byte, b' ' | b'\t')
}

/// Whether the line has only bytes that a line may have: blanks and printable ASCII.
fn has_bytes_of_line(line: &[u8]) -> bool
    ensures { result ≡ list_all is_byte_of_line line.now }
{
    line.iter().all(|byte| is_byte_of_line(*byte))
}

/// Whether a text has only bytes that a line may have, and newlines. Each byte is looked at, so that vectors serve.
pub fn is_plain(text: &[u8]) -> bool
    ensures { result ≡ is_plain text.now }
{
    let mut plain = true;
    for byte in text {
        plain &= is_plain_byte(*byte);
    }
    plain
}

fn is_plain_byte(byte: u8) -> bool
    ensures { result ≡ is_plain_byte byte }
{
    matches!(byte, b'\t' | b'\n' | b' '..=b'~')
}

/// Whether a line has only bytes that a line may have. They aren't looked at where its text is plain.
pub fn is_fine(line: &[u8], plain: bool) -> bool
    requires { plain ≡ true → list_all is_byte_of_line line.now ≡ true }
    ensures { result ≡ list_all is_byte_of_line line.now }
{
    plain || has_bytes_of_line(line)
}

fn is_byte_of_line(byte: u8) -> bool
    ensures { result ≡ is_byte_of_line byte }
{
    matches!(byte, b'\t' | b' '..=b'~')
}

/// The first word of a line, and the rest of the line behind it.
pub fn first_word(line: &[u8]) -> Option<(&[u8], &[u8])>
    ensures { MatchOption result (words_of line.now ≡ []) (λ r. words_of line.now ≡ r.0.now ∷ words_of r.1.now) }
{
    let line = without_blanks(line);
    if line.is_empty() {
        return None;
    }
    match first_blank(line) {
        Some(end) => Some((&line[..end], &line[end..])),
        None => Some((line, &[])),
    }
}

/// A line without the blanks that it begins with.
fn without_blanks(line: &[u8]) -> &[u8]
    ensures same { words_of result.now ≡ words_of line.now }
    ensures begins { BeginsWithNoBlank result.now }
{
    match first_of_word(line) {
        Some(start) => &line[start..],
        None => &[],
    }
}

fn first_of_word(line: &[u8]) -> Option<usize>
    ensures { result ≡ position (λ b. not (is_blank b)) line.now }
{
    line.iter().position(|byte| !is_blank(*byte))
}

fn first_blank(line: &[u8]) -> Option<usize>
    ensures { result ≡ position is_blank line.now }
{
    line.iter().position(|byte| is_blank(*byte))
}

/// Nothing, where no word stands here.
pub fn no_words(rest: &[u8]) -> Result<(), TextFault>
    ensures { HasNone (words_of rest.now) result }
{
    match first_word(rest) {
        None => Ok(()),
        Some(_) => Err(TextFault::Shape),
    }
}

/// The one word that stands here.
pub fn one_word(rest: &[u8]) -> Result<&[u8], TextFault>
    ensures { HasOne (words_of rest.now) result }
{
    let Some((word, rest)) = first_word(rest) else {
        return Err(TextFault::Shape);
    };
    no_words(rest)?;
    Ok(word)
}

/// The two words that stand here.
pub fn two_words(rest: &[u8]) -> Result<(&[u8], &[u8]), TextFault>
    ensures { HasTwo (words_of rest.now) result }
{
    let Some((word, rest)) = first_word(rest) else {
        return Err(TextFault::Shape);
    };
    let other = one_word(rest)?;
    Ok((word, other))
}

/// How a line goes on behind its first word that is about a process.
#[derive(Clone, Copy)]
pub struct ProcessWords<'a> {
    pub machine: &'a [u8],
    pub process: &'a [u8],
    pub word: &'a [u8],
}

/// The three words that stand here.
pub fn process_words(rest: &[u8]) -> Result<ProcessWords<'_>, TextFault>
    ensures { HasProcess (words_of rest.now) result }
{
    let Some((machine, rest)) = first_word(rest) else {
        return Err(TextFault::Shape);
    };
    let (process, word) = two_words(rest)?;
    Ok(ProcessWords {
        machine,
        process,
        word,
    })
}

/// How a line of ticks goes on behind its first word. Their number may be left out.
#[derive(Clone, Copy)]
pub struct TickWords<'a> {
    pub machine: &'a [u8],
    pub process: &'a [u8],
    pub count: Option<&'a [u8]>,
}

/// The two or three words that stand here.
pub fn tick_words(rest: &[u8]) -> Result<TickWords<'_>, TextFault>
    ensures { HasTicks (words_of rest.now) result }
{
    let Some((machine, rest)) = first_word(rest) else {
        return Err(TextFault::Shape);
    };
    let Some((process, rest)) = first_word(rest) else {
        return Err(TextFault::Shape);
    };
    let Some((count, rest)) = first_word(rest) else {
        return Ok(TickWords {
            machine,
            process,
            count: None,
        });
    };
    no_words(rest)?;
    Ok(TickWords {
        machine,
        process,
        count: Some(count),
    })
}

/// How a line of a call goes on behind its first word.
#[derive(Clone, Copy)]
pub struct CallWords<'a> {
    pub machine: &'a [u8],
    pub process: &'a [u8],
    pub asked: &'a [u8],
    pub rest: &'a [u8],
}

/// The three words that stand here, and what is behind them.
pub fn call_words(rest: &[u8]) -> Result<CallWords<'_>, TextFault>
    ensures { HasCall (words_of rest.now) result }
{
    let Some((machine, rest)) = first_word(rest) else {
        return Err(TextFault::Shape);
    };
    let Some((process, rest)) = first_word(rest) else {
        return Err(TextFault::Shape);
    };
    let Some((asked, rest)) = first_word(rest) else {
        return Err(TextFault::Shape);
    };
    Ok(CallWords {
        machine,
        process,
        asked,
        rest,
    })
}
