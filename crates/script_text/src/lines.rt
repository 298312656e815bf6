//! The lines of a text.
ghost use Rattle.std.specs.Prelude.{◌≡◌, ◌≤◌, position, length, count_by};
ghost use Rattle.replay_model.specs.Script.{lines_of_text, is_newline, without_return};
ghost use Rattle.replay_model.specs.TextFault.{line_count, ends_with_newline};
ghost use Rattle.script_text.specs.Lines.{IsFirstLine, IsShorter};

/// How many bytes are counted at a time: so few that their number is one byte, which vectors have most lanes for.
const BLOCK: usize = 192;

/// The number of lines of a text: each ends with a newline, which the last may lack.
pub fn count_lines(text: &[u8]) -> usize
    ensures { result ≡ line_count text.now }
{
    let newlines = count_newlines(text);
    if ends_with_newline(text) {
        newlines
    } else {
        newlines + 1
    }
}

fn count_newlines(text: &[u8]) -> usize
    ensures newlines { result ≡ count_by is_newline text.now }
    ensures few { result ≤ length text.now }
{
    let mut newlines = 0;
    let mut rest = text;
    while !rest.is_empty() {
        let (block, behind) = rest.split_at(rest.len().min(BLOCK));
        newlines += usize::from(count_in_block(block));
        rest = behind;
    }
    newlines
}

fn count_in_block(block: &[u8]) -> u8
    requires { length block.now ≤ BLOCK }
    ensures { result ≡ count_by is_newline block.now }
{
    let mut newlines = 0;
    for byte in block {
        if *byte == b'\n' {
            newlines += 1;
        }
    }
    newlines
}

fn ends_with_newline(text: &[u8]) -> bool
    ensures { result ≡ ends_with_newline text.now }
{
    matches!(text, [] | [.., b'\n'])
}

/// The first line of a text, and the text behind its newline, where it has one.
pub fn first_line(text: &[u8]) -> (&[u8], Option<&[u8]>)
    ensures lines { IsFirstLine text.now result.0.now result.1 }
    ensures shorter { IsShorter text.now result.0.now result.1 }
{
    match first_newline(text) {
        Some(end) => (without_return(&text[..end]), Some(&text[end + 1..])),
        None => (text, None),
    }
}

fn first_newline(text: &[u8]) -> Option<usize>
    ensures { result ≡ position is_newline text.now }
{
    text.iter().position(|byte| *byte == b'\n')
}

/// A line without the carriage return, if there is one, that stands before its newline.
fn without_return(line: &[u8]) -> &[u8]
    ensures { result.now ≡ without_return line.now }
{
    line.strip_suffix(b"\r").unwrap_or(line)
}
