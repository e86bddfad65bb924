// Lines and their words.
ghost use Rattle.std.specs.Prelude.{◌≡◌, ◌↔◌, ◌+◌, ◌≤◌, ◌∷◌, [], IsOk, IfOk, IfNone, IfSome, length, drop, slice_range};
ghost use Rattle.lab_text.specs.Text.{line_length, longest_line, blank_length, word_length, words_of, is_blank, is_line_feed};

/// The greatest number of bytes of a line.
const LONGEST: usize = 65_536;

/// A line has more than 65,536 bytes.
#[derive(Clone, Copy, Debug, PartialEq, Eq)]
pub struct LineTooLong;

/// The place of the LF that ends the line at `from`, or the end of the bytes where none follows.
/// `LineTooLong` comes exactly where the line has more than 65,536 bytes. It takes no memory.
pub fn line_end(bytes: &[u8], from: usize) -> Result<usize, LineTooLong>
    requires { from ≤ length bytes.now }
    ensures place { IfOk result (λ end. end ≡ from + line_length (drop from bytes.now)) }
    ensures short { IsOk result ↔ (line_length (drop from bytes.now) ≤ longest_line) }
{
    let mut end = from;
    while end < bytes.len() && bytes[end] != b'\n' {
        if end - from == LONGEST {
            return Err(LineTooLong);
        }
        end += 1;
    }
    Ok(end)
}

// Space and tab.
fn is_blank(byte: u8) -> bool
    ensures { result ≡ is_blank byte }
{
    byte == b' ' || byte == b'\t'
}

// The place of the first byte from `from` on that is no blank, or the end.
fn skip_blanks(line: &[u8], from: usize) -> usize
    requires { from ≤ length line.now }
    ensures place { result ≡ from + blank_length (drop from line.now) }
    ensures within { result ≤ length line.now }
{
    let mut place = from;
    while place < line.len() && is_blank(line[place]) {
        place += 1;
    }
    place
}

// The place of the first blank from `from` on, or the end.
fn skip_letters(line: &[u8], from: usize) -> usize
    requires { from ≤ length line.now }
    ensures place { result ≡ from + word_length (drop from line.now) }
    ensures within { result ≤ length line.now }
{
    let mut place = from;
    while place < line.len() && !is_blank(line[place]) {
        place += 1;
    }
    place
}

/// The start and the end of the next word of a line at or after `from`. Words stand between spaces
/// and tabs, and one that begins with `#` begins a comment up to the line's end. None comes exactly
/// where no word follows. It takes no memory.
pub fn word(line: &[u8], from: usize) -> Option<(usize, usize)>
    requires { from ≤ length line.now }
    ensures none { IfNone result (words_of (drop from line.now) ≡ []) }
    ensures some { IfSome result (λ w. words_of (drop from line.now)
        ≡ slice_range line.now w.0 w.1 ∷ words_of (drop w.1 line.now)) }
    ensures start { IfSome result (λ w. w.0 ≡ from + blank_length (drop from line.now)) }
    ensures end { IfSome result (λ w. w.1 ≡ w.0 + word_length (drop w.0 line.now)) }
    ensures within { IfSome result (λ w. w.1 ≤ length line.now) }
{
    let start = skip_blanks(line, from);
    if start == line.len() || line[start] == b'#' {
        return None;
    }
    Some((start, skip_letters(line, start)))
}
