//! The words of a line, and the lines that are ignored.

ghost use Rattle.std.specs.Prelude.{◌≡◌, length, slice_get, option_copied};
ghost use Rattle.text_tables.specs.Words.{words, is_printable, is_passed_over};
ghost use Rattle.text_tables.specs.Fields.{word_in};

/// The number of words of a line. One space separates words, so two spaces make an empty word, and
/// the empty line has one empty word.
pub fn word_count(line: &[u8]) -> usize
    ensures { result ≡ length (words line.now) }
{
    line.split(|b| *b == b' ').count()
}

/// The word at a place, counted from 0, or None if the line has no more words than `place`.
pub fn word_at<'a>(line: &'a [u8], place: usize) -> Option<&'a [u8]>
    ensures { option_copied result ≡ slice_get (words line.now) place }
{
    line.split(|b| *b == b' ').nth(place)
}

/// The word at a place, counted from 0, or no octets if the line has no such word.
pub fn word_in<'a>(line: &'a [u8], place: usize) -> &'a [u8]
    ensures { result.now ≡ word_in (words line.now) place }
{
    match word_at(line, place) {
        Some(word) => word,
        None => b"",
    }
}

/// True if every octet is a printable character, 20 to 7e.
pub fn is_printable_line(line: &[u8]) -> bool
    ensures { result ≡ is_printable line.now }
{
    line.iter().all(|b| 0x20 <= *b && *b <= 0x7e)
}

/// True for an empty line and for one that begins with `#`.
pub fn is_comment(line: &[u8]) -> bool
    ensures { result ≡ is_passed_over line.now }
{
    match line.first() {
        None => true,
        Some(first) => *first == b'#',
    }
}
