// The text of a line, and its words.
ghost use Rattle.commands.specs.Lines.{HasText, Splits};

// The line without its end: the byte 10 and one byte 13 right before it.
pub fn without_end(line: &[u8]) -> &[u8]
    ensures { HasText line.now result.now }
{
    match line.strip_suffix(b"\n") {
        Some(text) => text.strip_suffix(b"\r").unwrap_or(text),
        None => line,
    }
}

// The first word of a text, and what follows the blank after it.
pub(crate) fn split_word(text: &[u8]) -> (&[u8], Option<&[u8]>)
    ensures { Splits text.now result.0.now result.1 }
{
    match text.iter().position(|&c| c == b' ') {
        Some(i) => (&text[..i], Some(&text[i + 1..])),
        None => (text, None),
    }
}
