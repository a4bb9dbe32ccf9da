//! Places of a text: lines, and where they begin.

/// A place behind another one. (No text is as long as that this goes round.)
pub(crate) fn after(place: usize, count: usize) -> usize {
    place.wrapping_add(count)
}

/// The offset at which a line begins, by its number from 1; the text's end where it has no such line.
pub(crate) fn line_start(bytes: &[u8], line: usize) -> usize {
    let mut number = 1;
    for (offset, byte) in bytes.iter().enumerate() {
        if number == line {
            return offset;
        }
        if *byte == b'\n' {
            number = after(number, 1);
        }
    }
    bytes.len()
}

/// What stands at these offsets; nothing where a text has no such part.
pub(crate) fn part(bytes: &[u8], start: usize, end: usize) -> &[u8] {
    match bytes.get(start..end) {
        Some(part) => part,
        None => &[],
    }
}

/// What stands from an offset on.
pub(crate) fn rest(bytes: &[u8], start: usize) -> &[u8] {
    part(bytes, start, bytes.len())
}

/// How many bytes stand before the first of this kind.
pub(crate) fn count_to(bytes: &[u8], wanted: u8) -> usize {
    for (offset, byte) in bytes.iter().enumerate() {
        if *byte == wanted {
            return offset;
        }
    }
    bytes.len()
}

/// A line from its first byte on, without its line feed and a carriage return before that.
pub(crate) fn line_from(bytes: &[u8], start: usize) -> &[u8] {
    let behind = rest(bytes, start);
    let line = part(behind, 0, count_to(behind, b'\n'));
    match line.split_last() {
        Some((last, front)) if *last == b'\r' => front,
        _ => line,
    }
}

/// The word that stands at these offsets of a text.
pub(crate) fn word(text: &str, start: usize, end: usize) -> &str {
    match text.get(start..end) {
        Some(word) => word,
        None => "",
    }
}

/// The column of an offset, from 1, on a line that begins at another.
pub(crate) fn column(start: usize, offset: usize) -> usize {
    after(offset.saturating_sub(start), 1)
}
