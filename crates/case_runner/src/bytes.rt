// The lines of a case that stand for bytes.
use crate::line::first_word;
use crate::line_fault::LineFault;
use crate::text::{Text, text_named};

/// How often a piece is repeated at most.
const MOST_COPIES: usize = 100_000_000;

/// A number, and what comes after the space after it.
fn numbered(rest: &str) -> Result<(usize, &str), LineFault> {
    let (number, piece) = first_word(rest);
    match number.parse::<usize>() {
        Ok(n) if n <= MOST_COPIES => Ok((n, piece)),
        _ => Err(LineFault::BadLine),
    }
}

/// Adds the bytes of hexadecimal numbers of one byte each, with single spaces between them.
fn push_hex(bytes: &mut Vec<u8>, numbers: &str) -> Result<(), LineFault> {
    for number in numbers.split(' ') {
        match u8::from_str_radix(number, 16) {
            Ok(byte) => bytes.push(byte)?,
            Err(_) => return Err(LineFault::BadLine),
        }
    }
    Ok(())
}

/// Adds so many copies of a piece, each with its end.
fn push_copies(
    bytes: &mut Vec<u8>,
    (times, piece): (usize, &str),
    end: &[u8],
) -> Result<(), LineFault> {
    for _ in 0..times {
        bytes.extend_from_slice(piece.as_bytes())?;
        bytes.extend_from_slice(end)?;
    }
    Ok(())
}

/// Adds copies of a piece, each with its end: how many, and the piece.
fn push_repeated(bytes: &mut Vec<u8>, rest: &str, end: &[u8]) -> Result<(), LineFault> {
    push_copies(bytes, numbered(rest)?, end)
}

/// Adds bytes.
fn push_piece(bytes: &mut Vec<u8>, piece: Option<&[u8]>) -> Result<(), LineFault> {
    match piece {
        Some(piece) => Ok(bytes.extend_from_slice(piece)?),
        None => Err(LineFault::BadLine),
    }
}

/// The first bytes of a text, if it has so many.
fn front<'a>(text: &'a [u8], count: &str) -> Option<&'a [u8]> {
    match count.parse::<usize>() {
        Ok(count) => text.get(..count),
        Err(_) => None,
    }
}

/// How many bytes the first lines of a text have, if it has so many.
fn end_of_lines(text: &[u8], lines: usize) -> Option<usize> {
    let mut left = lines;
    for (at, byte) in text.iter().enumerate() {
        if left == 0 {
            return Some(at);
        }
        if *byte == b'\n' {
            left = left.saturating_sub(1);
        }
    }
    if left == 0 { Some(text.len()) } else { None }
}

/// The bytes from one place to another, if there are any.
fn between(text: &[u8], start: Option<usize>, end: Option<usize>) -> Option<&[u8]> {
    match (start, end) {
        (Some(start), Some(end)) if start < end => text.get(start..end),
        _ => None,
    }
}

/// The lines of a text from one to another, counted from 1, or to its end, as `3-7` or `3-`.
fn lines_between<'a>(text: &'a [u8], range: &str) -> Option<&'a [u8]> {
    let (first, last) = range.split_once('-').unwrap_or((range, "no end"));
    let start = match first.parse::<usize>() {
        Ok(first) if first > 0 => end_of_lines(text, first - 1),
        _ => None,
    };
    let end = match last.parse::<usize>() {
        Ok(last) => end_of_lines(text, last),
        Err(_) if last.is_empty() => Some(text.len()),
        Err(_) => None,
    };
    between(text, start, end)
}

/// Adds a part of a text: which, and its name.
fn push_part(
    bytes: &mut Vec<u8>,
    texts: &[Text<'_>],
    mark: char,
    rest: &str,
) -> Result<(), LineFault> {
    let (part, name) = first_word(rest);
    let text = text_named(texts, name)?;
    let piece = if mark == '^' {
        front(text, part)
    } else {
        lines_between(text, part)
    };
    push_piece(bytes, piece)
}

/// Adds what a line of this mark stands for.
pub(crate) fn push_marked(
    bytes: &mut Vec<u8>,
    texts: &[Text<'_>],
    mark: char,
    rest: &str,
) -> Result<(), LineFault> {
    match mark {
        '|' => push_copies(bytes, (1, rest), b"\n"),
        ':' => push_copies(bytes, (1, rest), b""),
        '+' => push_repeated(bytes, rest, b"\n"),
        '*' => push_repeated(bytes, rest, b""),
        '=' => push_hex(bytes, rest),
        '@' => push_piece(bytes, Some(text_named(texts, rest)?)),
        '^' | '&' => push_part(bytes, texts, mark, rest),
        _ => Err(LineFault::BadLine),
    }
}
