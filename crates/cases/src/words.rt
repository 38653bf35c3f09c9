// The words, numbers and lists of a line.
use crate::fault::Fault;
use hir::span::Span;
use std::alloc::AllocError;
use std::iter::repeat_n;
use std::num::ParseIntError;
use std::str::FromStr;

// The first word of a text, and what follows its space.
pub fn first_word(text: &str) -> (&str, &str) {
    text.split_once(' ').unwrap_or((text, ""))
}

// The number that a text is.
pub fn number<T: FromStr<Err = ParseIntError>>(text: &str) -> Result<T, Fault> {
    Ok(text.parse()?)
}

// The number that a text begins with, and what follows its space.
pub fn first_number(text: &str) -> Result<(u32, &str), Fault> {
    let (word, rest) = first_word(text);
    Ok((number(word)?, rest))
}

// The two numbers of a text, with a space between them.
pub fn two_numbers(text: &str) -> Result<(u32, u32), Fault> {
    halves(text, ' ')
}

// The two numbers of a text, around a mark.
fn halves(text: &str, mark: char) -> Result<(u32, u32), Fault> {
    let (left, right) = text.split_once(mark).ok_or(Fault::Line)?;
    Ok((number(left)?, number(right)?))
}

// How often a number stands in a list, and the number: `4096*7`, or `7` for once.
fn item(text: &str) -> Result<(u32, u32), Fault> {
    if text.contains('*') {
        halves(text, '*')
    } else {
        Ok((1, number(text)?))
    }
}

// Adds the numbers of a list to the pool.
fn add_items(pool: &mut Vec<u32>, text: &str) -> Result<(), Fault> {
    for word in text.split(',') {
        let (copies, value) = item(word)?;
        pool.extend(repeat_n(value, copies as usize))?;
    }
    Ok(())
}

// How many numbers the pool has, as a place in it.
fn length(pool: &[u32]) -> Result<u32, Fault> {
    u32::try_from(pool.len()).map_err(|_| Fault::Memory(AllocError))
}

// Adds a list to the pool: `-` for none, `0,3,4096*7`, or `@2+5` for any part of the pool or of what lies beyond.
pub fn list(pool: &mut Vec<u32>, text: &str) -> Result<Span, Fault> {
    if let Some(part) = text.strip_prefix('@') {
        let (start, count) = halves(part, '+')?;
        return Ok(Span { start, count });
    }
    let start = length(pool)?;
    if text != "-" {
        add_items(pool, text)?;
    }
    let end = length(pool)?;
    Ok(Span {
        start,
        count: end.saturating_sub(start),
    })
}
