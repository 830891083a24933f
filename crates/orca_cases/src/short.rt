//! The short forms of stored cases, written out.

use anyhow::{Context, Result};
use std::alloc::Global;

/// What a digit behind a backslash stands for: the styles of a picture.
const STYLES: [(char, &str); 9] = [
    ('0', "\\e[0m"),
    ('1', "\\e[0m\\e[1m"),
    ('2', "\\e[0m\\e[2m"),
    ('3', "\\e[0m\\e[35m"),
    ('4', "\\e[0m\\e[4m"),
    ('5', "\\e[0m\\e[45m"),
    ('7', "\\e[0m\\e[7m"),
    ('8', "\\e[0m\\e[94m"),
    ('9', "\\e[0m\\e[91m"),
];

/// Lines with all their short forms written out.
pub(crate) fn write_out(alloc: Global, text: &str) -> Result<String> {
    let mut lines = String::new(alloc);
    for line in text.lines() {
        match line.strip_prefix("  ") {
            Some(row) if row.starts_with('[') => push_painted(&mut lines, row)?,
            Some(row) if !row.starts_with('"') => push_rows(&mut lines, row)?,
            _ => {
                lines.push_str(line)?;
                lines.push('\n')?;
            }
        }
    }
    write_signs(alloc, lines.as_str())
}

/// Adds a row that stands behind a bar, as often as the number before the bar says.
fn push_rows(lines: &mut String, row: &str) -> Result<()> {
    let (count, row) = row
        .split_once('|')
        .context(format_args!("{row:?} has no bar"))?;
    let count = if count.is_empty() {
        1
    } else {
        count.parse::<u64>()?
    };
    for _ in 0..count {
        lines.push_str("  \"")?;
        lines.push_str(row)?;
        lines.push_str("\\n\"\n")?;
    }
    Ok(())
}

/// Adds a row of a picture that stands in no quotes.
fn push_painted(lines: &mut String, row: &str) -> Result<()> {
    lines.push_str("  \"\\")?;
    lines.push_str(row)?;
    lines.push_str("\"\n")?;
    Ok(())
}

/// Lines with what stands behind backslashes written out.
fn write_signs(alloc: Global, lines: &str) -> Result<String> {
    let mut text = String::new(alloc);
    let mut is_plain = true;
    for part in lines.split('\\') {
        if is_plain {
            text.push_str(part)?;
            is_plain = false;
        } else if part.is_empty() {
            text.push_str("\\\\")?;
            is_plain = true;
        } else {
            push_sign(&mut text, part)?;
        }
    }
    Ok(text)
}

/// Adds what stands behind a backslash, up to the next one.
fn push_sign(text: &mut String, part: &str) -> Result<()> {
    if let Some(part) = part.strip_prefix('(') {
        return push_repeated(text, part);
    }
    if let Some(part) = part.strip_prefix('[') {
        return push_head(text, part);
    }
    for (digit, style) in &STYLES {
        if let Some(part) = part.strip_prefix(*digit) {
            text.push_str(style)?;
            text.push_str(part)?;
            return Ok(());
        }
    }
    text.push('\\')?;
    text.push_str(part)?;
    Ok(())
}

/// Adds what stands between a star and a bracket, as often as the number before the star says.
fn push_repeated(text: &mut String, part: &str) -> Result<()> {
    let (count, part) = part.split_once('*').context("a number has no star")?;
    let (again, rest) = part.split_once(')').context("a part has no bracket")?;
    for _ in 0..count.parse::<u64>()? {
        text.push_str(again)?;
    }
    text.push_str(rest)?;
    Ok(())
}

/// Adds the beginning of a row of a picture.
fn push_head(text: &mut String, part: &str) -> Result<()> {
    let (row, rest) = part.split_once(']').context("a row has no bracket")?;
    text.push_str("\\e[")?;
    text.push_str(row)?;
    text.push_str(";1H\\e[0m")?;
    text.push_str(rest)?;
    Ok(())
}
