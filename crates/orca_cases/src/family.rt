//! A family of cases, each with its answer.

use crate::answer::{Answer, Form};
use crate::case::{Case, join_rows, take_line};
use crate::tell;
use anyhow::{Context, Result, ensure};
use std::alloc::Global;

/// What ends a case.
const END: &str = "\nend\n";
/// What parts a case from its answer.
const GIVES: &str = "\ngives";

/// Does the cases of a family, and gives the line that counts those that agree with their answers. Before
/// it stands each case that does not, with what it gave.
pub(crate) fn compare(alloc: Global, name: &str, text: &str) -> Result<String> {
    let cases = text.strip_suffix(END).context("the last case has no end")?;
    let mut told = String::new(alloc);
    let (mut count, mut agreed) = (0u64, 0u64);
    for case in cases.split(END) {
        count = count.saturating_add(1);
        let (asked, stored) = case
            .split_once(GIVES)
            .context(format_args!("no answer to {case}"))?;
        let stored = match stored.strip_prefix(" as ") {
            Some(name) => stored_answer(alloc, cases, name).context(format_args!("{asked}"))?,
            None => stored,
        };
        let answer = answer_of(alloc, asked).context(format_args!("{asked}"))?;
        if answer.as_str().strip_suffix('\n') == stored.strip_prefix('\n') {
            agreed = agreed.saturating_add(1);
        } else {
            writeln!(told, "{asked}\ngives\n{}end", answer.as_str())?;
        }
    }
    writeln!(told, "{name}: {agreed} of {count} agree")?;
    Ok(told)
}

/// What stands behind `gives` in a case before another one.
fn stored_answer<'a>(alloc: Global, cases: &'a str, name: &str) -> Result<&'a str> {
    let head = format!(in alloc; "\ncase {name}\n")?;
    let (_, rest) = cases
        .split_once(head.as_str())
        .context("its answer is that of no case")?;
    let (case, _) = rest
        .split_once(END)
        .context("its answer is that of no earlier case")?;
    let (_, stored) = case
        .split_once(GIVES)
        .context("its answer is that of a case without one")?;
    Ok(stored)
}

/// The answer to a case, from its lines but for the last.
fn answer_of(alloc: Global, asked: &str) -> Result<Answer> {
    let lines = join_rows(alloc, asked)?;
    let mut open = None;
    for line in lines.as_str().lines() {
        let ended = take_line(alloc, &mut open, line)?;
        ensure!(ended.is_none(), "a case has an end before its answer");
    }
    let case = open.context("a family has an answer without a case")?;
    let mut answer = Answer::new(alloc, Form::Text);
    tell(case, &mut answer)?;
    Ok(answer)
}
