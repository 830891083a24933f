//! Does cases over files and ports in memory, and compares what they give with stored answers.
//!
//! A line `family NAME` of the standard input asks for the cases of the file `NAME.cases`. Each is lines
//! from `case NAME` to `end`, and its answer stands between `gives` and `end`. `gives as NAME` stands for the
//! answer to an earlier case. A line is printed that counts the cases that agree; before it stands each case
//! that does not, with what it gave.
//!
//! A case may also stand on the standard input itself, without an answer. Then its answer is printed behind
//! its line `case NAME`, with all bytes in hexadecimal.
//!
//! Bytes are lower-case hexadecimal, `-` where there are none, or a text in quotes. A text is of printable
//! ASCII. In it `\n`, `\r`, `\t`, `\e`, `\"` and `\\` are the end of a line, a return, a tab, an escape, a
//! quote and a backslash. It may stand in several lines, each part in quotes and behind two blanks. An empty
//! line and a line that begins with `#` are comments.
//!
//! A stored answer has a text wherever one can stand, and each row of a text of several rows in a line of
//! its own. A row ends behind `\n`, and before an escape by which a picture goes to another place.
//!
//! Lines may have short forms, which are written out before they are read:
//!
//! | form | meaning |
//! |---|---|
//! | a line with two blanks and `\|ROW` | a row with `\n` at its end; with a number before the bar as often |
//! | `\(N*PART)` | the part N times |
//! | `\[ROW]` | the beginning of a row of a picture: `\e[ROW;1H\e[0m` |
//! | a line with two blanks and `[ROW]TEXT` | the row `\[ROW]TEXT` of a picture |
//! | `\0` | `\e[0m`, the plain style of a picture |
//! | `\1`, `\2`, `\4`, `\7` | a style: `\e[0m`, and then `\e[1m` or the like |
//! | `\3`, `\5`, `\8`, `\9` | a colour: the same with 35, 45, 94 and 91 |
//!
//! | line | meaning |
//! |---|---|
//! | `word WORD` | one word of the command line, in order |
//! | `words WORD ..` | several, as they are, with a blank between two |
//! | `file NAME BYTES` | a file that is held at the start |
//! | `held NAME` | another program holds the file of that name |
//! | `want NAME` | a file that is told at the end |
//! | `fail files N` | the Nth call of the files is to fail, counted from 1 |
//! | `fail PORT N` | the Nth call of a port is to fail: `midi`, `udp`, `osc`, `text`, `fault` or `view` |
//! | `fail inbox N` | the Nth call of the inbox is to fail |
//! | `start MOMENT` | the moment at which the run listens, 0 if there is no such line |
//! | `bytes HAND MOMENT BYTES` | the inbox's next answer: 1 to 64 bytes of a hand |
//! | `due MOMENT` | the inbox's next answer: a moment that was waited for has come |
//!
//! The answer is `send PORT BYTES` for each send, `file NAME BYTES` or `file NAME none` for each file that
//! is told, and `status N`.
//!
//! A case with a line `scan TICK SEED` is one frame alone, of the grid text of its one file. Its answer
//! is `cells BYTES`, the glyphs; `marks BYTES`, one byte a place: 1 for Lock, 2 for Input, 4 for Param,
//! 8 for Output and 16 for Sleep, added; `vars BYTES`, the 36 variables; and for each event
//! `event note CHANNEL KEY VELOCITY LENGTH MONO`, `event control CHANNEL CONTROL VALUE`,
//! `event bend CHANNEL LSB MSB`, `event udp BYTES` or `event osc PATH VALUES`.
//!
//! Both boards do that frame, and have to give one answer.
//!
//! A case with lines `step STEP` is done on a live board, with a plain board beside it, from the grid text
//! of its one file on. Its answer is `one answer`, or the first step after which the boards differ. Glyphs
//! stand as they are, those of a block row after row.
//!
//! | step | meaning |
//! |---|---|
//! | `frame TICK SEED` | a frame |
//! | `write Y X GLYPH` | a glyph is written |
//! | `fill Y X H W GLYPH` | an area is filled |
//! | `put Y X H W GLYPHS` | a block is put, its first place at a row and a column |
//! | `shift Y X H W Y X` | an area is moved to a row and a column |
//! | `resize H W` | the grid gets another size |
//! | `load H W GLYPHS` | another grid |
//! | `revert` | the grid of the last frame or load |
//!
//! After each step the boards have the same size and the same glyphs, and the live board finds exactly its
//! operators. After a frame or a load, and writes after it, marks, variables, events and changes are the
//! same too. What edits of blocks, sizes and reverts leave is worked out place by place, without the boards.
#![tactic(auto)]

mod answer;
mod bytes;
mod case;
mod cells;
mod family;
mod pair;
mod runs;
mod scans;
mod short;
mod step;

use answer::{Answer, Form};
use anyhow::{Context, Result, ensure};
use case::{Case, join_rows, take_line};
use short::write_out;
use std::alloc::Global;
use std::rt::Files;
use std::{fs, io};

/// Adds the answer to a case.
fn tell(case: Case, answer: &mut Answer) -> Result<()> {
    match case.frame {
        Some(now) => scans::tell(&case, now, answer),
        None if !case.steps.is_empty() => pair::tell(&case, answer),
        None => runs::tell(case, answer),
    }
}

/// The answer to a case of the standard input.
fn answer_of(alloc: Global, case: Case) -> Result<Answer> {
    let mut answer = Answer::new(alloc, Form::Hex);
    answer.push(format!(in alloc; "case {}\n", case.name)?.as_str())?;
    tell(case, &mut answer)?;
    Ok(answer)
}

/// Compares the cases of a family, and prints what comes of it.
fn print_family(rt: &(impl Files + Print + Alloc<A = Global>), name: &str) -> Result<()> {
    let alloc = rt.alloc();
    let file = format!(in alloc; "{name}.cases")?;
    let text = fs::read_to_string(rt, file.as_str()).context(format_args!("{file}"))?;
    let text = write_out(alloc, text.as_str()).context(format_args!("{file}"))?;
    let told = family::compare(alloc, name, text.as_str()).context(format_args!("{file}"))?;
    rt.print(told)?;
    Ok(())
}

fn main(rt: HostRuntime) -> Result<()> {
    let alloc = rt.alloc();
    let text = write_out(alloc, io::read_to_string(alloc, rt.reader())?.as_str())?;
    let text = join_rows(alloc, text.as_str())?;
    let mut open = None;
    for line in text.as_str().lines() {
        match line.strip_prefix("family ") {
            Some(name) if open.is_none() => print_family(&rt, name)?,
            _ => {
                if let Some(case) = take_line(alloc, &mut open, line)? {
                    rt.print(answer_of(alloc, case)?.as_str())?;
                }
            }
        }
    }
    ensure!(open.is_none(), "the last case has no end");
    Ok(())
}
