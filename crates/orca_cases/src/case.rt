//! A case, and its lines.

use crate::bytes::read_bytes;
use crate::step::{Step, read_step};
use anyhow::{Context, Result, anyhow, bail, ensure};
use orca_base::limits::ARRIVAL_BYTES;
use orca_base::{Now, Port, Wire};
use orca_rig::MemAnswer;
use std::alloc::Global;

/// The ports at which sends can fail.
const PORTS: [Port; 6] = [
    Port::Midi,
    Port::Udp,
    Port::Osc,
    Port::Text,
    Port::Fault,
    Port::View,
];

/// What is to be done: a whole run, a frame alone, or steps on two boards.
#[derive(Drop)]
pub(crate) struct Case {
    pub name: String,
    /// The tick and the seed of a frame alone; none where the case is a run.
    pub frame: Option<Now>,
    /// The steps on two boards; none where the case is another.
    pub steps: Vec<Step>,
    /// The words of the command line.
    pub words: Vec<String>,
    /// The names of the files that are told at the end.
    pub wanted: Vec<String>,
    pub outside: Outside,
}

/// What a run finds outside, and which calls of it fail.
#[derive(Drop)]
pub(crate) struct Outside {
    /// The files that are held at the start, each a name and its bytes.
    pub files: Vec<(String, Vec<u8>)>,
    /// The name of the file that another program holds, if one does.
    pub held: Option<String>,
    /// The calls of the files that are to fail, counted from 1.
    pub failing_calls: Vec<u64>,
    /// The sends that are to fail, counted from 1 at each port.
    pub failing_sends: Vec<(Port, u64)>,
    /// The moment that the inbox answers when the run listens.
    pub start: u64,
    /// What the inbox answers after that, in order.
    pub answers: Vec<MemAnswer>,
    /// The calls of the inbox that are to fail, counted from 1.
    pub failing_polls: Vec<u64>,
}

impl Case {
    /// A case of that name with nothing in it.
    fn new(alloc: Global, name: &str) -> Result<Case> {
        Ok(Case {
            name: String::from_str(alloc, name)?,
            frame: None,
            steps: Vec::new(alloc),
            words: Vec::new(alloc),
            wanted: Vec::new(alloc),
            outside: Outside {
                files: Vec::new(alloc),
                held: None,
                failing_calls: Vec::new(alloc),
                failing_sends: Vec::new(alloc),
                start: 0,
                answers: Vec::new(alloc),
                failing_polls: Vec::new(alloc),
            },
        })
    }

    /// Adds what a line says.
    fn add(&mut self, alloc: Global, key: &str, rest: &str) -> Result<()> {
        match key {
            "scan" => self.frame = Some(read_now(rest)?),
            "step" => self.steps.push(read_step(alloc, rest)?)?,
            "word" => self
                .words
                .push(String::from_utf8(read_bytes(alloc, rest)?)?)?,
            "words" => self.add_words(alloc, rest)?,
            "file" => self.outside.files.push(read_file(alloc, rest)?)?,
            "held" => self.outside.held = Some(String::from_str(alloc, rest)?),
            "want" => self.wanted.push(String::from_str(alloc, rest)?)?,
            "fail" => self.add_failure(rest)?,
            "start" => self.outside.start = rest.parse::<u64>()?,
            "bytes" => self.outside.answers.push(read_arrival(alloc, rest)?)?,
            "due" => self.outside.answers.push(MemAnswer::Due {
                at: rest.parse::<u64>()?,
            })?,
            _ => bail!("these cases have no line {key:?}"),
        }
        Ok(())
    }

    /// Adds words that stand in one line.
    fn add_words(&mut self, alloc: Global, rest: &str) -> Result<()> {
        for word in rest.split(' ') {
            self.words.push(String::from_str(alloc, word)?)?;
        }
        Ok(())
    }

    /// Adds a call that is to fail.
    fn add_failure(&mut self, rest: &str) -> Result<()> {
        let (who, number) = halves(rest)?;
        let number = number.parse::<u64>()?;
        match who {
            "files" => self.outside.failing_calls.push(number)?,
            "inbox" => self.outside.failing_polls.push(number)?,
            _ => self.outside.failing_sends.push((read_port(who)?, number))?,
        }
        Ok(())
    }
}

/// A text whose rows stand in lines of their own, in one line.
pub(crate) fn join_rows(alloc: Global, lines: &str) -> Result<String> {
    let joined = lines.replace(alloc, "\"\n  \"", "")?;
    Ok(joined.as_str().replace(alloc, "\n  \"", " \"")?)
}

/// Reads a line into the open case, and gives the case that it ends.
pub(crate) fn take_line(
    alloc: Global,
    open: &mut Option<Case>,
    line: &str,
) -> Result<Option<Case>> {
    if line.is_empty() || line.starts_with('#') {
        return Ok(None);
    }
    if line == "end" {
        let case = open.take().ok_or(anyhow!("an end outside a case"))?;
        return Ok(Some(case));
    }
    let (key, rest) = halves(line)?;
    match open {
        Some(case) => case.add(alloc, key, rest)?,
        None => {
            ensure!(key == "case", "{line:?} stands outside a case");
            *open = Some(Case::new(alloc, rest)?);
        }
    }
    Ok(None)
}

/// What stands before and after the first blank.
fn halves(text: &str) -> Result<(&str, &str)> {
    text.split_once(' ')
        .context(format_args!("{text:?} has no blank"))
}

/// The tick and the seed of a frame alone.
fn read_now(rest: &str) -> Result<Now> {
    let (tick, seed) = halves(rest)?;
    Ok(Now {
        tick: tick.parse::<u32>()?,
        seed: seed.parse::<u32>()?,
    })
}

/// The name and the bytes of a file.
fn read_file(alloc: Global, rest: &str) -> Result<(String, Vec<u8>)> {
    let (name, bytes) = halves(rest)?;
    Ok((String::from_str(alloc, name)?, read_bytes(alloc, bytes)?))
}

/// The hand, the moment and the bytes of an arrival.
fn read_arrival(alloc: Global, rest: &str) -> Result<MemAnswer> {
    let (hand, rest) = halves(rest)?;
    let (at, bytes) = halves(rest)?;
    let came = read_bytes(alloc, bytes)?;
    ensure!(came.len() <= ARRIVAL_BYTES, "an arrival is too long");
    let mut bytes = Wire::empty();
    bytes.extend(came.as_slice());
    Ok(MemAnswer::Bytes {
        hand: hand.parse::<u8>()?,
        bytes,
        at: at.parse::<u64>()?,
    })
}

/// The port of that name.
fn read_port(name: &str) -> Result<Port> {
    for port in &PORTS {
        if port.name() == name {
            return Ok(*port);
        }
    }
    bail!("these cases have no port {name:?}")
}
