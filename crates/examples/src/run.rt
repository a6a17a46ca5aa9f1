//! A run that is described line by line.

use crate::made::{add, add_each, add_line, add_times, number};
use anyhow::{Result, bail};
use std::alloc::Global;

/// A run of the program, and what has to come of it. Each line of its description is a word and what belongs to it:
///
/// - `# TEXT` says what the run shows.
/// - `words W ..`: the words of the command line.
/// - `input TEXT`: TEXT and a line feed are added to the input; `input- TEXT`: TEXT alone; `input-hex HEX`: these bytes;
///   `repeat N TEXT`: TEXT N times, a line feed where it has `@`; `each N TEXT`: TEXT for each k from 1 to N, and in it k + M where
///   it has `<M>`, and where it has `<Mx>` this as 16 hex digits.
/// - `pieces N SIZE`: N more reads give SIZE bytes each, or are idle turns where SIZE is 0.
/// - `fails N`: read number N, from 1, fails. `sink-fails N`: so does write number N.
/// - `net-fails N`: so does bind or accept number N; `start-fails N`: the start of job number N is refused. The streams that are
///   accepted end at once, and jobs run in place: the second job of `serve`, which looks for lapsed sessions, has to be refused, since
///   in place it does not end.
/// - `call-fails N`: call number N of the etcd that `serve` asks first fails. Streams that `serve` dials end at once.
/// - `status N`: the status that is wanted.
/// - `output TEXT`, `output- TEXT`, `output-repeat N TEXT`, `output-each N TEXT`: what has to be written, as for the input.
#[derive(Drop)]
pub struct Run {
    pub words: Vec<String>,
    pub input: Vec<u8>,
    pub pieces: Vec<u32>,
    pub failing: Failing,
    pub status: u64,
    pub output: Vec<u8>,
}

/// The calls of each kind that fail, by their numbers from 1.
#[derive(Drop)]
pub struct Failing {
    pub reads: Vec<u64>,
    pub writes: Vec<u64>,
    /// Binds and accepts.
    pub net: Vec<u64>,
    /// Starts of jobs.
    pub starts: Vec<u64>,
    /// Calls of the etcd.
    pub calls: Vec<u64>,
}

impl Failing {
    /// No call fails.
    fn none(alloc: Global) -> Failing {
        Failing {
            reads: Vec::new(alloc),
            writes: Vec::new(alloc),
            net: Vec::new(alloc),
            starts: Vec::new(alloc),
            calls: Vec::new(alloc),
        }
    }
}

impl Run {
    /// Reads a description.
    pub fn read(alloc: Global, text: &[u8]) -> Result<Run> {
        let mut run = Run {
            words: Vec::new(alloc),
            input: Vec::new(alloc),
            pieces: Vec::new(alloc),
            failing: Failing::none(alloc),
            status: 0,
            output: Vec::new(alloc),
        };
        let Ok(text) = str::from_utf8(text) else {
            bail!("the description is no text");
        };
        for line in text.lines() {
            match line.split_once(' ') {
                Some((word, rest)) => run.take(alloc, word, rest)?,
                None => run.take(alloc, line, "")?,
            }
        }
        Ok(run)
    }

    /// Takes one line.
    fn take(&mut self, alloc: Global, word: &str, rest: &str) -> Result<()> {
        match word {
            "#" => Ok(()),
            "words" => self.take_words(alloc, rest),
            "status" => {
                self.status = number(rest)?;
                Ok(())
            }
            "fails" => add_number(&mut self.failing.reads, rest),
            "sink-fails" => add_number(&mut self.failing.writes, rest),
            "net-fails" => add_number(&mut self.failing.net, rest),
            "start-fails" => add_number(&mut self.failing.starts, rest),
            "call-fails" => add_number(&mut self.failing.calls, rest),
            "pieces" => self.take_pieces(rest),
            "input" => add_line(&mut self.input, rest),
            "input-" => add(&mut self.input, rest),
            "input-hex" => {
                let bytes = hex::decode(alloc, rest)?;
                self.input.extend_from_slice(bytes.as_slice())?;
                Ok(())
            }
            "repeat" => add_times(&mut self.input, rest),
            "each" => add_each(alloc, &mut self.input, rest),
            "output" => add_line(&mut self.output, rest),
            "output-" => add(&mut self.output, rest),
            "output-repeat" => add_times(&mut self.output, rest),
            "output-each" => add_each(alloc, &mut self.output, rest),
            _ => bail!("no such line: {word}"),
        }
    }

    /// Adds words of the command line.
    fn take_words(&mut self, alloc: Global, words: &str) -> Result<()> {
        for word in words.split(' ') {
            self.words.push(String::from_str(alloc, word)?)?;
        }
        Ok(())
    }

    /// Adds reads of one size.
    fn take_pieces(&mut self, rest: &str) -> Result<()> {
        let Some((count, size)) = rest.split_once(' ') else {
            bail!("pieces want a count and a size");
        };
        let size = size_of_read(size)?;
        for _read in 0..number(count)? {
            self.pieces.push(size)?;
        }
        Ok(())
    }
}

/// Adds the number that a text spells.
fn add_number(numbers: &mut Vec<u64>, text: &str) -> Result<()> {
    numbers.push(number(text)?)?;
    Ok(())
}

/// The size that a text spells.
fn size_of_read(text: &str) -> Result<u32> {
    match text.parse::<u32>() {
        Ok(size) => Ok(size),
        Err(_) => bail!("no size: {text}"),
    }
}
