// The words of a line.
use anyhow::{Result, bail};
use std::alloc::Global;

// What is left of a line, whose words have one space between each two.
#[derive(Drop)]
pub struct Words<'a> {
    rest: &'a str,
}

impl<'a> Words<'a> {
    // The words of this line.
    pub fn of(line: &'a str) -> Words<'a> {
        Words { rest: line }
    }

    // The next word, which is empty behind the last one.
    pub fn next(&mut self) -> &'a str {
        let line = self.rest;
        match line.split_once(' ') {
            Some((word, rest)) => {
                self.rest = rest;
                word
            }
            None => {
                self.rest = "";
                line
            }
        }
    }

    // Whether no word is left.
    pub fn is_done(&self) -> bool {
        self.rest.is_empty()
    }

    // The next word as a number.
    pub fn number(&mut self) -> Result<usize> {
        Ok(self.next().parse::<usize>()?)
    }

    // The next word as bytes.
    pub fn bytes(&mut self, heap: Global) -> Result<Vec<u8>> {
        match self.next() {
            "-" => Ok(Vec::new(heap)),
            word => Ok(hex::decode(heap, word)?),
        }
    }

    // Whether the next word is `text`, and not `numbers`.
    pub fn is_text(&mut self) -> Result<bool> {
        match self.next() {
            "text" => Ok(true),
            "numbers" => Ok(false),
            other => bail!("no form of a word: {other}"),
        }
    }
}
