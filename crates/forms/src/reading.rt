// Reading an open file.
ghost use Rattle.std.specs.Prelude.{◌≤◌, length};
ghost use Rattle.io.specs.Counts.{IsPrefixLen};

use std::fs::File;
use std::io::{Read, Result, Stdin};

// What a file is read from: standard input, or a file that was opened by its name.
#[derive(Drop)]
pub enum Input {
    Standard(Stdin),
    Opened(File),
}

impl Read for Input {
    fn read(&mut self, bytes: &mut [u8]) -> Result<usize> {
        match self {
            Input::Standard(stdin) => stdin.read(bytes),
            Input::Opened(file) => file.read(bytes),
        }
    }
}

// Reads until the room is full, the input ends or reading fails, and answers how many bytes were read.
pub fn read_full(input: &mut Input, text: &mut [u8]) -> usize
    ensures { IsPrefixLen result text.new }
{
    let mut done = 0;
    while done < text.len() {
        match input.read(&mut text[done..]) {
            Ok(0) | Err(_) => break,
            Ok(count) => done += count,
        }
    }
    done
}

// An error, where reading has not ended at the end of the input.
pub fn ended_well(input: &mut Input) -> Result<()> {
    let mut more = [0u8; 1];
    input.read(&mut more)?;
    Ok(())
}

// Copies some bytes to the front of others, as many as go there, and answers how many.
pub fn copy(from: &[u8], to: &mut [u8]) -> usize
    ensures { IsPrefixLen result to.new }
{
    let count = from.len().min(to.len());
    to[..count].copy_from_slice(&from[..count]);
    count
}

// Puts the bytes that are read after some others, and answers how many there are in all.
pub fn read_rest(input: &mut Input, front: &[u8], text: &mut [u8]) -> usize
    ensures { IsPrefixLen result text.new }
{
    let start = copy(front, text);
    start + read_full(input, &mut text[start..])
}
