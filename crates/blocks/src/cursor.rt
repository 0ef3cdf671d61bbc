ghost use Rattle.std.specs.Prelude.{◌≡◌, ◌<◌, ◌≤◌, length};
ghost use Rattle.std.specs.Iterator.{YieldsFirstBy, item_count, at_most};
ghost use Rattle.blocks.specs.Told.{told_of};
ghost use Rattle.blocks.specs.Bodies.{ended_lines, is_point};
ghost use Rattle.blocks.specs.Steps.{first_len, YieldsLine, Splits};
ghost use Rattle.blocks.specs.Blocks.{blocks, blocks_left};

use crate::block::Block;
use crate::reading::read;
use text::run_len;

/// How many bytes the first line has, its LF counted.
#[tactic(auto, using(crate::proofs::Cuts::first_ended, crate::proofs::Cuts::first_open, crate::proofs::Cuts::run_within))]
fn line_len(s: &[u8]) -> usize
    ensures counts { result ≡ first_len (ended_lines s.now) }
    ensures within { result ≤ length s.now }
    ensures moves { 0 < length s.now → 0 < result }
{
    let n = run_len(s, b'\n');
    if n < s.len() { n + 1 } else { n }
}

/// Whether a line is a lone point, with its LF or without.
fn is_point(line: &[u8]) -> bool
    ensures { result ≡ is_point line.now }
{
    matches!(line, b"." | b".\n")
}

/// The lines of some bytes, each with its LF; the last may lack it.
// Kept: a cursor of our own: of the library's split_inclusive what is left can't be read, and split wants it.
#[derive(Clone, Copy)]
struct EndedLines<'a> {
    rest: &'a [u8],
}

impl<'a> Iterator for EndedLines<'a> {
    type Item = &'a [u8];

    ghost next_gives = { YieldsLine };

    ghost remaining = { λ s. at_most (length s.rest.now) };

    fn next(&mut self) -> Option<&'a [u8]> {
        if self.rest.is_empty() {
            return None;
        }
        let (line, after) = self.rest.split_at(line_len(self.rest));
        self.rest = after;
        Some(line)
    }
}

/// The bytes before the first lone point, and those after its line, where there is one.
fn split(input: &[u8]) -> Option<(&[u8], &[u8])>
    ensures { Splits input.now result }
{
    let mut lines = EndedLines { rest: input };
    let point = lines.find(|line| is_point(*line))?;
    let after = lines.rest;
    let before = &input[..input.len() - point.len() - after.len()];
    Some((before, after))
}

/// The blocks of an input, each with what it says, or none where it is not understood. A line that is
/// only a point ends each; what follows the last such line, if anything does, is one more, never
/// understood.
#[derive(Clone, Copy)]
pub struct Blocks<'a> {
    rest: &'a [u8],
}

impl<'a> Blocks<'a> {
    pub fn new(input: &'a [u8]) -> Blocks<'a>
        ensures { blocks_left result ≡ blocks input.now }
    {
        Blocks { rest: input }
    }
}

impl<'a> Iterator for Blocks<'a> {
    type Item = Option<Block<'a>>;

    ghost next_gives = { YieldsFirstBy told_of blocks_left };

    ghost remaining = { item_count blocks_left };

    fn next(&mut self) -> Option<Option<Block<'a>>> {
        let rest = self.rest;
        if rest.is_empty() {
            return None;
        }
        match split(rest) {
            Some((body, after)) => {
                self.rest = after;
                Some(read(body))
            }
            None => {
                self.rest = &[];
                Some(None)
            }
        }
    }
}
