// A line of a listing: what has been read of it so far, by value, and what it asks for at its end.
ghost use Rattle.std.specs.Prelude.{◌≡◌, []};
ghost use Rattle.listing_text.specs.Machine.{with_digit, ended, grown, fed, fed_all};
ghost use Rattle.listing_text.specs.LineReading.{Reads, Feeds, Finishes, BlockFeeds};

use crate::command::Command;
use crate::short::Short;
use crate::{NEWLINE, SPACE};
use calls::Call;

// The most letters that a command has, and arguments that a line has room for.
const LETTERS: usize = 7;

const ROOM: usize = 4;

// The base of numbers.
const BASE: u64 = 10;

// What has been read of a line.
#[derive(Clone, Copy)]
pub enum Line {
    // Whatever follows, the line is bad.
    Bad,
    // The bytes of its first word.
    Naming(Short<u8, LETTERS>),
    // A command, the arguments that have ended, and the value of the one that is being read, once it has a digit.
    Arguing(Command, Short<u64, ROOM>, Option<u64>),
}

// A part of a block, fed: the line, and what follows the newline that ended it.
#[derive(Clone, Copy)]
pub struct Fed<'a> {
    pub line: Line,
    pub rest: Option<&'a [u8]>,
}

// The value of an argument with one byte more. None is of more than 64 bits.
#[tactic(auto, using(crate::proofs::MachineLaws::digit_none, crate::proofs::MachineLaws::digit_wide, crate::proofs::MachineLaws::digit_summed))]
fn with_digit(value: Option<u64>, byte: u8) -> Option<u64>
    ensures { result ≡ with_digit value byte }
{
    if !byte.is_ascii_digit() {
        return None;
    }
    value
        .unwrap_or(0)
        .checked_mul(BASE)?
        .checked_add(u64::from(byte - b'0'))
}

impl Line {
    // Nothing read yet.
    pub fn new() -> Line
        ensures { Reads result [] }
    {
        Line::Naming(Short::new())
    }

    // One byte more of a line. The newline is no part of it.
    pub fn feed(self, byte: u8) -> Line
        ensures { Feeds self byte result }
    {
        let mut line = self;
        line.read(byte);
        line
    }

    // The bytes of a block up to its first newline or its end.
    pub fn feed_until_newline(self, block: &[u8]) -> Fed<'_>
        ensures { BlockFeeds self block.now result }
    {
        let mut line = self;
        match block.iter().position(|byte| *byte == NEWLINE) {
            Some(i) => {
                line.feed_all(&block[..i]);
                Fed {
                    line,
                    rest: Some(&block[i + 1..]),
                }
            }
            None => {
                line.feed_all(block);
                Fed { line, rest: None }
            }
        }
    }

    // What the line asks for, if it is not bad: all of it has been fed. Its last word ends as in `end_word`.
    // Stays: `end_word` is not called, since it would make a line anew for what is only read.
    pub fn finish(self) -> Option<Call>
        ensures { Finishes self result }
    {
        match self {
            Line::Bad => None,
            Line::Naming(letters) => Command::named(letters.as_slice())?.call(&[]),
            Line::Arguing(command, mut arguments, value) => {
                if !arguments.try_push(value?) {
                    return None;
                }
                command.call(arguments.as_slice())
            }
        }
    }

    // Several bytes more, none of them a newline.
    fn feed_all(&mut self, bytes: &[u8])
        ensures { self.new ≡ fed_all self.old bytes.now }
    {
        for byte in bytes {
            self.read(*byte);
        }
    }

    // One byte more, in place: to move the line at each byte costs more than to read it.
    fn read(&mut self, byte: u8)
        ensures { self.new ≡ fed self.old byte }
    {
        if byte == SPACE {
            self.end_word();
        } else {
            self.grow_word(byte);
        }
    }

    // A byte that is no space.
    fn grow_word(&mut self, byte: u8)
        ensures { self.new ≡ grown self.old byte }
    {
        match self {
            Line::Bad => {}
            Line::Naming(letters) => {
                if !letters.try_push(byte) {
                    *self = Line::Bad;
                }
            }
            Line::Arguing(_, _, value) => match with_digit(*value, byte) {
                Some(more) => *value = Some(more),
                None => *self = Line::Bad,
            },
        }
    }

    // The end of a word, at a space or at the end of the line.
    fn end_word(&mut self)
        ensures { self.new ≡ ended self.old }
    {
        match self {
            Line::Bad => {}
            Line::Naming(letters) => {
                *self = match Command::named(letters.as_slice()) {
                    Some(command) => Line::Arguing(command, Short::new(), None),
                    None => Line::Bad,
                };
            }
            Line::Arguing(_, arguments, value) => match *value {
                Some(ended) if arguments.try_push(ended) => *value = None,
                _ => *self = Line::Bad,
            },
        }
    }
}
