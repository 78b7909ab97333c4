// What is read, block by block, to what is written: a block is answered before the next one is read.
ghost use Rattle.std.specs.Prelude.{OnOk, OnErr, IfOk};
ghost use Rattle.listing.specs.ProgramContract.{ServesBlock, WritesBlock, ServesPart, EndsInput, WritesEnd};
ghost use Rattle.listing.specs.ProgramContract.{ServedPart, ServesInput, ServesListing, IfUnread};

use crate::answers;
use crate::answers::{LONGEST, Place};
use arrayvec::ArrayVec;
use listing_text::Line;
use std::io;
use std::io::{Read, Write};

// How many words a listing lends.
const WORDS: usize = 16000;

// How many bytes a read gives at most, and the buffer of the answers has.
const BLOCK: usize = 65536;

// Why the program stops before the input's end: it cannot be read, or what was answered cannot be written.
#[derive(Clone, Copy)]
pub enum Failure {
    Read(io::Error),
    Write(io::Error),
}

// Answers a whole block, and writes the answers as often as the buffer is full.
fn serve_block<W: Write>(
    to: &mut W,
    m: &mut [u32],
    block: &[u8],
    unended: Option<Line>,
) -> io::Result<Option<Line>>
    ensures served { IfOk result (ServesBlock m.old block.now unended m.new) }
    ensures written { OnOk result (WritesBlock m.old block.now unended (W.contents to.old) (W.contents to.new)) }
    ensures unwritten { OnErr result (ServesPart m.old block.now unended m.new) }
{
    let mut out = ArrayVec::<u8, BLOCK>::new();
    let mut place = Place {
        unended: unended,
        rest: block,
    };
    while !place.rest.is_empty() {
        out.clear();
        place = answers::answer_block(m, place, &mut out);
        to.write_all(out.as_slice())?;
    }
    Ok(place.unended)
}

// The end of the input: a last line without a newline counts.
fn end_input<W: Write>(to: &mut W, m: &mut [u32], unended: Option<Line>) -> io::Result<()>
    ensures served { EndsInput m.old unended m.new }
    ensures written { OnOk result (WritesEnd m.old unended (W.contents to.old) (W.contents to.new)) }
{
    if let Some(line) = unended {
        let mut out = ArrayVec::<u8, LONGEST>::new();
        answers::answer_line(m, line, &mut out);
        to.write_all(out.as_slice())?;
    }
    Ok(())
}

// Reads to the end of the input. A proved loop has to end, so this one counts its turns, to a number that no run reaches.
fn serve_all<R: Read, W: Write>(from: &mut R, to: &mut W, m: &mut [u32]) -> Result<(), Failure>
    ensures served { OnOk result (ServesInput m.old (R.remaining from.old) (W.contents to.old) m.new (R.remaining from.new) (W.contents to.new)) }
    ensures unread { IfUnread result (ServedPart m.old (R.remaining from.old) (W.contents to.old) m.new (R.remaining from.new) (W.contents to.new)) }
{
    let mut block = [0u8; BLOCK];
    let mut unended = None;
    for _ in 0..u64::MAX {
        let n = from.read(&mut block).map_err(Failure::Read)?;
        if n == 0 {
            return end_input(to, m, unended).map_err(Failure::Write);
        }
        unended = serve_block(to, m, &block[..n], unended).map_err(Failure::Write)?;
    }
    Err(Failure::Read(io::Error::other("too long")))
}

// A listing: its memory is 0 at first.
pub fn serve<R: Read, W: Write>(from: &mut R, to: &mut W) -> Result<(), Failure>
    ensures { OnOk result (ServesListing (R.remaining from.old) (W.contents to.old) (R.remaining from.new) (W.contents to.new)) }
{
    let mut memory = [0u32; WORDS];
    serve_all(from, to, &mut memory)
}
