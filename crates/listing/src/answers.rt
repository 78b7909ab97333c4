// The answers to the lines of a block, in a buffer: all that the program does between a read and a write.
ghost use Rattle.std.specs.Prelude.{◌+◌, ◌≤◌, ◌<◌, length};
ghost use Rattle.arrayvec.specs.ArrayVec.{array_vec_len};
ghost use Rattle.listing_text.specs.Call.{call};
ghost use Rattle.listing_text.specs.Answer.{line_length};
ghost use Rattle.calls.specs.CallOf.{call_of};
ghost use Rattle.listing.specs.ProgramContract.{Prints, AnswersLine, GoesOn, GoesThrough};

use arrayvec::ArrayVec;
use calls::Call;
use listing_text::Line;

// The most bytes that a line of the output has.
pub const LONGEST: usize = 55;

// How far a block has been answered: the line that has begun and not ended, if there is one, and the bytes that follow.
#[derive(Clone, Copy)]
pub struct Place<'a> {
    pub unended: Option<Line>,
    pub rest: &'a [u8],
}

// Makes the call and prints its five words.
// Stays: that there is room for a line is a premise here and below, since a const parameter carries no fact.
fn put_call<const N: usize>(m: &mut [u32], k: Call, out: &mut ArrayVec<u8, N>)
    requires { array_vec_len out.old + line_length ≤ N }
    ensures { Prints m.old (call (call_of k)) out.old.items m.new out.new.items }
{
    let a = table::make_call(m, k);
    listing_text::put_answer(out, a.into());
}

// The line has ended: what it asks for is done and answered.
pub fn answer_line<const N: usize>(m: &mut [u32], line: Line, out: &mut ArrayVec<u8, N>)
    requires { array_vec_len out.old + line_length ≤ N }
    ensures { AnswersLine line m.old out.old.items m.new out.new.items }
{
    match line.finish() {
        Some(k) => put_call(m, k, out),
        None => listing_text::put_bad(out),
    }
}

// Goes on to the end of the line, which is answered, or to the end of the block.
fn answer_part<'a, const N: usize>(
    m: &mut [u32],
    place: Place<'a>,
    out: &mut ArrayVec<u8, N>,
) -> Place<'a>
    requires bytes_left { 0 < length place.rest.now }
    requires line_fits { array_vec_len out.old + line_length ≤ N }
    ensures { GoesOn m.old out.old.items place.entry m.new out.new.items result }
{
    let line = place.unended.unwrap_or(Line::new());
    let fed = line.feed_until_newline(place.rest);
    match fed.rest {
        Some(rest) => {
            answer_line(m, fed.line, out);
            Place {
                unended: None,
                rest: rest,
            }
        }
        None => Place {
            unended: Some(fed.line),
            rest: &[],
        },
    }
}

// Answers a block from a place on, until it ends or the buffer has no room for a further line.
pub fn answer_block<'a, const N: usize>(
    m: &mut [u32],
    place: Place<'a>,
    out: &mut ArrayVec<u8, N>,
) -> Place<'a>
    ensures { GoesThrough N m.old out.old.items place.entry m.new out.new.items result }
{
    // Taken apart: the check does not follow a copied loan to the function's end.
    let Place { unended, rest } = place;
    let mut at = Place { unended, rest };
    while !at.rest.is_empty() && out.remaining_capacity() >= LONGEST {
        at = answer_part(m, at, out);
    }
    at
}
