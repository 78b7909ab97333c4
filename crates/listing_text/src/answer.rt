// The text of an answer, put at the end of a text: five numbers and a newline, or bad.
ghost use Rattle.std.specs.Prelude.{◌≡◌, ◌+◌, ◌≤◌, ◌++◌};
ghost use Rattle.arrayvec.specs.ArrayVec.{array_vec_len};
ghost use Rattle.listing_text.specs.Number.{decimal};
ghost use Rattle.listing_text.specs.Answer.{number_length, word_length, line_length, bad_length, answer_of, word_text, line_text, bad_text, Puts};

use crate::{NEWLINE, SPACE};
use arrayvec::ArrayVec;
use itoa::Buffer;

// The digits of a number. There is room, so all of them are put; one alone, as most are, needs no buffer.
// Stays: that there is room is a premise here and below, since a const parameter carries no fact.
fn put_number<const N: usize>(out: &mut ArrayVec<u8, N>, n: u32)
    requires { array_vec_len out.old + number_length ≤ N }
    ensures { Puts number_length out.old.items (decimal n) out.new.items }
{
    if n < 10 {
        out.push(n as u8 + b'0');
        return;
    }
    let mut digits = Buffer::new();
    let _ = out.try_extend_from_slice(digits.format(n).as_bytes());
}

// A number and the byte that follows it.
fn put_word<const N: usize>(out: &mut ArrayVec<u8, N>, n: u32, after: u8)
    requires { array_vec_len out.old + word_length ≤ N }
    ensures { Puts word_length out.old.items (word_text n after) out.new.items }
{
    put_number(out, n);
    out.push(after);
}

// The line of an answer, at most five numbers of ten digits with a byte after each.
pub fn put_answer<const N: usize>(out: &mut ArrayVec<u8, N>, answer: [u32; 5])
    requires { array_vec_len out.old + line_length ≤ N }
    ensures { Puts line_length out.old.items (line_text (answer_of answer)) out.new.items }
{
    // Stays: a loop would take the byte that follows each number from a second array.
    let [status, a, b, c, d] = answer;
    put_word(out, status, SPACE);
    put_word(out, a, SPACE);
    put_word(out, b, SPACE);
    put_word(out, c, SPACE);
    put_word(out, d, NEWLINE);
}

// The line of a line that is no call.
pub fn put_bad<const N: usize>(out: &mut ArrayVec<u8, N>)
    requires { array_vec_len out.old + bad_length ≤ N }
    ensures { Puts bad_length out.old.items bad_text out.new.items }
{
    let _ = out.try_extend_from_slice(b"bad\n");
}
