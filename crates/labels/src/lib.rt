// Labels of eight, thirteen and fourteen digits: a text of ASCII digits turned into a code, and the shortest text of a code.
#![tactic(auto)]

ghost use Rattle.std.specs.Prelude.{◌≡◌, true, false, ◌++◌, map, ◌≤◌, length, drop};
ghost use Rattle.model.specs.Lists.{any};
ghost use Rattle.model.specs.Digits.{digits, is_digit, digit_of, byte_of};
ghost use Rattle.model.specs.Labels.{is_label_length, no_digit, no_label, label_code, read_reply, label_length};
ghost use Rattle.access.specs.Causes.{answer_of};
ghost use Rattle.access.specs.Contract.{five};
ghost use Rattle.labels.specs.Writing.{Writes};

use access::causes::Cause;

// The three lengths: GTIN-8, GTIN-13 and GTIN-14.
const GTIN_8: usize = 8;

const GTIN_13: usize = 13;

const GTIN_14: usize = 14;

// One more than the largest code of eight digits, and of thirteen.
const PAST_8: u64 = 100000000;

const PAST_13: u64 = 10000000000000;

// ---- the reader

fn is_label_length(n: usize) -> bool
    ensures { result ≡ is_label_length n }
{
    matches!(n, GTIN_8 | GTIN_13 | GTIN_14)
}

// Of another length, or with a byte that is no ASCII digit. A text of another length is not read.
fn is_no_label(text: &[u8]) -> bool
    ensures { result ≡ no_label text.now }
{
    !is_label_length(text.len()) || text.iter().any(|b| !b.is_ascii_digit())
}

// The code of a label.
fn code_of(text: &[u8]) -> u64
    requires { no_label text.now ≡ false }
    ensures { result ≡ label_code text.now }
{
    let mut code = 0;
    for b in text {
        code = code * 10 + u64::from(*b - b'0');
    }
    code
}

// The code of a text of 8, 13 or 14 ASCII digits, in two words.
pub fn read(text: &[u8]) -> Result<[u32; 4], Cause>
    ensures { five (answer_of result) ≡ read_reply text.now }
{
    if is_no_label(text) {
        return Err(Cause::WrongLabel);
    }
    let code = code_of(text);
    Ok([words::low(code), words::high(code), 0, 0])
}

// ---- the writer

// The shortest of the three lengths that holds a code.
fn length_of(code: u64) -> usize
    ensures { result ≡ label_length code }
{
    match code {
        0..PAST_8 => GTIN_8,
        PAST_8..PAST_13 => GTIN_13,
        _ => GTIN_14,
    }
}

// The last digits of a code into a text, from the right.
fn put_digits(text: &mut [u8], code: u64)
    ensures { text.new ≡ map byte_of (digits (length text.old) code) }
{
    let mut rest = code;
    for i in (0..text.len()).rev() {
        text[i] = (rest % 10) as u8 + b'0';
        rest /= 10;
    }
}

// The label of a code into the first bytes of a text; those after it stay.
pub fn write(text: &mut [u8], code: u64) -> Result<[u32; 4], Cause>
    ensures { Writes text.old code (answer_of result) text.new }
{
    if code > words::MAX_CODE {
        return Err(Cause::OutOfRange);
    }
    let n = length_of(code);
    if text.len() < n {
        return Err(Cause::WrongLabel);
    }
    put_digits(&mut text[..n], code);
    Ok([n as u32, 0, 0, 0])
}
