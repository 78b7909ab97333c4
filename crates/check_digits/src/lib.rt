// The check digit of a code, GS1's.
#![tactic(auto)]

ghost use Rattle.std.specs.Prelude.{◌≡◌};
ghost use Rattle.model.specs.CheckDigit.{right_check_digit};

// How many digits a code has, filled with zeros on the left.
const CODE_DIGITS: u32 = 14;

// The weight of the last digit, and what it and the weight of the digit before it add up to.
const LAST_WEIGHT: u64 = 1;

const BOTH_WEIGHTS: u64 = 4;

// Whether the check digit of a code is right: its digits, which from the right weigh 1, 3, 1, 3 and so on, add up to a
// multiple of ten.
pub fn is_right(code: u64) -> bool
    ensures { result ≡ right_check_digit code }
{
    let mut rest = code;
    let mut weight = LAST_WEIGHT;
    let mut sum = 0;
    for _ in 0..CODE_DIGITS {
        sum += weight * (rest % 10);
        weight = BOTH_WEIGHTS - weight;
        rest /= 10;
    }
    sum % 10 == 0
}
