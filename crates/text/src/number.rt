// Numbers as text: without leading zeros, or in so many digits.
ghost use Rattle.std.specs.Prelude.{◌≡◌, ◌<◌, ◌/◌, ◌%◌, [], ◌∷◌, length};
ghost use Rattle.text.specs.Number.{digit, numeral, digits_in};
ghost use Rattle.text.specs.Text.{Put, DigitsAsked};

use crate::area::Text;

// The bases that numbers are written in.
pub const DECIMAL: u64 = 10;

pub const HEXADECIMAL: u64 = 16;

// What is added to a digit for its ASCII code: below ten it is a numeral, from ten on a lower-case letter.
const NUMERALS_FROM: u8 = b'0';

const LETTERS_FROM: u8 = b'a' - 10;

// The ASCII code of a digit, lower case from 10 on.
fn digit_of(d: u64) -> u8
    requires { d < 16 }
    ensures { result ≡ digit d }
{
    if d < DECIMAL {
        return NUMERALS_FROM + d as u8;
    }
    LETTERS_FROM + d as u8
}

impl Text<'_> {
    // Puts the last digit of `n` in front of the text, and answers the number that the digits before it are.
    fn put_last_digit(&mut self, base: u64, n: u64) -> u64
        requires { DigitsAsked self.old base 1 }
        ensures put { Put self.old (digit (n % base) ∷ []) self.new }
        ensures rest { result ≡ n / base }
    {
        self.put_byte(digit_of(n % base));
        n / base
    }

    // Puts the numeral of `n` in front of the text.
    pub fn put_numeral(&mut self, base: u64, n: u64)
        requires { DigitsAsked self.old base (length (numeral base n)) }
        ensures { Put self.old (numeral base n) self.new }
    {
        let mut rest = n;
        // No `for`: how many digits a number has is seen as they go.
        while base <= rest {
            rest = self.put_last_digit(base, rest);
        }
        self.put_last_digit(base, rest);
    }

    // Puts the last `count` digits of `n` in front of the text, zeros too.
    pub fn put_digits(&mut self, base: u64, count: usize, n: u64)
        requires { DigitsAsked self.old base count }
        ensures { Put self.old (digits_in base count n) self.new }
    {
        let mut rest = n;
        for _ in 0..count {
            rest = self.put_last_digit(base, rest);
        }
    }
}
