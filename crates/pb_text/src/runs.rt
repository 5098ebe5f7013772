//! Bytes at the front of a text that digits or a name have: one pass finds where they end and, of digits, their number.

ghost use Rattle.std.specs.Prelude.{◌≡◌, ◌≢◌, ◌∷◌, ◌<◌, ◌^◌, true, take};
ghost use Rattle.pb_text.specs.Name as names;
ghost use Rattle.pb_text.specs.Number.{digits_value};
ghost use Rattle.pb_text.specs.Scan.{IsRun};
ghost use Rattle.pb_text.specs.ShortName.{IsShort};

/// Digits at the front of a text.
#[derive(Clone, Copy)]
pub(crate) struct DigitRun<'a> {
    /// How many.
    pub size: usize,
    /// Their number.
    pub value: u64,
    /// The bytes behind them.
    pub rest: &'a [u8],
}

/// Digits of a short name at the front of a text.
#[derive(Clone, Copy)]
pub(crate) struct ShortRun<'a> {
    /// How many.
    pub size: usize,
    /// The number of the name that is `x` and these digits.
    pub number: usize,
    /// The bytes behind them.
    pub rest: &'a [u8],
}

/// Bytes of a name at the front of a text.
#[derive(Clone, Copy)]
pub(crate) struct NameRun<'a> {
    /// How many.
    pub size: usize,
    /// The bytes behind them.
    pub rest: &'a [u8],
}

/// Numbers from here on get no further digit, so that all fit 63 bits.
const MANY: u64 = 100_000_000_000_000_000;

/// The digits at the front of a text, as many as make a number of at most eighteen digits.
#[inline(always)]
pub(crate) fn digits(text: &[u8]) -> DigitRun<'_>
    ensures run { IsRun names.is_digit result.size text.now result.rest.now }
    ensures value { result.value ≡ digits_value (take result.size text.now) }
    ensures small { result.value < 2 ^ 62 }
{
    let mut rest = text;
    let mut size = 0;
    let mut value: u64 = 0;
    while let Some((b, tail)) = rest.split_first() {
        if *b < b'0' || *b > b'9' || value >= MANY {
            break;
        }
        value = value * 10 + u64::from(*b - b'0');
        size += 1;
        rest = tail;
    }
    DigitRun { size, value, rest }
}

/// Numbers of short names from here on get no further digit: with it they have at most six, and a table by number some megabytes.
const MANY_SHORT: usize = 161_051;

/// The digits at the front of a text, as many as a short name may have: a number to the base 11 in which no digit is 0.
#[inline(always)]
pub(crate) fn short_digits(text: &[u8]) -> ShortRun<'_>
    ensures run { IsRun names.is_digit result.size text.now result.rest.now }
    ensures number { IsShort (120 ∷ take result.size text.now) result.number }
{
    let mut rest = text;
    let mut size = 0;
    let mut number: usize = 0;
    while let Some((b, tail)) = rest.split_first() {
        if *b < b'0' || *b > b'9' || number >= MANY_SHORT {
            break;
        }
        number = number * 11 + usize::from(*b - 47);
        size += 1;
        rest = tail;
    }
    ShortRun { size, number, rest }
}

/// Whether a byte continues a name and is no `-`, with which a symbol can begin.
#[inline(always)]
fn is_name_byte(b: u8) -> bool
    ensures continues { result ≡ true → names.continues_name b ≡ true }
    ensures other { result ≡ true → b ≢ 45 }
{
    matches!(b, b'0'..=b'9' | b'a'..=b'z' | b'A'..=b'Z' | b'_' | b'[' | b']' | b'{' | b'}' | b'^')
}

/// The bytes at the front of a text that continue a name, up to a `-`.
#[inline(always)]
pub(crate) fn name_bytes(text: &[u8]) -> NameRun<'_>
    ensures { IsRun names.continues_name result.size text.now result.rest.now }
{
    let mut rest = text;
    let mut size = 0;
    while let Some((b, tail)) = rest.split_first() {
        if !is_name_byte(*b) {
            break;
        }
        size += 1;
        rest = tail;
    }
    NameRun { size, rest }
}
