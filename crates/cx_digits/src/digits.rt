//! The digits of numbers, laid out three at a time with no branch on how many of three there are: one that can't be foreseen costs more.
ghost use Rattle.std.specs.Prelude.{◌≡◌, ◌<◌, ◌≤◌, ◌+◌, ◌-◌, ◌/◌, ◌%◌, ◌∷◌, ◌++◌, decimal, length, drop};
ghost use Rattle.cx_digits.specs.Digits.{three_digits};

use itoa::write_digits;

/// A table of three digits each, from the hundreds, the tens and the ones.
macro_rules! triples {
    ([$($hundreds:tt)*] $tens:tt $ones:tt) => { triples!(@tens $([$hundreds $tens $ones])*) };
    (@tens $([$hundreds:tt [$($tens:tt)*] $ones:tt])*) => { triples!(@ones $($([$hundreds $tens $ones])*)*) };
    (@ones $([$hundreds:tt $tens:tt [$($ones:tt)*]])*) => {
        [$($([
            1 + ($hundreds + $tens > 0) as u8 + ($hundreds > 0) as u8,
            b'0' + $hundreds,
            b'0' + $tens,
            b'0' + $ones,
        ],)*)*]
    };
}

/// How many digits each number below a thousand has, and then three digits, zeros in front of fewer.
static TRIPLES: [[u8; 4]; 1000] =
    triples!([0 1 2 3 4 5 6 7 8 9] [0 1 2 3 4 5 6 7 8 9] [0 1 2 3 4 5 6 7 8 9]);

/// The bound of numbers of at most three digits.
const THREE_DIGITS: u64 = 1000;

/// The bound of numbers of at most six digits.
const SIX_DIGITS: u64 = THREE_DIGITS * THREE_DIGITS;

/// The bound of numbers of at most nine digits.
const NINE_DIGITS: u64 = THREE_DIGITS * SIX_DIGITS;

/// The most digits that a number has.
pub const MOST_DIGITS: usize = 20;

/// How many digits a number has, and then three digits, zeros in front of fewer.
#[inline(always)]
fn triple(number: u64) -> [u8; 4]
    requires { number < THREE_DIGITS }
    ensures { result ≡ length (decimal number) ∷ three_digits number }
{
    TRIPLES[number as usize]
}

/// Lays out three digits so that they end there, zeros in front of fewer. The byte before them changes too.
#[inline(always)]
fn lay_out_three(number: u64, sheet: &mut [u8], end: usize)
    requires few { number < THREE_DIGITS }
    requires room { 4 ≤ end }
    requires within { end ≤ length sheet.old }
    ensures { drop (end - 3) sheet.new ≡ three_digits number ++ drop end sheet.old }
{
    sheet[end - 4..end].copy_from_slice(&triple(number));
}

/// Lays out a number of at most three digits so that it ends there, and says where it begins.
#[inline(always)]
fn lay_out_few(number: u64, sheet: &mut [u8], end: usize) -> usize
    requires few { number < THREE_DIGITS }
    requires room { 4 ≤ end }
    requires within { end ≤ length sheet.old }
    ensures begin { result + length (decimal number) ≡ end }
    ensures laid { drop result sheet.new ≡ decimal number ++ drop end sheet.old }
{
    lay_out_three(number, sheet, end);
    end - triple(number)[0] as usize
}

/// Lays out a number of at most six digits so that it ends there, and says where it begins.
#[inline(always)]
fn lay_out_six(number: u64, sheet: &mut [u8], end: usize) -> usize
    requires few { number < SIX_DIGITS }
    requires room { 7 ≤ end }
    requires within { end ≤ length sheet.old }
    ensures begin { result + length (decimal number) ≡ end }
    ensures laid { drop result sheet.new ≡ decimal number ++ drop end sheet.old }
{
    if number < THREE_DIGITS {
        return lay_out_few(number, sheet, end);
    }
    lay_out_three(number % THREE_DIGITS, sheet, end);
    lay_out_few(number / THREE_DIGITS, sheet, end - 3)
}

/// Lays out a number so that it ends there, and says where it begins. Bytes before it change too.
#[inline(always)]
pub fn lay_out_number(number: u64, sheet: &mut [u8], end: usize) -> usize
    requires room { MOST_DIGITS ≤ end }
    requires within { end ≤ length sheet.old }
    ensures begin { result + length (decimal number) ≡ end }
    ensures laid { drop result sheet.new ≡ decimal number ++ drop end sheet.old }
{
    if number < SIX_DIGITS {
        return lay_out_six(number, sheet, end);
    }
    if number < NINE_DIGITS {
        lay_out_three(number % THREE_DIGITS, sheet, end);
        return lay_out_six(number / THREE_DIGITS, sheet, end - 3);
    }
    write_digits(number, sheet, end)
}
