//! The normal form of a parity: its variables, rising, and its right side.
ghost use Rattle.std.specs.Prelude.{◌≡◌, ℕ, map, OnOk};
ghost use Rattle.std.specs.List.Sorted.{IsNonDecreasing};
ghost use Rattle.cx_base.specs.Parity.{normal_form};
ghost use Rattle.cx_base.specs.Problem.{AreWithin};
ghost use Rattle.xor_blast.specs.Pieces.{rising_variables};
ghost use Rattle.xor_blast.specs.Rising.{KeepsOdd};

use cx_base::Lit;
use std::alloc::AllocError;

/// Makes the list the numbers of literals' variables, in the order of these.
fn fill_numbers(numbers: &mut Vec<u32>, lits: &[Lit]) -> Result<(), AllocError>
    ensures { OnOk result (numbers.new.items ≡ map (λ l. l.variable) lits.now) }
{
    numbers.clear();
    for lit in lits {
        numbers.push(lit.var().number())?;
    }
    Ok(())
}

/// Keeps each number that occurs an odd number of times in a sorted list, once: two that are equal cancel.
fn cancel_pairs(numbers: &mut Vec<u32>)
    requires { IsNonDecreasing numbers.old.items }
    ensures { KeepsOdd numbers.old.items numbers.new.items }
{
    let mut kept = 0;
    for place in 0..numbers.len() {
        let number = numbers[place];
        if kept > 0 && numbers[kept - 1] == number {
            kept -= 1;
        } else {
            numbers[kept] = number;
            kept += 1;
        }
    }
    numbers.truncate(kept);
}

/// The right side of a parity's normal form: 1 plus the number of its negative literals, modulo two.
pub fn right_side(lits: &[Lit]) -> bool
    ensures { result ≡ (normal_form lits.now).right_side }
{
    lits.iter().filter(|lit| lit.is_negative()).count() % 2 == 0
}

/// Makes the list the variables of a parity's normal form, rising.
pub fn fill_rising(numbers: &mut Vec<u32>, lits: &[Lit]) -> Result<(), AllocError>
    ensures { OnOk result ((n : ℕ) → AreWithin n lits.now → numbers.new.items ≡ rising_variables n lits.now) }
{
    fill_numbers(numbers, lits)?;
    numbers.sort_unstable();
    cancel_pairs(numbers);
    Ok(())
}
