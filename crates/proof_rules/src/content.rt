//! What a clause or a parity says, as a list of numbers by which it can be looked up.
ghost use Rattle.std.specs.Prelude.{◌≡◌, map, OnOk};
ghost use Rattle.std.specs.List.Sorted.{IsNonDecreasing};
ghost use Rattle.cx_base.specs.Literals.{code_of};
ghost use Rattle.cx_base.specs.Parity.{normal_form};
ghost use Rattle.proof_rules.specs.Contents.{IsClauseContent, IsParityContent, KeepsOdd};

use cx_base::Lit;
use std::alloc::AllocError;

/// Makes the list the codes of literals, in the order of these.
fn fill_codes(codes: &mut Vec<u32>, lits: &[Lit]) -> Result<(), AllocError>
    ensures { OnOk result (codes.new.items ≡ map code_of lits.now) }
{
    codes.clear();
    for lit in lits {
        codes.push(lit.code() as u32)?;
    }
    Ok(())
}

/// Makes the list the codes of a clause's literals, rising and each once.
pub fn fill_clause_content(content: &mut Vec<u32>, lits: &[Lit]) -> Result<(), AllocError>
    ensures { OnOk result (IsClauseContent lits.now content.new.items) }
{
    fill_codes(content, lits)?;
    content.sort_unstable();
    content.dedup();
    Ok(())
}

/// Makes the list the numbers of literals' variables, in the order of these.
fn fill_numbers(numbers: &mut Vec<u32>, lits: &[Lit]) -> Result<(), AllocError>
    ensures { OnOk result (numbers.new.items ≡ map (λ l. l.variable) lits.now) }
{
    numbers.clear();
    for lit in lits {
        numbers.push(lit.var().number())?;
    }
    Ok(())
}

/// Keeps each number that occurs an odd number of times in a sorted list, once: two that are equal cancel.
fn cancel_pairs(numbers: &mut Vec<u32>)
    requires { IsNonDecreasing numbers.old.items }
    ensures { KeepsOdd numbers.old.items numbers.new.items }
{
    let mut kept = 0;
    for place in 0..numbers.len() {
        let number = numbers[place];
        if kept > 0 && numbers[kept - 1] == number {
            kept -= 1;
        } else {
            numbers[kept] = number;
            kept += 1;
        }
    }
    numbers.truncate(kept);
}

/// The right side of a parity's normal form: 1 plus the number of its negative literals, modulo two.
fn right_side(lits: &[Lit]) -> bool
    ensures { result ≡ (normal_form lits.now).right_side }
{
    lits.iter().filter(|lit| lit.is_negative()).count() % 2 == 0
}

/// Makes the list the right side of a parity's normal form, 1 or 0, and then its variables, rising.
pub fn fill_parity_content(content: &mut Vec<u32>, lits: &[Lit]) -> Result<(), AllocError>
    ensures { OnOk result (IsParityContent lits.now content.new.items) }
{
    fill_numbers(content, lits)?;
    content.sort_unstable();
    cancel_pairs(content);
    content.insert(0, u32::from(right_side(lits)))?;
    Ok(())
}
