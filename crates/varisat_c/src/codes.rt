//! The numbers by which a C program is given a number or a refusal.
ghost use Rattle.std.specs.Prelude.{◌≡◌};
ghost use Rattle.varisat_c.specs.Codes.{count_answer, variable_answer};

use varisat_literals::Var;

/// The number of the variable, or the opposite of a refusal's.
pub fn variable_answer(answer: Result<Var, u8>) -> isize
    ensures { result ≡ variable_answer answer }
{
    match answer {
        Ok(var) => var.to_dimacs(),
        Err(number) => -isize::from(number),
    }
}

/// The count, or the opposite of a refusal's number.
pub fn count_answer(answer: Result<usize, u8>) -> isize
    ensures { result ≡ count_answer answer }
{
    match answer {
        Ok(count) => count.min(isize::MAX as usize) as isize,
        Err(number) => -isize::from(number),
    }
}
