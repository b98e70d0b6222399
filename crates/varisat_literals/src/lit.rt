//! Variables and literals. A contract sees a variable as its index and a literal as its code.
ghost use Rattle.std.specs.Prelude.{◌≡◌, ℕ, ◌+◌, ◌*◌, ◌/◌, ◌%◌, ◌<◌, ◌≤◌, ◌^◌, ◌↔◌, ◌-◌, IsTrue, pos, ◌≤ℤ◌, if◌then◌else◌, Some, true, false};
ghost use Rattle.varisat_theory.specs.promises.Literals.{variable_of, literal_of, opposite};
ghost use Rattle.varisat_literals.specs.promises.Numbers.{variable_limit, variable_number, variable_numbered, literal_number, literal_numbered, IsLiteralNumber, polarity_of, number_text};

use std::fmt;
use std::marker::Model;
use std::ops::{BitXor, Not};

/// How many variables a solver takes, and the highest number of a variable in DIMACS text: 2^28.
pub const VARIABLE_LIMIT: usize = 0x1000_0000;

/// A variable, by its index from 0. The index is below 2^31.
#[derive(Clone, Copy, PartialEq, Eq, PartialOrd, Ord, Hash)]
pub struct Var {
    index: u32,
}

impl Model for Var {
    ghost Value = { ℕ };

    ghost view = { λ v. v.index };

    ghost inverse = { λ n. record { index = n } };

    ghost invariant = { λ v. v.index < 2 ^ 31 };
}

impl Var {
    /// The variable with the index.
    pub fn from_index(index: usize) -> Var
        requires { index < 2 ^ 31 }
        ensures { result ≡ index }
    {
        Var {
            index: index as u32,
        }
    }

    /// The index, from 0.
    pub fn index(self) -> usize
        ensures index { result ≡ self }
        ensures small { result < 2 ^ 31 }
    {
        self.index as usize
    }

    /// The variable with the DIMACS number, which is its index and one more.
    pub fn from_dimacs(number: isize) -> Var
        requires positive { pos 1 ≤ℤ number }
        requires small { number ≤ℤ pos 0x8000_0000 }
        ensures { result ≡ variable_numbered number }
    {
        Var {
            index: (number - 1) as u32,
        }
    }

    /// The DIMACS number.
    pub fn to_dimacs(self) -> isize
        ensures { result ≡ variable_number self }
    {
        self.index as isize + 1
    }

    /// The literal that is true where the variable is.
    pub fn positive(self) -> Lit
        ensures { result ≡ literal_of self true }
    {
        self.lit(true)
    }

    /// The literal that is true where the variable is false.
    pub fn negative(self) -> Lit
        ensures { result ≡ literal_of self false }
    {
        self.lit(false)
    }

    /// The last variable that a solver takes.
    pub fn max_var() -> Var
        ensures { result ≡ variable_limit - 1 }
    {
        Var::from_index(VARIABLE_LIMIT - 1)
    }

    /// How many variables a solver takes.
    pub fn max_count() -> usize
        ensures { result ≡ variable_limit }
    {
        VARIABLE_LIMIT
    }

    /// The literal that is true where the variable has the polarity.
    pub fn lit(self, polarity: bool) -> Lit
        ensures { result ≡ literal_of self polarity }
    {
        if polarity {
            Lit {
                code: self.index * 2,
            }
        } else {
            Lit {
                code: self.index * 2 + 1,
            }
        }
    }
}

/// A literal, by its code: twice the variable's index, and one more where it is negative. Literals are ordered by code.
#[derive(Clone, Copy, PartialEq, Eq, PartialOrd, Ord, Hash)]
pub struct Lit {
    code: u32,
}

impl Model for Lit {
    ghost Value = { ℕ };

    ghost view = { λ l. l.code };

    ghost inverse = { λ n. record { code = n } };

    ghost invariant = { λ l. l.code < 2 ^ 32 };
}

impl Lit {
    /// The literal that is true where the variable has the polarity.
    pub fn from_var(var: Var, polarity: bool) -> Lit
        ensures { result ≡ literal_of var polarity }
    {
        var.lit(polarity)
    }

    /// The literal that is true where the variable is.
    pub fn positive(var: Var) -> Lit
        ensures { result ≡ literal_of var true }
    {
        var.positive()
    }

    /// The literal that is true where the variable is false.
    pub fn negative(var: Var) -> Lit
        ensures { result ≡ literal_of var false }
    {
        var.negative()
    }

    /// The literal that is true where the variable with the index has the polarity.
    pub fn from_index(index: usize, polarity: bool) -> Lit
        requires { index < 2 ^ 31 }
        ensures { result ≡ literal_of index polarity }
    {
        Var::from_index(index).lit(polarity)
    }

    /// The literal with the DIMACS number: its variable's number, negative where the literal is. The number is not 0,
    /// and its absolute value is at most 2^31.
    pub fn from_dimacs(number: isize) -> Lit
        requires { IsLiteralNumber number }
        ensures literal { result ≡ literal_numbered number }
        ensures number { literal_number result ≡ number }
    {
        if number < 0 {
            Var::from_dimacs(-number).negative()
        } else {
            Var::from_dimacs(number).positive()
        }
    }

    /// The DIMACS number, whose literal it is.
    pub fn to_dimacs(self) -> isize
        ensures number { result ≡ literal_number self }
        ensures valid { IsLiteralNumber result }
        ensures literal { literal_numbered result ≡ self }
    {
        let number = self.var().to_dimacs();
        if self.is_negative() { -number } else { number }
    }

    /// The literal of the same sign whose variable is what `f` makes of this one's.
    pub fn map_var<F: FnOnce(Var) -> Var>(self, f: F) -> Lit
        requires { F.pre f (variable_of self) }
        ensures { (v : ℕ) × F.post f (variable_of self) v × (result ≡ literal_of v (polarity_of self)) }
    {
        f(self.var()).lit(self.is_positive())
    }

    /// The literal with the code.
    pub fn from_code(code: usize) -> Lit
        requires { code < 2 ^ 32 }
        ensures { result ≡ code }
    {
        Lit { code: code as u32 }
    }

    /// The code.
    pub fn code(self) -> usize
        ensures code { result ≡ self }
        ensures small { result < 2 ^ 32 }
    {
        self.code as usize
    }

    /// The variable.
    pub fn var(self) -> Var
        ensures { result ≡ variable_of self }
    {
        Var {
            index: self.code / 2,
        }
    }

    /// The variable's index.
    pub fn index(self) -> usize
        ensures index { result ≡ variable_of self }
        ensures small { result < 2 ^ 31 }
    {
        (self.code / 2) as usize
    }

    /// Whether it is the variable's opposite.
    pub fn is_negative(self) -> bool
        ensures { IsTrue result ↔ (self % 2 ≡ 1) }
    {
        self.code % 2 == 1
    }

    /// Whether it is the variable itself.
    pub fn is_positive(self) -> bool
        ensures { IsTrue result ↔ (self % 2 ≡ 0) }
    {
        !self.is_negative()
    }
}

impl Not for Lit {
    type Output = Lit;

    ghost not_gives = { λ l r. r ≡ opposite l };

    /// The opposite literal.
    #[tactic(auto, unfolding(varisat_theory::specs::promises::Literals::opposite))]
    fn not(self) -> Lit
        ensures { result ≡ opposite self }
    {
        // `code ^ 1`, in the arithmetic in which the laws of literals are stated, and without a branch: it compiles to one `xor`.
        Lit {
            code: self.code / 2 * 2 + 1 - self.code % 2,
        }
    }
}

impl BitXor<bool> for Lit {
    type Output = Lit;

    ghost bitxor_gives = { λ l flips r. r ≡ (if flips then opposite l else l) };

    /// The opposite literal where `flips`, and else the literal itself.
    fn bitxor(self, flips: bool) -> Lit
        ensures { result ≡ (if flips then opposite self else self) }
    {
        if flips { !self } else { self }
    }
}

impl fmt::Display for Var {
    ghost output = { λ v. Some (number_text (variable_number v)) };

    /// Prints the DIMACS number.
    fn fmt<W: fmt::Write>(&self, f: &mut fmt::Formatter<W>) -> fmt::Result {
        let number = self.to_dimacs();
        write!(f, "{number}")
    }
}

impl fmt::Debug for Var {
    ghost debug_output = { λ v. Some (number_text (variable_number v)) };

    /// Prints the DIMACS number.
    fn fmt<W: fmt::Write>(&self, f: &mut fmt::Formatter<W>) -> fmt::Result {
        fmt::Display::fmt(self, f)
    }
}

impl fmt::Display for Lit {
    ghost output = { λ l. Some (number_text (literal_number l)) };

    /// Prints the DIMACS number.
    fn fmt<W: fmt::Write>(&self, f: &mut fmt::Formatter<W>) -> fmt::Result {
        let signed = self.to_dimacs();
        write!(f, "{signed}")
    }
}

impl fmt::Debug for Lit {
    ghost debug_output = { λ l. Some (number_text (literal_number l)) };

    /// Prints the DIMACS number.
    fn fmt<W: fmt::Write>(&self, f: &mut fmt::Formatter<W>) -> fmt::Result {
        write!(f, "{self}")
    }
}
