//! The partial assignment, and the value that each variable had last.
ghost use Rattle.std.specs.Prelude.{◌≡◌, ◌<◌, ◌≤◌, ◌↔◌, ◌++◌, ◌-◌, IsTrue, [], length, replicate, slice_index_or, slice_set, Option, Some, None, true, false, OnOk, OnErr};
ghost use Rattle.varisat_theory.specs.promises.Literals.{variable_of, opposite};
ghost use Rattle.varisat_literals.specs.promises.Numbers.{polarity_of};
ghost use Rattle.varisat_prop.specs.Parts.{IsMadeTrue, value_in, no_values, without_value};

use crate::prop::lit_value::LitValue;
use std::alloc::{AllocError, Allocator};
use std::marker::Model;
use varisat_literals::{Lit, Var};

/// The value of each variable, if it has one, and the value that it had before.
// Propagation asks of nearly each literal that it meets whether it is false, or true. The variable's value answers that in two
// bytes, whether there is one and which, after a shift for the variable and a test of the literal's sign: two branches that
// can't be predicted. So there is also a byte for each literal that says just this. It stands at the literal's code, and is
// read with one look at memory. Writing a value costs two bytes more, but values are read far more often.
#[derive(Drop)]
pub struct Assignment<A: Allocator + Copy> {
    assignment: Vec<Option<bool>, A>,
    last_value: Vec<bool, A>,
    // For each literal, at its code, its value. `set_var` alone writes it, together with the variable's value.
    lit_values: Vec<LitValue, A>,
}

impl<A: Allocator + Copy> Model for Assignment<A> {
    ghost use Rattle.std.specs.Prelude.{◌≡◌, ◌*◌, length};
    ghost use Rattle.varisat_prop.specs.Parts.{Values, AreValuesOf};

    ghost Value = { Values };

    ghost view = { λ a. record { current = a.assignment.items; last = a.last_value.items } };

    ghost invariant = { λ a. (length a.last_value.items ≡ length a.assignment.items) × (length a.lit_values.items ≡ 2 * length a.assignment.items)
        × AreValuesOf a.assignment.items a.lit_values.items };
}

impl<A: Allocator + Copy> Assignment<A> {
    /// No variables. It takes no memory.
    pub fn new_in(alloc: A) -> Assignment<A>
        ensures { result ≡ no_values }
    {
        Assignment {
            assignment: Vec::new(alloc),
            last_value: Vec::new(alloc),
            lit_values: Vec::new(alloc),
        }
    }

    /// Raises the count of variables. The new ones have no value, and had the value false. A refused growth changes
    /// nothing.
    pub fn set_var_count(&mut self, count: usize) -> Result<(), AllocError>
        requires { length self.old.current ≤ count }
        ensures current { OnOk result
            (self.new.current ≡ self.old.current ++ replicate (count - length self.old.current) None) }
        ensures last { OnOk result
            (self.new.last ≡ self.old.last ++ replicate (count - length self.old.current) false) }
        ensures refused { OnErr result (self.new ≡ self.old) }
    {
        // There are twice as many literals.
        if count > usize::MAX / 2 {
            return Err(AllocError);
        }
        let old_count = self.assignment.len();
        self.assignment.resize(count, None)?;
        if let Err(error) = self.last_value.resize(count, false) {
            self.assignment.truncate(old_count);
            return Err(error);
        }
        if let Err(error) = self.lit_values.resize(2 * count, LitValue::Unknown) {
            self.assignment.truncate(old_count);
            self.last_value.truncate(old_count);
            return Err(error);
        }
        Ok(())
    }

    /// The value of each variable.
    pub fn assignment(&self) -> &[Option<bool>]
        ensures { result.now ≡ self.now.current }
    {
        self.assignment.as_slice()
    }

    /// Takes the value of the true literal's variable away, and remembers it as the last.
    // A search undoes nearly all that it propagates. The literal tells the value, so that it is not read again.
    pub fn release_lit(&mut self, lit: Lit)
        requires { IsMadeTrue self.old.current lit }
        ensures count { length self.old.last ≡ length self.old.current }
        ensures released { self.new ≡ without_value (variable_of lit) (polarity_of lit) self.old }
    {
        self.last_value[lit.index()] = lit.is_positive();
        self.unassign_var(lit.var());
    }

    /// Takes the variable's value away, and also what was remembered of it: the last is false, as at first.
    pub fn forget_var(&mut self, var: Var)
        requires { var < length self.old.current }
        ensures { self.new ≡ without_value var false self.old }
    {
        self.last_value[var.index()] = false;
        self.unassign_var(var);
    }

    /// The value of the variable, if it has one.
    pub fn var_value(&self, var: Var) -> Option<bool>
        requires { var < length self.now.current }
        ensures { result ≡ slice_index_or self.now.current var None }
    {
        self.assignment[var.index()]
    }

    /// The value of the variable that `release_lit` remembered last, false at first.
    pub fn last_var_value(&self, var: Var) -> bool
        requires { var < length self.now.current }
        ensures { result ≡ slice_index_or self.now.last var false }
    {
        self.last_value[var.index()]
    }

    /// The value of the literal, if its variable has one.
    pub fn lit_value(&self, lit: Lit) -> Option<bool>
        requires { variable_of lit < length self.now.current }
        ensures { result ≡ value_in self.now.current lit }
    {
        self.assignment[lit.index()].map(|value| value ^ lit.is_negative())
    }

    /// Whether the literal is true.
    pub fn lit_is_true(&self, lit: Lit) -> bool
        requires { variable_of lit < length self.now.current }
        ensures { IsTrue result ↔ IsMadeTrue self.now.current lit }
    {
        self.lit_values[lit.code()].is_true()
    }

    /// Whether the literal is false.
    pub fn lit_is_false(&self, lit: Lit) -> bool
        requires { variable_of lit < length self.now.current }
        ensures { IsTrue result ↔ IsMadeTrue self.now.current (opposite lit) }
    {
        self.lit_values[lit.code()].is_false()
    }

    /// Whether the literal's variable has no value.
    pub fn lit_is_unk(&self, lit: Lit) -> bool
        requires { variable_of lit < length self.now.current }
        ensures { IsTrue result ↔ (slice_index_or self.now.current (variable_of lit) None ≡ None) }
    {
        self.lit_values[lit.code()].is_unknown()
    }

    /// Makes the literal true.
    pub fn assign_lit(&mut self, lit: Lit)
        requires { variable_of lit < length self.old.current }
        ensures { self.new
            ≡ record self.old { current = slice_set self.old.current (variable_of lit) (Some (polarity_of lit)) } }
    {
        self.set_var(lit.var(), Some(lit.is_positive()));
    }

    /// Takes the variable's value away.
    pub fn unassign_var(&mut self, var: Var)
        requires { var < length self.old.current }
        ensures { self.new ≡ record self.old { current = slice_set self.old.current var None } }
    {
        self.set_var(var, None);
    }

    /// Gives the variable the value, or takes its value away.
    pub fn set_var(&mut self, var: Var, assignment: Option<bool>)
        requires { var < length self.old.current }
        ensures { self.new ≡ record self.old { current = slice_set self.old.current var assignment } }
    {
        self.assignment[var.index()] = assignment;
        let value = LitValue::from_option(assignment);
        self.lit_values[var.positive().code()] = value;
        self.lit_values[var.negative().code()] = value.negated();
    }
}
