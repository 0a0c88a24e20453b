//! The variables of an evaluation.
ghost use Rattle.std.specs.Prelude.{◌≡◌, ◌++◌, [], IfOk, OnOk};
ghost use Rattle.pj_xvalue.specs.Items.{values_of};
ghost use Rattle.pj_xsteps.specs.Context.{given_of, value_of_variable};
ghost use Rattle.pj_xframes.specs.Scopes.{bound_of, variables_of, with_variable, without};

use pj_base::{NoMemory, Text};
use pj_xsteps::copied_items;
use pj_xvalue::{BoundVars, Sequence};
use std::alloc::Global;
use std::marker::Model;

/// A variable that an expression binds.
#[derive(Drop)]
pub struct Binding<'e, 't> {
    pub name: &'e Text,
    pub value: Sequence<'t>,
}

/// The variables: those that expressions around bind, the last one last, and those that are given.
#[derive(Drop)]
pub struct Scope<'e, 't> {
    bound: Vec<Binding<'e, 't>>,
    given: &'t BoundVars<'t>,
}

impl<'e, 't> Model for Scope<'e, 't> {
    ghost use Rattle.pj_xframes.specs.Scopes.{Scoped};
    ghost use Rattle.pj_xframes.specs.Scopes.{bound_of};
    ghost use Rattle.pj_xsteps.specs.Context.{given_of};

    ghost Value = { Scoped };

    ghost view = { λ s. record { bound = bound_of s.bound.items; given = given_of s.given.now } };
}

impl<'e, 't> Scope<'e, 't> {
    /// The variables that are given, and no others.
    pub fn new(alloc: Global, given: &'t BoundVars<'t>) -> Scope<'e, 't>
        ensures { result ≡ record { bound = []; given = given_of given.now } }
    {
        Scope {
            bound: Vec::new(alloc),
            given,
        }
    }

    /// Binds a variable.
    pub fn bind(&mut self, name: &'e Text, value: Sequence<'t>) -> Result<(), NoMemory>
        ensures { OnOk result (self.new ≡ with_variable name.now (values_of value.entry) self.old) }
    {
        self.bound.push(Binding { name, value })?;
        Ok(())
    }

    /// Takes back the variable that was bound last.
    pub fn unbind(&mut self)
        ensures { self.new ≡ without 1 self.old }
    {
        let _ = self.bound.pop();
    }

    /// Takes back so many variables that were bound last.
    pub fn unbind_all(&mut self, count: usize)
        ensures { self.new ≡ without count self.old }
    {
        for i in 0..count {
            let _ = i;
            self.unbind();
        }
    }

    /// The value of a variable, and nothing where it is not there.
    pub fn value_of(&self, alloc: Global, name: &Text) -> Result<Sequence<'t>, NoMemory>
        ensures { IfOk result (λ items. values_of items ≡ value_of_variable name.now (variables_of self.now)) }
    {
        bound_value(alloc, self.bound.as_slice(), self.given, name)
    }
}

/// The value of a variable among those that are bound and those that are given, and nothing where it is not there.
fn bound_value<'t>(
    alloc: Global,
    bound: &[Binding<'_, 't>],
    given: &BoundVars<'t>,
    name: &Text,
) -> Result<Sequence<'t>, NoMemory>
    ensures { IfOk result (λ items. values_of items ≡ value_of_variable name.now (bound_of bound.now ++ given_of given.now)) }
{
    let mut left = bound.len();
    while left > 0 {
        left -= 1;
        let binding = &bound[left];
        if binding.name == name {
            return copied_items(alloc, binding.value.as_slice());
        }
    }
    given_value(alloc, given, name)
}

/// The value of a variable that is given, and nothing where it is not there.
fn given_value<'t>(
    alloc: Global,
    given: &BoundVars<'t>,
    name: &Text,
) -> Result<Sequence<'t>, NoMemory>
    ensures { IfOk result (λ items. values_of items ≡ value_of_variable name.now (given_of given.now)) }
{
    for variable in given.as_slice() {
        if &variable.0 == name {
            return copied_items(alloc, variable.1.as_slice());
        }
    }
    Ok(Sequence::new(alloc))
}
