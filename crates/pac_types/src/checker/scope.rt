// The variables of a procedure that are known so far.
ghost use Rattle.std.specs.Prelude.{◌≡◌, ◌≤◌, ◌<◌, ◌^◌, IfOk, OnOk, length, []};
ghost use Rattle.pac_types.specs.Checking.{once, found, with_variable, hidden_in, left_at};

use crate::names::Names;
use crate::type_error::{TypeFault, TypeFaultKind};
use pac_syntax::NameNode;
use pac_value::Ty;
use std::alloc::{AllocError, Global};
use std::marker::Model;

/// A variable's number and type.
#[derive(Clone, Copy, Debug)]
pub(crate) struct Variable {
    pub number: u16,
    pub ty: Ty,
}

/// The names of a procedure, of which the first stand before, each with its variable where that is visible, and the
/// number that the next variable gets.
#[derive(Drop)]
pub(crate) struct Scope {
    names: Names,
    known: Vec<Option<Variable>>,
    next: usize,
}

impl Model for Scope {
    ghost use Rattle.pac_types.specs.Checking.{ScopeState};

    ghost Value = { ScopeState };

    ghost view = { λ scope. record { names = scope.names; known = scope.known.items; next = scope.next } };
}

impl Scope {
    /// No name stands before.
    pub fn new(alloc: Global, names: Names) -> Scope
        ensures { result ≡ record { names = names; known = []; next = 0 } }
    {
        Scope {
            names,
            known: Vec::new(alloc),
            next: 0,
        }
    }

    /// How many names stand before.
    pub fn len(&self) -> usize
        ensures { result ≡ length self.now.known }
    {
        self.known.len()
    }

    /// That a name stands here for the first time.
    pub fn once(&self, name: &NameNode) -> Result<(), TypeFault>
        ensures { result ≡ once self.now.names (length self.now.known) name.now }
    {
        self.names.once(self.known.len(), name)
    }

    /// The visible variable with a name.
    pub fn find(&self, name: &NameNode) -> Result<Variable, TypeFault>
        ensures { result ≡ found self.now name.now }
    {
        let at = name.at;
        let Some(index) = self.names.number(&name.name) else {
            let kind = TypeFaultKind::UnknownName;
            return Err(TypeFault { at, kind });
        };
        let index = usize::from(index);
        if index < self.known.len() {
            if let Some(variable) = self.known[index] {
                return Ok(variable);
            }
        }
        let kind = TypeFaultKind::OutOfScope;
        Err(TypeFault { at, kind })
    }

    /// The next name gets a variable, whose number is returned.
    pub fn define(&mut self, ty: Ty) -> Result<u16, AllocError>
        requires { self.old.next < 2 ^ 16 }
        ensures number { IfOk result (λ number. number ≡ self.old.next) }
        ensures known { OnOk result (self.new ≡ with_variable ty self.old) }
    {
        let number = self.next as u16;
        self.known.push(Some(Variable { number, ty }))?;
        self.next += 1;
        Ok(number)
    }

    /// A variable without a name, whose number is returned.
    pub fn hide(&mut self) -> u16
        requires { self.old.next < 2 ^ 16 }
        ensures number { result ≡ self.old.next }
        ensures known { self.new ≡ hidden_in self.old }
    {
        let number = self.next as u16;
        self.next += 1;
        number
    }

    /// The names from an index on are not visible any more.
    pub fn leave(&mut self, index: usize)
        ensures { self.new ≡ left_at index self.old }
    {
        for i in index..self.known.len() {
            self.known[i] = None;
        }
    }
}
