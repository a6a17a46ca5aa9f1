//! Strays: asks whose askers ended before they were carried out.

ghost use Rattle.std.specs.Prelude.{◌≡◌, ◌++◌, ◌∷◌, ◌-◌, [], Some, None, is_some, slice_set, OnOk, IfSome};
ghost use Rattle.zp_script.specs.Faults.{left_at};
ghost use Rattle.zp_world.specs.Flying.{IsFit};

use std::alloc::Global;
use std::marker::Model;
use std::mem;
use zp_script::Asking;
use zx_base::Memory;

/// The strays in the order in which they arose, numbered from 1. `None` stands for one that was carried out since.
#[derive(Drop)]
pub struct Strays {
    left: Vec<Option<Asking>>,
}

impl Model for Strays {
    ghost use Rattle.std.specs.Prelude.{List, Option};
    ghost use Rattle.zp_script.specs.declared.flight.Asking.{Asking};
    ghost use Rattle.zp_world.specs.Flying.{AreFit};

    ghost Value = { List (Option Asking) };

    ghost view = { λ s. s.left.items };

    ghost invariant = { λ s. AreFit s.left.items };
}

impl Strays {
    /// No stray yet.
    pub fn new(alloc: Global) -> Strays
        ensures { result ≡ [] }
    {
        Strays {
            left: Vec::new(alloc),
        }
    }

    /// Whether there is a stray of this number that was not carried out.
    pub fn has(&self, number: u32) -> bool
        ensures { result ≡ is_some (left_at number self.now) }
    {
        let Some(place) = (number as usize).checked_sub(1) else {
            return false;
        };
        match self.left.get(place) {
            Some(Some(_)) => true,
            Some(None) | None => false,
        }
    }

    /// Adds a stray, which takes the next number.
    pub fn leave(&mut self, asking: Asking) -> Result<(), Memory>
        requires { IsFit asking }
        ensures { OnOk result (self.new ≡ self.old ++ Some asking ∷ []) }
    {
        self.left.push(Some(asking))?;
        Ok(())
    }

    /// Takes a stray, to be carried out. None: there is none of this number, or it was carried out.
    pub fn take(&mut self, number: u32) -> Option<Asking>
        ensures taken { result ≡ left_at number self.old }
        ensures left { IfSome result (λ _. self.new ≡ slice_set self.old (number - 1) None) }
        ensures fit { IfSome result IsFit }
    {
        let place = (number as usize).checked_sub(1)?;
        let left = self.left.get_mut(place)?;
        mem::replace(left, None)
    }
}
