//! Circuits whose outputs stand by themselves.

ghost use Rattle.std.specs.Prelude.{◌≡◌, IfOk, IfErr};
ghost use Rattle.mask_circuit.specs.Netlist.{Netlist};
ghost use Rattle.mask_circuit.specs.Acceptance.{IsFenced, IsStrong};
ghost use Rattle.mask_check.specs.Fencing.{IsWeakness};
ghost use Rattle.mask_check.specs.Security.{IsSNIAtEachOrder};

use crate::admission::Admitted;
use crate::fences::lowest_gap;
use std::alloc::{AllocError, Global};
use std::marker::Model;

/// Why a circuit isn't strong.
#[derive(Clone, Copy, Debug, PartialEq, Eq)]
pub enum StrengthenError {
    /// The lowest place in the output list whose value isn't a refresh, is used by a gate, or stands at an earlier place.
    NotFenced { output: u32 },
    /// There is no memory.
    NoMemory,
}

/// A strong circuit: accepted, with outputs that are distinct refreshes which no gate uses. It is strongly
/// non-interfering with any number of shares.
#[derive(Drop)]
pub struct Strong {
    admitted: Admitted,
}

impl Model for Strong {
    ghost Value = { Netlist };

    ghost view = { λ s. s.admitted };

    ghost invariant = { λ s. IsFenced s.admitted };
}

impl Strong {
    /// The circuit as an admitted one.
    pub fn admitted(&self) -> &Admitted
        ensures same { result.now ≡ self.now }
        ensures strong { IsStrong self.now }
        ensures secure { IsSNIAtEachOrder self.now }
    {
        let _circuit = self.admitted.circuit();
        &self.admitted
    }
}

/// Makes an admitted circuit a strong one where its outputs stand by themselves; else it is dropped.
pub fn strengthen(alloc: Global, admitted: Admitted) -> Result<Strong, StrengthenError>
    ensures strengthened { IfOk result (λ s. s ≡ admitted) }
    ensures strong { IfOk result (λ s. IsStrong s) }
    ensures secure { IfOk result (λ s. IsSNIAtEachOrder s) }
    ensures refused { IfErr result (λ e. IsWeakness admitted e) }
{
    match lowest_gap(alloc, admitted.circuit()) {
        Ok(None) => Ok(Strong { admitted }),
        Ok(Some(output)) => Err(StrengthenError::NotFenced { output }),
        Err(AllocError) => Err(StrengthenError::NoMemory),
    }
}
