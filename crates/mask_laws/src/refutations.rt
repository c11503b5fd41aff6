//! That the definitions can fail: non-interference, strong non-interference, the simulation of a whole run, and privacy.
ghost use Rattle.mask_laws.specs.Refutations.{HandedOnIsNotSNI, SquaredLeaks, TakenTwiceLeaks};

/// The product of a value by itself is neither non-interfering nor private on two shares.
pub fn squared_leaks()
    ensures { SquaredLeaks }
{}

/// A circuit whose output is its input is non-interfering, and not strongly so.
pub fn handed_on_is_not_sni()
    ensures { HandedOnIsNotSNI }
{}

/// A strong circuit that takes one variable for two inputs makes no run of strong calls, and rightly so: one of its wires
/// isn't simulated from one share of the variable, and the run isn't private.
pub fn taken_twice_leaks()
    ensures { TakenTwiceLeaks }
{}
