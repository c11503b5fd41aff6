//! What is proved of a whole circuit, for every number of shares from two up: the shift of a tape, which probes fit, and
//! that an accepted circuit is non-interfering. None of it bounds how many gates a circuit has.
ghost use Rattle.mask_laws.specs.Circuits.{AcceptedFits, AcceptedIsNI, AcceptedIsSimulated, AcceptedNeedsFew};
ghost use Rattle.mask_laws.specs.Circuits.{FittingIsSimulated, ShiftKeeps, ShiftReorders, ShiftReturns};

/// The shift of a tape is as long as the tape, and shifting back gives the tape, whatever the probes.
pub fn shift_returns()
    ensures { ShiftReturns }
{}

/// The shift takes each tape once: over all tapes, a sum of what the shifted tapes give is the sum of what the tapes
/// give. So what is counted over all tapes doesn't change by a shift.
pub fn shift_reorders_tapes()
    ensures { ShiftReorders }
{}

/// On inputs that agree on the need of probes that fit, the probes see with the shifted tape what they saw with the tape
/// on the other inputs. Each share of any value that the probes demand stays the same too.
pub fn shift_keeps_what_is_seen()
    ensures { ShiftKeeps }
{}

/// Probes that fit are simulated from their need: how often they see what, over all tapes, depends on the shares in the
/// need alone.
pub fn fitting_probes_are_simulated()
    ensures { FittingIsSimulated }
{}

/// In an accepted circuit a probe demands at most one share of each source. So for each input, product and refresh its
/// inner probes and the demanded shares of its value are together no more than all probes.
pub fn accepted_needs_few_shares()
    ensures { AcceptedNeedsFew }
{}

/// Fewer probes than shares fit an accepted circuit: at each product and refresh the inner probes and the demanded
/// shares are together fewer than the shares.
pub fn accepted_fits()
    ensures { AcceptedFits }
{}

/// Fewer probes than shares of an accepted circuit are simulated from their need, which has at most as many shares of
/// each input as there are probes.
pub fn accepted_is_simulated()
    ensures { AcceptedIsSimulated }
{}

/// An accepted circuit is non-interfering: any t wires, fewer than the shares, are simulated from at most t shares of
/// each input.
pub fn accepted_is_ni()
    ensures { AcceptedIsNI }
{}
