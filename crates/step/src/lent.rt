// One clinic's record, lent for one step.
ghost use Rattle.std.specs.Prelude.{◌≡◌};
ghost use Rattle.search.specs.Clinic.{clinic_of};
ghost use Rattle.step.specs.Inner.StepContracts.{catalogue_in, StepNeeds, Stepped};

use crate::basis::Basis;
use crate::written::step;
use search::Seat;

// The step, said of the record behind the reference.
pub fn step_in(seat: &mut Seat, share: &mut [u8], basis: &Basis)
    requires { StepNeeds basis.now seat.old share.old }
    ensures { Stepped (catalogue_in basis.now)
        (clinic_of seat.old share.old) (clinic_of seat.new share.new) }
{
    *seat = step(*seat, share, basis);
}
