// A catalogue that has passed its check: what needs one without a fault takes it, and asks for nothing more.
ghost use Rattle.std.specs.Prelude.{◌≡◌, IfOk};
ghost use Rattle.builds.specs.Fault.{fault_of};
ghost use Rattle.catalogue.specs.Lent.{catalogue_lent, refused_number};

use crate::lent::Catalogue;
use numbers::Refusal;

#[derive(Clone, Copy)]
pub struct Accepted<'a> {
    pub catalogue: Catalogue<'a>,
    pub ghost faultless: { fault_of (catalogue_lent catalogue) ≡ 0 },
}

impl<'a> Catalogue<'a> {
    // This catalogue where it has no fault; else the fault met first.
    pub fn accepted(&self) -> Result<Accepted<'a>, Refusal>
        ensures this_one { IfOk result (λ accepted. accepted.catalogue ≡ self.now) }
        ensures fault_told { refused_number result ≡ fault_of (catalogue_lent self.now) }
    {
        self.fault()?;
        Ok(Accepted { catalogue: *self })
    }
}
