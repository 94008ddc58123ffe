//! Laws of readings.
ghost use Rattle.std.specs.Prelude.{ℕ, List, Ok};
ghost use Rattle.hol_kernel.specs.Items.{Items, IsSubset};
ghost use Rattle.hol_kernel.specs.Signature.{has_arity, has_constant};
ghost use Rattle.hol_infer.specs.Standing.{AreStanding};
ghost use Rattle.hol_resolve.specs.declared.quotations.AnyQuotation.{AnyQuotation};
ghost use Rattle.hol_resolve.specs.Signature.{SignatureValue};
ghost use Rattle.hol_resolve.specs.Readings.{ReadingsValue, AreRead};
ghost use Rattle.hol_resolve.specs.Over.{AreOver};

/// Where what is looked up stands over a basis, the readings stand over it; and what stands over a basis stands over each larger one.
pub fn readings_are_over()
    ensures over { (basis : Items) (over : SignatureValue) (quotations : List AnyQuotation) (readings : ReadingsValue) → AreStanding (has_arity basis) (has_constant basis) over.types over.constants → AreRead over quotations (Ok readings) → AreOver basis readings }
    ensures larger { (few more : Items) (readings : ReadingsValue) → IsSubset few more → AreOver few readings → AreOver more readings }
{}
