//! The refusals of a program, among those of a source.
ghost use Rattle.std.specs.Prelude.{◌≡◌};
ghost use Rattle.ds2_elaboration.specs.Elaboration.{OfNames, OfTypes};
ghost use Rattle.ds2_source.specs.SourceRefusals.{source_refusal_of};

use ds2_base::Refusal;
use ds2_meaning::{ScopeKind, TypeKind};
use ds2_source::{SourceKind, SourceRefusal};

/// A refusal of names.
pub(crate) fn of_names(refusal: Refusal<ScopeKind>) -> SourceRefusal
    ensures { result ≡ source_refusal_of (OfNames refusal) }
{
    SourceRefusal {
        kind: SourceKind::Scope(refusal.kind),
        place: refusal.place,
    }
}

/// A refusal of types.
pub(crate) fn of_types(refusal: Refusal<TypeKind>) -> SourceRefusal
    ensures { result ≡ source_refusal_of (OfTypes refusal) }
{
    SourceRefusal {
        kind: SourceKind::Types(refusal.kind),
        place: refusal.place,
    }
}
