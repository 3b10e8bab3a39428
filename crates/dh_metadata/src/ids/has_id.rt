//! Raw records by their identifiers.

ghost use Rattle.std.specs.Prelude.{◌≡◌, ℕ, List};

use crate::raw::{
    RawApprovalLevel, RawAttribute, RawCategory, RawCategoryCombo, RawCategoryOption, RawConstant,
    RawDataSet, RawElement, RawEntityType, RawIndicator, RawIndicatorType, RawOptionCombo,
    RawProgram, RawProgramIndicator, RawRole, RawRule, RawStage, RawUnit, RawUnitGroup, RawUser,
    RawUserGroup, RawWorkflow,
};
use dh_base::uid::Uid;

/// An object that has an identifier.
pub trait HasId {
    /// The identifier.
    ghost id_of: { Self → List ℕ };

    /// The identifier.
    fn id(&self) -> Uid
        ensures { result ≡ id_of self.now };
}

impl HasId for RawUnit {
    ghost id_of = { λ object. object.id };

    fn id(&self) -> Uid {
        self.id
    }
}

impl HasId for RawUnitGroup {
    ghost id_of = { λ object. object.id };

    fn id(&self) -> Uid {
        self.id
    }
}

impl HasId for RawCategoryOption {
    ghost id_of = { λ object. object.id };

    fn id(&self) -> Uid {
        self.id
    }
}

impl HasId for RawCategory {
    ghost id_of = { λ object. object.id };

    fn id(&self) -> Uid {
        self.id
    }
}

impl HasId for RawCategoryCombo {
    ghost id_of = { λ object. object.id };

    fn id(&self) -> Uid {
        self.id
    }
}

impl HasId for RawOptionCombo {
    ghost id_of = { λ object. object.id };

    fn id(&self) -> Uid {
        self.id
    }
}

impl HasId for RawElement {
    ghost id_of = { λ object. object.id };

    fn id(&self) -> Uid {
        self.id
    }
}

impl HasId for RawApprovalLevel {
    ghost id_of = { λ object. object.id };

    fn id(&self) -> Uid {
        self.id
    }
}

impl HasId for RawWorkflow {
    ghost id_of = { λ object. object.id };

    fn id(&self) -> Uid {
        self.id
    }
}

impl HasId for RawDataSet {
    ghost id_of = { λ object. object.id };

    fn id(&self) -> Uid {
        self.id
    }
}

impl HasId for RawConstant {
    ghost id_of = { λ object. object.id };

    fn id(&self) -> Uid {
        self.id
    }
}

impl HasId for RawIndicatorType {
    ghost id_of = { λ object. object.id };

    fn id(&self) -> Uid {
        self.id
    }
}

impl HasId for RawIndicator {
    ghost id_of = { λ object. object.id };

    fn id(&self) -> Uid {
        self.id
    }
}

impl HasId for RawRule {
    ghost id_of = { λ object. object.id };

    fn id(&self) -> Uid {
        self.id
    }
}

impl HasId for RawEntityType {
    ghost id_of = { λ object. object.id };

    fn id(&self) -> Uid {
        self.id
    }
}

impl HasId for RawAttribute {
    ghost id_of = { λ object. object.id };

    fn id(&self) -> Uid {
        self.id
    }
}

impl HasId for RawProgram {
    ghost id_of = { λ object. object.id };

    fn id(&self) -> Uid {
        self.id
    }
}

impl HasId for RawStage {
    ghost id_of = { λ object. object.id };

    fn id(&self) -> Uid {
        self.id
    }
}

impl HasId for RawProgramIndicator {
    ghost id_of = { λ object. object.id };

    fn id(&self) -> Uid {
        self.id
    }
}

impl HasId for RawRole {
    ghost id_of = { λ object. object.id };

    fn id(&self) -> Uid {
        self.id
    }
}

impl HasId for RawUser {
    ghost id_of = { λ object. object.id };

    fn id(&self) -> Uid {
        self.id
    }
}

impl HasId for RawUserGroup {
    ghost id_of = { λ object. object.id };

    fn id(&self) -> Uid {
        self.id
    }
}
