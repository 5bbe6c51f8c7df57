//! Profiles: which forms of LEF and DEF texts are read (lefdef's own rule).

ghost use Rattle.std.specs.Prelude.{◌≡◌};
ghost use Rattle.leg_grammar.specs.Profiles.{is_wide};

/// What is made of a mask that a text gives a shape.
#[derive(Clone, Copy, PartialEq, Eq, Debug)]
pub enum Masks {
    /// The text is refused.
    Refused,
    /// The shape is read as if it had none.
    Dropped,
}

/// What is made of a placement blockage that is `SOFT` or `PARTIAL`.
#[derive(Clone, Copy, PartialEq, Eq, Debug)]
pub enum Soft {
    /// The text is refused.
    Refused,
    /// The text is read as if the blockage were not there.
    Dropped,
    /// The blockage is one as any other.
    Hard,
}

/// Which forms of LEF and DEF texts are read. Everything that reads a text takes one, and what a form means is said for each.
#[derive(Clone, Copy, PartialEq, Eq, Debug)]
pub enum Profile {
    /// The forms that a block of standard cells needs.
    Narrow,
    /// Those, and forms of real flows.
    Wide {
        /// What is made of masks.
        masks: Masks,
        /// What is made of soft and partial blockages.
        soft: Soft,
    },
}

impl Profile {
    /// Whether forms that are of the wide profile alone are read.
    pub fn is_wide(self) -> bool
        ensures { result ≡ is_wide self }
    {
        match self {
            Profile::Narrow => false,
            Profile::Wide { .. } => true,
        }
    }
}
