//! The items of a query that choose units, as numbers.
ghost use Rattle.std.specs.Prelude.{◌≡◌};
ghost use Rattle.query_lang.specs.Parts.{level_in, is_group, is_narrowing};

/// What an item of the dimension `ou` chooses.
#[derive(Clone, Copy)]
pub enum Part {
    /// The unit with that number.
    Unit(u32),
    /// The view units of the user.
    User,
    /// Their children.
    Children,
    /// The children of these.
    Grandchildren,
    /// The units at a level of the tree.
    Level(u8),
    /// The units of the group with that number.
    Group(u32),
}

impl Part {
    /// The level, where it is one.
    pub fn level(self) -> Option<u8>
        ensures { result ≡ level_in self }
    {
        match self {
            Part::Unit(_) => None,
            Part::User => None,
            Part::Children => None,
            Part::Grandchildren => None,
            Part::Level(level) => Some(level),
            Part::Group(_) => None,
        }
    }

    /// Whether it is a group.
    pub fn is_group(self) -> bool
        ensures { result ≡ is_group self }
    {
        match self {
            Part::Unit(_) => false,
            Part::User => false,
            Part::Children => false,
            Part::Grandchildren => false,
            Part::Level(_) => false,
            Part::Group(_) => true,
        }
    }

    /// Whether it chooses among the units under others.
    pub fn is_narrowing(self) -> bool
        ensures { result ≡ is_narrowing self }
    {
        match self {
            Part::Unit(_) => false,
            Part::User => false,
            Part::Children => false,
            Part::Grandchildren => false,
            Part::Level(_) => true,
            Part::Group(_) => true,
        }
    }
}
