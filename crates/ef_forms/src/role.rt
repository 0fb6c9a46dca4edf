// What an expression of a tree is there for.
ghost use Rattle.std.specs.Prelude.{◌≡◌};
ghost use Rattle.ef_forms.specs.Roles as r;

/// What an expression stands for.
#[derive(Clone, Copy, Debug, PartialEq, Eq)]
pub enum Role {
    /// A value that is computed.
    Body,
    Pattern,
    Guard,
    /// The size of a segment of a pattern.
    PatternSize,
    /// The name of what is called, and each part of `fun module:function/arity`.
    Target,
    /// A test among qualifiers.
    Filter,
}

impl Role {
    /// The role of the parts of a node, where they have none of their own.
    pub fn inside(self) -> Role
        ensures { result ≡ r.inside self }
    {
        match self {
            Role::Pattern => Role::Pattern,
            Role::Guard => Role::Guard,
            _ => Role::Body,
        }
    }

    /// The role of the size of a segment whose value has this role.
    pub fn of_size(self) -> Role
        ensures { result ≡ r.of_size self }
    {
        match self {
            Role::Pattern => Role::PatternSize,
            role => role,
        }
    }
}
