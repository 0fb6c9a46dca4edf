// Variables that were not drawn before.
ghost use Rattle.std.specs.Prelude.{◌≡◌};
ghost use Rattle.ef_core.specs.Fresh.{Draws};

use crate::CoreVar;
use std::marker::Model;

/// A source of variables, `_0` first. Contracts see it as the number of variables that were drawn.
#[derive(Drop)]
pub struct Fresh {
    drawn: u32,
}

impl Model for Fresh {
    ghost use Rattle.std.specs.Prelude.{ℕ, ◌≤◌};
    ghost use Rattle.ef_core.specs.Fresh.{most_variables};

    ghost Value = { ℕ };

    ghost view = { λ f. f.drawn };

    ghost invariant = { λ f. f.drawn ≤ most_variables };
}

impl Fresh {
    /// No variable is drawn yet.
    pub fn new() -> Fresh
        ensures { result ≡ 0 }
    {
        Fresh { drawn: 0 }
    }

    /// A source that goes on from here by itself: it draws the same variables.
    pub fn copy(&self) -> Fresh
        ensures { result ≡ self.now }
    {
        Fresh { drawn: self.drawn }
    }

    /// The next variable; none once 2^32 - 1 were drawn.
    pub fn next(&mut self) -> Option<CoreVar>
        ensures { Draws self.old self.new result }
    {
        if self.drawn == u32::MAX {
            return None;
        }
        let var = CoreVar::Numbered(self.drawn);
        self.drawn += 1;
        Some(var)
    }
}
