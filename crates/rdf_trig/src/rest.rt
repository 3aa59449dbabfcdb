// The cells that an rdf:rest is owed between.

ghost use Rattle.std.specs.Prelude.{◌≡◌, Some, None, is_some};

use std::marker::Model;

/// The cell before the one that a token opened, and that cell; or none, where it opened none. A state is moved with
/// each token, and an Option of the two would be moved byte by byte.
#[derive(Drop)]
pub struct Rest {
    is_owed: bool,
    cell: u64,
    next: u64,
}

impl Model for Rest {
    ghost use Rattle.std.specs.Prelude.{ℕ, Option, Some, None, cond};

    ghost Value = { Option (ℕ × ℕ) };

    ghost view = { λ r. cond r.is_owed (Some (r.cell, r.next)) None };
}

impl Rest {
    /// No cell was opened.
    pub fn none() -> Rest
        ensures { result ≡ None }
    {
        Rest {
            is_owed: false,
            cell: 0,
            next: 0,
        }
    }

    /// The second cell was opened after the first.
    pub fn of(cell: u64, next: u64) -> Rest
        ensures { result ≡ Some (cell, next) }
    {
        Rest {
            is_owed: true,
            cell,
            next,
        }
    }

    /// Whether a cell was opened.
    #[inline(always)]
    pub fn is_owed(&self) -> bool
        ensures { result ≡ is_some self.now }
    {
        self.is_owed
    }

    /// The two cells.
    pub fn cells(&self) -> Option<(u64, u64)>
        ensures { result ≡ self.now }
    {
        if self.is_owed {
            Some((self.cell, self.next))
        } else {
            None
        }
    }
}
