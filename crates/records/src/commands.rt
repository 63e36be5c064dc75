// A command: at most four changes, by value.
ghost use Rattle.std.specs.Prelude.{◌≡◌, ◌-◌, ◌≤◌, length, drop, replicate, Decides, nat_eq, ◌&&◌};
ghost use Rattle.records.specs.Changes.{no_change, same_change, same_change_equiv};
ghost use Rattle.std.specs.Cmp.{partial_equiv_from_equiv, and_equiv, on_equiv, nat_eq_equiv};
ghost use Rattle.std.specs.Ordering.{on, eq_of_both};
ghost use Rattle.std.specs.Cmp.Lexicographic.{pointwise, lists_equiv};

use lines::changes::Change;

mod bodies;
mod making;

// An array with its length and no vector, since a command is copied whole from a seat into a log and nothing is allocated. The slots past `len` hold the zero change, so that
// equal commands are equal values.
#[derive(Clone, Copy)]
pub struct Command {
    changes: [Change; 4],
    len: usize,
    ghost four: { length changes ≡ 4 },
    ghost short: { len ≤ 4 },
    ghost padded: { drop len changes ≡ replicate (4 - len) no_change },
}

// A command has its four changes already.
#[derive(Clone, Copy, PartialEq, Eq)]
pub struct CommandFull;

// By hand, since a derived `==` does not promise that it decides whether two commands are one value; and so it is with `Eq`.
impl PartialEq for Command {
    ghost eq = { eq_of_both (on (λ c. c.len) nat_eq) (on (λ c. c.changes) (pointwise same_change)) };

    ghost laws = { partial_equiv_from_equiv (and_equiv (on_equiv (λ c. c.len) nat_eq_equiv) (on_equiv (λ c. c.changes) (lists_equiv same_change_equiv))) };

    fn eq(&self, other: &Command) -> bool
        ensures value { result ≡ (nat_eq self.now.len other.now.len && pointwise same_change self.now.changes other.now.changes) }
        ensures decides { Decides result (self.now ≡ other.now) }
    {
        self.len == other.len && self.changes == other.changes
    }
}

impl Eq for Command {
    ghost laws = { and_equiv (on_equiv (λ c. c.len) nat_eq_equiv) (on_equiv (λ c. c.changes) (lists_equiv same_change_equiv)) };
}
