// A loop over the members of a set, by rising number: `for a in set.names()`.
ghost use Rattle.std.specs.Prelude.{◌≡◌};
ghost use Rattle.std.specs.Iterator.{at_most};
ghost use Rattle.nameset.specs.Set.{size};
ghost use Rattle.nameset.specs.Names.{Steps};

use super::NameSet;

// The members that are still to come.
#[derive(Drop)]
pub struct Names {
    left: NameSet,
}

impl NameSet {
    pub fn names(self) -> Names
        ensures { result.left ≡ self }
    {
        Names { left: self }
    }
}

impl Iterator for Names {
    type Item = usize;

    ghost next_gives = { λ s r t. Steps s.left r t.left };

    ghost remaining = { λ s. at_most (size s.left) };

    fn next(&mut self) -> Option<usize> {
        if self.left.is_empty() {
            return None;
        }
        let name = self.left.first();
        self.left = self.left.rest();
        Some(name)
    }
}
