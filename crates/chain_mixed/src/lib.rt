// The chain of a parent with text (paper 02, U5): one starred factor of the names that stand in its words.
#![tactic(auto)]

ghost use Rattle.std.specs.Prelude.{◌≡◌, Bool, ◌≤◌};
ghost use Rattle.nameset.specs.Places.{places};
ghost use Rattle.nameset.specs.declared.NameSet.{NameSet};
ghost use Rattle.nameset.specs.Rows.{IsRows};
ghost use Rattle.follow.specs.View.{view_of, facts_with};
ghost use Rattle.chain_peel.specs.Shown.{Shown};
ghost use Rattle.chain_mixed.specs.Mixed.{mixed_chain};

use chain_factors::with_any;
use chain_rows::with_rows;
use model::Chain;
use nameset::NameSet;

// The mode of a factor whose names may come any number of times.
const STARRED: u8 = 3;

// The chain of a parent with text, from the names that start its words and those that follow others in them. Which
// names end a word, and whether one is empty, makes no difference.
pub fn mixed_chain(starts: NameSet, follows: &[u64], n: usize) -> Chain
    requires { (n ≤ places) × IsRows places follows.now }
    ensures { (ends : NameSet) (empty : Bool) → Shown (view_of n (facts_with starts ends follows.now empty))
        → result ≡ mixed_chain places (view_of n (facts_with starts ends follows.now empty)) }
{
    let names = with_rows(starts, follows, n);
    with_any(Chain::empty(), names, STARRED)
}
