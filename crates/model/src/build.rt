// The chain under construction: a factor is appended to it, and it is handed back.
ghost use Rattle.std.specs.Prelude.{◌≡◌, ◌<◌};
ghost use Rattle.nameset.specs.Places.{places};
ghost use Rattle.nameset.specs.Set.{member};
ghost use Rattle.model.specs.Record.{empty_chain, empty_model};
ghost use Rattle.model.specs.Build.{with_factor};

use super::{Chain, Model, NO_FACTOR};
use nameset::{NameSet, PLACES};

impl Chain {
    // The chain with no factor.
    #[tactic(auto, unfolding(crate::specs::Record::empty_chain))]
    pub fn empty() -> Chain
        ensures { result ≡ empty_chain places }
    {
        Chain {
            count: 0,
            factor: [NO_FACTOR; PLACES],
            mode: [0; PLACES],
        }
    }

    // The chain with one factor more, behind the others. Its names are in no factor yet, or leave the one that they
    // are in.
    pub fn with_factor(self, names: NameSet, mode: u8) -> Chain
        requires { self.count < places }
        ensures { result ≡ with_factor self (member names) mode }
    {
        let count = self.count;
        let own = count as u8;
        let mut factor = self.factor;
        for x in names.names() {
            factor[x] = own;
        }
        let mut modes = self.mode;
        modes[count] = mode;
        Chain {
            count: count + 1,
            factor,
            mode: modes,
        }
    }
}

impl Model {
    // The model with no factor and no text.
    #[tactic(auto, unfolding(crate::specs::Record::empty_model))]
    pub fn empty() -> Model
        ensures { result ≡ empty_model places }
    {
        Model {
            chain: Chain::empty(),
            text: 0,
        }
    }
}
