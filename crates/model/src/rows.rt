// Chains and models whose rows are borrowed, from a record or from a row of a table. Contracts see the chain and the
// model.
ghost use Rattle.std.specs.Prelude.{◌≡◌};
ghost use Rattle.model.specs.Record.{factor_of, mode_of, model_with};
ghost use Rattle.model.specs.Build.{of_rows};

use super::{Chain, Model, NO_FACTOR, entry};

// A chain with borrowed rows.
#[derive(Drop)]
pub struct ChainRows<'a> {
    count: usize,
    factor: &'a [u8],
    mode: &'a [u8],
}

impl<'a> std::marker::Model for ChainRows<'a> {
    ghost use Rattle.model.specs.declared.Chain.{Chain};

    ghost Value = { Chain };

    ghost use Rattle.model.specs.Build.{of_rows};

    ghost view = { λ r. of_rows r.count r.factor.now r.mode.now };
}

impl<'a> ChainRows<'a> {
    pub fn new(count: usize, factor: &'a [u8], mode: &'a [u8]) -> ChainRows<'a>
        ensures { result ≡ of_rows count factor.now mode.now }
    {
        ChainRows {
            count,
            factor,
            mode,
        }
    }

    pub fn count(&self) -> usize
        ensures { result ≡ self.now.count }
    {
        self.count
    }

    // The factor of each name.
    pub fn factor(&self) -> &'a [u8]
        ensures { result.now ≡ self.now.factor }
    {
        self.factor
    }

    // The mode of each factor.
    pub fn mode(&self) -> &'a [u8]
        ensures { result.now ≡ self.now.mode }
    {
        self.mode
    }

    #[tactic(auto, unfolding(crate::specs::Record::factor_of))]
    pub fn factor_of(&self, x: u8) -> u8
        ensures { result ≡ factor_of self.now x }
    {
        entry(self.factor, x as usize, NO_FACTOR)
    }

    #[tactic(auto, unfolding(crate::specs::Record::mode_of))]
    pub fn mode_of(&self, i: usize) -> u8
        ensures { result ≡ mode_of self.now i }
    {
        entry(self.mode, i, 0)
    }
}

// A model with borrowed rows.
#[derive(Drop)]
pub struct ModelRows<'a> {
    chain: ChainRows<'a>,
    text: u8,
}

impl<'a> std::marker::Model for ModelRows<'a> {
    ghost use Rattle.model.specs.declared.Model.{Model};

    ghost Value = { Model };

    ghost use Rattle.model.specs.Record.{model_with};

    ghost view = { λ r. model_with r.chain r.text };
}

impl<'a> ModelRows<'a> {
    pub fn new(chain: ChainRows<'a>, text: u8) -> ModelRows<'a>
        ensures { result ≡ model_with chain.entry text }
    {
        ModelRows { chain, text }
    }

    pub fn chain(&self) -> &ChainRows<'a>
        ensures { result.now ≡ self.now.chain }
    {
        &self.chain
    }

    pub fn text(&self) -> u8
        ensures { result ≡ self.now.text }
    {
        self.text
    }
}

impl Chain {
    pub fn rows(&self) -> ChainRows<'_>
        ensures { result ≡ self.now }
    {
        ChainRows::new(self.count, &self.factor, &self.mode)
    }
}

impl Model {
    pub fn rows(&self) -> ModelRows<'_>
        ensures { result ≡ self.now }
    {
        ModelRows::new(self.chain.rows(), self.text)
    }
}
