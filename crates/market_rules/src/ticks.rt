//! Tick tables.

ghost use Rattle.std.specs.Prelude.{◌≡◌, ◌<◌, ◌≤ℤ◌, pos, IfOk, IfErr, IfSome, IfNone, Err, None};
ghost use Rattle.market_rules.specs.Nearest.{IsDown, IsUp, down_of, up_of};
ghost use Rattle.market_rules.specs.Refusals.{table_refusal};
ghost use Rattle.market_rules.specs.Ticks.{tick_of, is_allowed};

use crate::bands::{Band, greatest, least, place_of};
use crate::error::RuleError;
use crate::refusals::refusal_of;
use market_types::{Memory, copied};
use std::alloc::Global;
use std::marker::Model;

/// Bands of prices, each with its tick.
///
/// The first band starts at 0 and each other above the one before it, at a multiple of its own tick. All prices
/// are in dollars with four implied decimals.
#[derive(Drop)]
pub struct TickTable {
    bands: Vec<Band>,
}

impl Model for TickTable {
    ghost use Rattle.std.specs.Prelude.{◌≡◌, List, None};
    ghost use Rattle.market_rules.specs.declared.bands.Band.{Band};
    ghost use Rattle.market_rules.specs.Refusals.{table_refusal};

    ghost Value = { List Band };

    ghost view = { λ t. t.bands.items };

    ghost invariant = { λ t. table_refusal t.bands.items ≡ None };
}

impl PartialEq for TickTable {
    ghost use Rattle.std.specs.Cmp.Lexicographic.{pointwise};
    ghost use Rattle.std.specs.Cmp.Rules.{comparing};
    ghost use Rattle.std.proofs.Common.{rules};
    ghost use Rattle.market_rules.specs.Ticks.{is_same_band};

    ghost eq = { pointwise is_same_band };

    ghost laws = { Prim.search (comparing, rules) };

    fn eq(&self, other: &TickTable) -> bool {
        self.bands.as_slice() == other.bands.as_slice()
    }
}

impl Eq for TickTable {
    ghost use Rattle.std.specs.Cmp.Rules.{comparing};
    ghost use Rattle.std.proofs.Common.{rules};

    ghost laws = { Prim.search (comparing, rules) };
}

impl TickTable {
    /// Copies the bands, or says why they are no tick table.
    pub fn new(alloc: Global, bands: &[Band]) -> Result<TickTable, RuleError>
        ensures refused { IfSome (table_refusal bands.now) (λ e. result ≡ Err e) }
        ensures made { IfOk result (λ t. t ≡ bands.now) }
        ensures memory { IfNone (table_refusal bands.now) (IfErr result (λ e. e ≡ RuleError.Memory)) }
    {
        if let Some(refusal) = refusal_of(bands) {
            return Err(refusal);
        }
        match copied(alloc, bands) {
            Ok(bands) => Ok(TickTable { bands }),
            Err(Memory) => Err(RuleError::Memory),
        }
    }

    /// The bands in order.
    pub fn bands(&self) -> &[Band]
        ensures value { result.now ≡ self.now }
        ensures accepted { table_refusal result.now ≡ None }
    {
        self.bands.as_slice()
    }

    /// The tick at a price: that of the last band that doesn't start above it.
    pub fn tick_at(&self, price: u32) -> u32
        ensures value { result ≡ tick_of self.now price }
        ensures positive { 0 < result }
    {
        let bands = self.bands.as_slice();
        bands[place_of(bands, u64::from(price))].tick
    }

    /// Whether a price is a multiple of its tick.
    pub fn allowed(&self, price: u32) -> bool
        ensures { result ≡ is_allowed self.now price }
    {
        price % self.tick_at(price) == 0
    }

    /// The greatest allowed price that isn't above a number, and 0 below 0.
    pub fn down(&self, price: i64) -> i64
        requires { price ≤ℤ pos 20000000000 }
        ensures extremum { IsDown self.now price result }
        ensures value { result ≡ down_of self.now price }
    {
        if price < 0 {
            return 0;
        }
        greatest(self.bands.as_slice(), price as u64) as i64
    }

    /// The least allowed price that isn't below a number, and 0 below 0.
    pub fn up(&self, price: i64) -> i64
        requires { price ≤ℤ pos 20000000000 }
        ensures extremum { IsUp self.now price result }
        ensures value { result ≡ up_of self.now price }
    {
        if price < 0 {
            return 0;
        }
        least(self.bands.as_slice(), price as u64) as i64
    }

    /// An equal table.
    pub fn copy(&self, alloc: Global) -> Result<TickTable, Memory>
        ensures { IfOk result (λ t. t ≡ self.now) }
    {
        let bands = copied(alloc, self.bands.as_slice())?;
        Ok(TickTable { bands })
    }
}
