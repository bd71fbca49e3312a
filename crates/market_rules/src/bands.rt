//! Bands of prices.

ghost use Rattle.std.specs.Prelude.{◌≡◌, ℕ, ◌+◌, ◌%◌, ◌<◌, ◌≤◌, ◌^◌, None, length, slice_index_or};
ghost use Rattle.market_rules.specs.declared.bands.Band.{Band};
ghost use Rattle.market_rules.specs.Nearest.{IsGreatest, IsLeast, greatest_allowed, least_allowed};
ghost use Rattle.market_rules.specs.Refusals.{table_refusal};

/// Prices from one on, up to the next band, of which the multiples of a tick are allowed.
#[derive(Clone, Copy, PartialEq, Eq)]
pub struct Band {
    /// The first price, with four implied decimals.
    pub from: u32,
    /// The tick, with four implied decimals.
    pub tick: u32,
}

// The place of the last band that doesn't start above a price.
pub fn place_of(bands: &[Band], price: u64) -> usize
    requires { table_refusal bands.now ≡ None }
    ensures within { result < length bands.now }
    ensures starts { (d : Band) → (slice_index_or bands.now result d).from ≤ price }
    ensures later { (d : Band) → (k : ℕ) → result < k → k < length bands.now → price < (slice_index_or bands.now k d).from }
    ensures tick { (d : Band) → 0 < (slice_index_or bands.now result d).tick }
{
    let mut at = 0;
    for i in 1..bands.len() {
        if u64::from(bands[i].from) <= price {
            at = i;
        }
    }
    at
}

// The greatest allowed price that isn't above a price.
pub fn greatest(bands: &[Band], price: u64) -> u64
    requires { table_refusal bands.now ≡ None }
    ensures extremum { IsGreatest bands.now price result }
    ensures value { result ≡ greatest_allowed bands.now price }
{
    let band = bands[place_of(bands, price)];
    price - price % u64::from(band.tick)
}

// The least multiple of a tick that isn't below a price.
fn next_multiple(price: u64, tick: u32) -> u64
    requires tick { 0 < tick }
    requires small { price < 2 ^ 62 }
    ensures multiple { result % tick ≡ 0 }
    ensures low { price ≤ result }
    ensures high { result < price + tick }
    ensures near { result < price + 2 ^ 32 }
{
    price.next_multiple_of(u64::from(tick))
}

// The least allowed price that isn't below a price: the next multiple of the tick there, but no higher than
// the start of the next band.
pub fn least(bands: &[Band], price: u64) -> u64
    requires accepted { table_refusal bands.now ≡ None }
    requires small { price < 2 ^ 62 }
    ensures extremum { IsLeast bands.now price result }
    ensures value { result ≡ least_allowed bands.now price }
    ensures near { result < price + 2 ^ 32 }
{
    let at = place_of(bands, price);
    let next = next_multiple(price, bands[at].tick);
    if at + 1 < bands.len() {
        next.min(u64::from(bands[at + 1].from))
    } else {
        next
    }
}
