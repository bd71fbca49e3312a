//! Fees.

ghost use Rattle.std.specs.Prelude.{◌≡◌, ◌<◌};
ghost use Rattle.market_rules.specs.Fees.{fee_of};

/// What a match costs each side, in millionths of a dollar a share; a negative fee is a rebate.
#[derive(Clone, Copy, PartialEq, Eq)]
pub struct FeeTable {
    /// For the order that rested and added liquidity.
    pub add: i32,
    /// For the order that came and took liquidity.
    pub take: i32,
}

impl FeeTable {
    /// The fee for so many shares, in millionths of a dollar. The liquidity flag is `A` for the order that
    /// added; any other is the one that took.
    pub fn fee(&self, flag: u8, shares: u32) -> i64
        requires { shares < 1000000 }
        ensures { result ≡ fee_of self.now flag shares }
    {
        let each = if flag == b'A' { self.add } else { self.take };
        i64::from(each) * i64::from(shares)
    }
}
