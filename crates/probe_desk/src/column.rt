//! The columns whose numbers are added up as a run goes on.

/// A column that every table has.
#[derive(Clone, Copy)]
pub enum Column {
    /// The column of the probe `volume`.
    Volume,
    /// That of `spread_sum`.
    SpreadSum,
    /// That of `range`.
    Range,
    /// That of `fees`.
    Fees,
}
