use crate::facts::holds;
use kernel_copy::Tally;

#[test]
fn tallies(rt: HostRuntime) {
    let tally = Tally::new().with(&[255, 255]).with(&[0, 1]);
    let hoped = Tally {
        count: 4,
        total: 511,
    };
    holds(&rt, tally == hoped);
}
