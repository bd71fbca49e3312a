use crate::facts::equal;
use outside::{Gate, HoldGate};

const PASSED: [(u32, u32, bool); 3] = [(3, 2, false), (2, 3, true), (1, 3, false)];

// Segment 2 is held until segment 3 is passed, and no longer than ten turns.
#[test]
fn holds_one_until_another(rt: HostRuntime) {
    for (first, second, exceeded) in PASSED.iter() {
        let gate = HoldGate::new(2, 3, 10);
        gate.pass(0, *first);
        gate.pass(1, *second);
        equal(&rt, (gate.exceeded(), gate.passes()), (*exceeded, 2));
    }
}
