//! One step at a time, beside the counter of steps.

ghost use Rattle.kernel_core.specs.Step.{Fits};

use super::{one_watcher, opened};
use crate::facts::{equal, holds};
use kernel_core::{Kernel, Opening, Stepped};
use market_types::{End, Trace};
use outside::{Counted, Steps};
use std::alloc::Global;
use std::process::Abort;

// One step, and by how much the counter rose.
fn stepped(
    rt: &impl Abort,
    alloc: Global,
    o: &Opening,
    kernel: &mut Kernel,
    trace: &mut Trace,
) -> (Stepped, u64)
    requires { Fits o.now kernel.old }
    ensures { Fits o.now kernel.new }
{
    let mut steps: Steps<Counted> = Steps::new();
    let answer = kernel.step(alloc, o, trace, &mut steps);
    let ticks = steps.close();
    let told = answer.expect(rt, "out of memory");
    (told, ticks)
}

#[test]
fn a_step_is_one_event_and_one_tick(rt: HostRuntime) {
    let alloc = rt.alloc();
    let o = one_watcher(&rt, alloc, 1005);
    let mut trace = Trace::new(alloc);
    let mut kernel = opened(&rt, alloc, &o);
    let first = stepped(&rt, alloc, &o, &mut kernel, &mut trace);
    let second = stepped(&rt, alloc, &o, &mut kernel, &mut trace);
    let third = stepped(&rt, alloc, &o, &mut kernel, &mut trace);
    holds(&rt, first == (Stepped::Event(1), 1));
    holds(&rt, second == (Stepped::Event(2), 1));
    holds(&rt, third == (Stepped::Ended(End::Closed), 0));
    equal(&rt, trace.len(), 2);
    drop(kernel);
    drop(trace);
    drop(o);
}
