//! Crosses: what a stock's reopening would come to in a state of a branch, if the orders of a file joined its book.

ghost use Rattle.std.specs.Prelude.{◌≡◌, ◌∷◌, [], ◌+◌, ◌<◌, ◌≤◌, ◌^◌, ℕ, List, IfOk, IfSome, length, option_map, string_bytes, unwrap_or};
ghost use Rattle.command_words.specs.Ranges.{IsMark};
ghost use Rattle.reopening_desk.specs.Filed.{AreFiled};
ghost use Rattle.reopening_desk.specs.Reopened.{reopened};
ghost use Rattle.reopening_desk.specs.Stocks.{stock_of};
ghost use Rattle.rewind_desk.specs.Targets.{past_of, target_of};
ghost use Rattle.study_rules.specs.Accepted.{study_told};
ghost use Rattle.abides_run.specs.Fetched.{IsAmong, arguments_of};
ghost use Rattle.abides_run.specs.Output.{Probes};
ghost use Rattle.abides_run.specs.Performed.{Finished, Sent};
ghost use Rattle.abides_run.specs.Rewinds.{IsThere, lasts_of, steps_from, target_state};
ghost use Rattle.abides_run.specs.Verdict.{verdict_on_crossing, verdict_on_late};
ghost use Rattle.command_words.specs.declared.asked.Task.TheVariants as task;

use crate::ending::{Ending, named, nameless};
use crate::found::Simulation;
use crate::rewinds::{no_event, simulate_kept};
use crate::send::{send, sent_status};
use crate::status::Status;
use branch_tree::BranchPlan;
use checkpoint_shelf::ClosedShelf;
use command_words::{Crossing, Mark};
use kernel_copy::laws::courses_stay_in_range;
use kernel_copy::{Checkpoint, Course};
use market_laws::laws::live_orders_of_courses_are_small;
use outside::{Gate, Ledger, Sink, Steps};
use plain_lists::Memory;
use reopen_cross::Interest;
use reopening_desk::{OrdersError, StockNamed, read_orders, reopening, stock_named};
use rewind_desk::{RewindError, Target, branch_named, first_past, rewind};
use std::alloc::Global;
use std::sync::{Arc, Wait};
use std::thread::Threads;

// The bytes of a further file, of which there are none where the words name no file.
pub fn further_text(further: &Option<Vec<u8>>) -> &[u8]
    ensures { result.now ≡ unwrap_or (option_map (λ bytes. bytes.items) further.now) [] }
{
    match further {
        Some(bytes) => bytes.as_slice(),
        None => &[],
    }
}

// The target of a mark, where a branch has its name.
fn target_of(plan: &BranchPlan, mark: &Mark<'_>) -> Option<Target>
    ensures target { result ≡ target_of plan.now.branches mark.now }
    ensures exists { IfSome result (λ t. t.branch < length plan.now.branches) }
    ensures event { IfSome result (λ t. t.event ≡ mark.now.event) }
{
    let branch = branch_named(plan, mark.branch.as_str().as_bytes())?;
    Some(Target {
        branch,
        event: mark.event,
    })
}

// The stock of a study that has a symbol.
fn stock_of(course: &Course, symbol: &str) -> Option<StockNamed>
    ensures named { result ≡ stock_of course.now.opening.stocks symbol.now }
    ensures exists { IfSome result (λ s. s.number < length course.now.opening.stocks) }
{
    stock_named(course.opening().stocks.as_slice(), symbol.as_bytes())
}

// All that is told of a stock's reopening in a target's state, which is reached from the nearest one that the shelf holds.
fn crossed_bytes<L: Ledger>(
    alloc: Global,
    course: &Arc<Course>,
    shelf: &ClosedShelf<Checkpoint>,
    target: Target,
    stock: StockNamed,
    orders: &[Interest],
    steps: &mut Steps<L>,
) -> Result<Vec<u8>, Memory>
    requires shelf { shelf.now.course ≡ course.now.value }
    requires there { IsThere course.now.value target }
    requires count { steps.old + steps_from shelf.now target < 2 ^ 64 }
    requires stock { stock.number < length course.now.value.opening.stocks }
    requires orders { AreFiled orders.now }
    ensures bytes { IfOk result (λ v. v.items ≡ reopened (target_state course.now.value target) stock orders.now) }
    ensures least { steps.old ≤ steps.new }
    ensures most { steps.new ≤ steps.old + steps_from shelf.now target }
{
    courses_stay_in_range();
    live_orders_of_courses_are_small();
    let _ = course.opening();
    let rewound = match rewind(alloc, course, shelf, target.branch, target.event, steps) {
        Ok(rewound) => rewound,
        Err(RewindError::Memory) => return Err(Memory),
        Err(_) => unreachable!(),
    };
    let _ = rewound.kernel.exchange();
    let bytes = reopening(alloc, &rewound.kernel, stock, orders);
    drop(rewound);
    bytes
}

// A question for a stock's reopening: at which state, and with whose orders.
#[derive(Drop)]
struct Question<'a> {
    // The state as it was asked for.
    word: &'a str,
    // The state.
    target: Target,
    // The stock.
    stock: StockNamed,
    // The orders that would join its book.
    orders: &'a [Interest],
}

// Sends all that is told of a stock's reopening in a target's state.
fn send_cross<O: Sink, L: Ledger>(
    alloc: Global,
    course: &Arc<Course>,
    shelf: &ClosedShelf<Checkpoint>,
    target: Target,
    stock: StockNamed,
    orders: &[Interest],
    out: &mut O,
    steps: &mut Steps<L>,
) -> Result<(), Status>
    requires shelf { shelf.now.course ≡ course.now.value }
    requires there { IsThere course.now.value target }
    requires count { steps.old + steps_from shelf.now target < 2 ^ 64 }
    requires stock { stock.number < length course.now.value.opening.stocks }
    requires orders { AreFiled orders.now }
    ensures sent { Sent (reopened (target_state course.now.value target) stock orders.now)
        (O.faults out.old) (O.faults out.new) (O.taken out.old) (O.taken out.new) result }
    ensures least { steps.old ≤ steps.new }
    ensures most { steps.new ≤ steps.old + steps_from shelf.now target }
{
    match crossed_bytes(alloc, course, shelf, target, stock, orders, steps) {
        Ok(bytes) => send(out, &bytes),
        Err(Memory) => Err(Status::Memory),
    }
}

// Has workers simulate each segment of a study once, while so many grid places keep states, and then writes what a stock's
// reopening would come to in a target's state, which the word names.
fn reach_and_cross<R: Threads + Wait + Sync, O: Sink, G: Gate + Sync, D: Ledger + Send>(
    rt: &R,
    alloc: Global,
    simulation: &Simulation,
    question: &Question<'_>,
    out: &mut O,
    gate: &G,
    steps: &mut Steps<D>,
) -> Ending
    requires branch { let course = simulation.now.study.course.value in
        question.now.target.branch < length course.plan.branches }
    requires event { question.now.target.event ≤ 9999999 }
    requires stock { let course = simulation.now.study.course.value in
        question.now.stock.number < length course.opening.stocks }
    requires orders { AreFiled question.now.orders.now }
    requires steps { steps.old ≤ 2 ^ 63 }
    ensures { let asked = question.now in let study = study_told simulation.now.study in
        let past = past_of (lasts_of study.course) (asked.target ∷ []) in
        let places = simulation.now.places in
        (reads : ℕ) (probes : Probes) (arguments : List (List ℕ)) →
        IsAmong asked.word.now arguments → Finished
        (verdict_on_late asked.word.now asked.target asked.stock asked.orders.now places study past)
        probes
        arguments
        (record { reads = reads; writes = O.faults out.old; taken = O.taken out.old; steps = steps.old })
        (record { reads = reads; writes = O.faults out.new; taken = O.taken out.new; steps = steps.new })
        result.status (string_bytes result.name) }
{
    let simulated = match simulate_kept(rt, alloc, simulation, gate, steps) {
        Ok(simulated) => simulated,
        Err(Memory) => return nameless(alloc, Status::Memory),
    };
    if let Some(past) = first_past(&simulated.lasts, &[question.target]) {
        drop(simulated);
        return no_event(alloc, question.word, past.last);
    }
    let shelf = &simulated.shelf;
    let sent = send_cross(
        alloc,
        &simulation.study.course,
        shelf,
        question.target,
        question.stock,
        question.orders,
        out,
        steps,
    );
    drop(simulated);
    nameless(alloc, sent_status(sent))
}

/// Has workers simulate each segment of a study once, while so many grid places keep states, and then writes what a stock's
/// reopening would come to in a state, if the orders that a file's text says joined its book. A branch or a stock that isn't there
/// and a text that breaks a rule are refused before the first step, an event that isn't there before the first byte.
pub fn cross_study<R: Threads + Wait + Sync, O: Sink, G: Gate + Sync, D: Ledger + Send>(
    rt: &R,
    alloc: Global,
    simulation: &Simulation,
    crossing: &Crossing<'_>,
    text: &[u8],
    out: &mut O,
    gate: &G,
    steps: &mut Steps<D>,
) -> Ending
    requires mark { IsMark crossing.now.mark }
    requires steps { steps.old ≤ 2 ^ 63 }
    ensures { let places = simulation.now.places in (reads : ℕ) (probes : Probes) → Finished
        (verdict_on_crossing crossing.now places text.now (study_told simulation.now.study))
        probes
        (arguments_of (task.Cross crossing.now places))
        (record { reads = reads; writes = O.faults out.old; taken = O.taken out.old; steps = steps.old })
        (record { reads = reads; writes = O.faults out.new; taken = O.taken out.new; steps = steps.new })
        result.status (string_bytes result.name) }
{
    let word = crossing.mark.word.as_str();
    let symbol = crossing.symbol.as_str();
    let study = &simulation.study;
    let Some(target) = target_of(study.course.plan(), &crossing.mark) else {
        return named(alloc, Status::NoBranch, word);
    };
    let Some(stock) = stock_of(&study.course, symbol) else {
        return named(alloc, Status::NoStock, symbol);
    };
    let traders = study.course.opening().traders.as_slice().len();
    let orders = match read_orders(alloc, traders, text) {
        Ok(orders) => orders,
        Err(OrdersError::Refused(number)) => {
            return nameless(alloc, Status::BadOrders { number });
        }
        Err(OrdersError::Memory) => return nameless(alloc, Status::Memory),
    };
    let question = Question {
        word,
        target,
        stock,
        orders: &orders,
    };
    let ending = reach_and_cross(rt, alloc, simulation, &question, out, gate, steps);
    drop(orders);
    ending
}
