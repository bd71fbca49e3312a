//! Each kind of frame from its head and what follows the head.

ghost use Rattle.std.specs.Prelude.{◌≡◌, ◌∷◌, ℕ, IfSome, IfOk, Some, Option};
ghost use Rattle.wire_fields.specs.Wire.{IsInRange};
ghost use Rattle.bundle_reader.specs.Heads.{head_wire};
ghost use Rattle.bundle_reader.specs.declared.head.Head.TheVariants as head;
ghost use Rattle.bundle_reader.specs.declared.frame.Frame.{Frame as FrameOf};
ghost use Rattle.bundle_reader.specs.Parts.{count_of, IsOf};

use crate::frame::{BranchFrame, EventFrame, Frame, HeaderFrame, WaitingFrame};
use crate::numbers::{joined, positions};
use crate::{AgentHead, BranchHead, EventHead, HeaderHead, StockHead, WaitingHead, read_body};
use branch_tree::Name;
use bundle_frames::{ClosingAgent, ClosingStock};
use market_types::{Memory, Sequence};
use std::alloc::Global;

// A header is of version 1.
pub(crate) fn header(h: &HeaderHead, rest: &[u8]) -> Option<Frame>
    requires { IsInRange (head_wire (head.Header h.now)) }
    ensures frame { IfSome result (λ f. (stocks : Option ℕ) → IsOf stocks (head.Header h.now) rest.now f) }
    ensures only { (stocks : Option ℕ) (f : FrameOf) → IsOf stocks (head.Header h.now) rest.now f → result ≡ Some f }
{
    if h.version == 1 && rest.is_empty() {
        Some(Frame::Header(HeaderFrame {
            agents: h.agents,
            stocks: h.stocks,
            branches: h.branches,
        }))
    } else {
        None
    }
}

// A branch has a name of the length that its head says.
pub(crate) fn branch(h: &BranchHead, rest: &[u8]) -> Option<Frame>
    requires { IsInRange (head_wire (head.Branch h.now)) }
    ensures frame { IfSome result (λ f. (stocks : Option ℕ) → IsOf stocks (head.Branch h.now) rest.now f) }
    ensures only { (stocks : Option ℕ) (f : FrameOf) → IsOf stocks (head.Branch h.now) rest.now f → result ≡ Some f }
{
    if rest.len() != usize::from(h.name_length) {
        return None;
    }
    let name = Name::new(rest)?;
    Some(Frame::Branch(BranchFrame {
        branch: h.branch,
        parent: h.parent,
        stop: h.stop,
        name,
    }))
}

// An event with the body of its message, whose letter ends the head.
pub(crate) fn event(h: &EventHead, rest: &[u8], body: &[u8]) -> Option<Frame>
    requires range { IsInRange (head_wire (head.Event h.now)) }
    requires body { body.now ≡ h.now.body ∷ rest.now }
    ensures frame { IfSome result (λ f. (stocks : Option ℕ) → IsOf stocks (head.Event h.now) rest.now f) }
    ensures only { (stocks : Option ℕ) (f : FrameOf) → IsOf stocks (head.Event h.now) rest.now f → result ≡ Some f }
{
    let body = read_body(body)?;
    Some(Frame::Event(EventFrame {
        number: h.number,
        time: h.time,
        seq: h.seq,
        from: h.from,
        to: h.to,
        put_back: h.delivery == b'P',
        until: h.until,
        fee: h.fee.cast_signed(),
        body,
    }))
}

// A waiting message with its body, whose letter ends the head.
pub(crate) fn waiting(h: &WaitingHead, rest: &[u8], body: &[u8]) -> Option<Frame>
    requires range { IsInRange (head_wire (head.Waiting h.now)) }
    requires body { body.now ≡ h.now.body ∷ rest.now }
    ensures frame { IfSome result (λ f. (stocks : Option ℕ) → IsOf stocks (head.Waiting h.now) rest.now f) }
    ensures only { (stocks : Option ℕ) (f : FrameOf) → IsOf stocks (head.Waiting h.now) rest.now f → result ≡ Some f }
{
    let body = read_body(body)?;
    Some(Frame::Waiting(WaitingFrame {
        time: h.time,
        seq: h.seq,
        from: h.from,
        to: h.to,
        body,
    }))
}

// A stock of a closing.
pub(crate) fn stock(h: &StockHead, rest: &[u8]) -> Option<Frame>
    requires { IsInRange (head_wire (head.Stock h.now)) }
    ensures frame { IfSome result (λ f. (stocks : Option ℕ) → IsOf stocks (head.Stock h.now) rest.now f) }
    ensures only { (stocks : Option ℕ) (f : FrameOf) → IsOf stocks (head.Stock h.now) rest.now f → result ≡ Some f }
{
    if !rest.is_empty() {
        return None;
    }
    Some(Frame::Stock(ClosingStock {
        stock: h.stock,
        state: h.state,
        last: h.last,
        matched: h.matched,
        fees: joined(h.fees_high, h.fees_low),
        offset: h.offset.cast_signed(),
        live: h.live,
    }))
}

// How many positions stand in so many bytes: one for each stock, where the stocks are known.
fn position_count(stocks: Option<u16>, length: usize) -> usize
    ensures { result ≡ count_of stocks length }
{
    match stocks {
        Some(stocks) => usize::from(stocks),
        None => length / 8,
    }
}

// An agent of a closing with its positions.
pub(crate) fn agent(
    alloc: Global,
    stocks: Option<u16>,
    h: &AgentHead,
    rest: &[u8],
) -> Result<Option<Frame>, Memory>
    requires { IsInRange (head_wire (head.Agent h.now)) }
    ensures frame { IfOk result (λ o. IfSome o (IsOf stocks (head.Agent h.now) rest.now)) }
    ensures only { (f : FrameOf) → IsOf stocks (head.Agent h.now) rest.now f → IfOk result (λ o. o ≡ Some f) }
{
    let count = position_count(stocks, rest.len());
    if rest.len() != 8 * count {
        return Ok(None);
    }
    let positions = Sequence::new(positions(alloc, count, rest)?);
    Ok(Some(Frame::Agent(ClosingAgent {
        agent: h.agent,
        silenced: h.silenced == b'Y',
        time: h.time,
        tokens: h.tokens,
        draws: h.draws,
        cash: joined(h.cash_high, h.cash_low),
        own_cash: joined(h.own_cash_high, h.own_cash_low),
        own_position: h.own_position.cast_signed(),
        live: h.live,
        quotes: h.quotes,
        positions,
    })))
}
