//! The parts of a closing in order.

ghost use Rattle.bundle_reader.specs.Order.{take_agent, take_order, take_stock};
ghost use Rattle.bundle_reader.specs.Reads.{Puts};

use crate::reading::Misplaced;
use bundle_frames::{Closing, ClosingAgent, ClosingOrder, ClosingStock};

// The next stock of so many.
pub(crate) fn put_stock(
    closing: &mut Closing,
    stocks: u16,
    stock: ClosingStock,
) -> Result<(), Misplaced>
    ensures { Puts (take_stock stocks closing.old stock) closing.new result }
{
    let count = closing.stocks.len();
    if count < usize::from(stocks) && usize::from(stock.stock) == count {
        closing.stocks.push(stock)?;
        Ok(())
    } else {
        Err(Misplaced::Order)
    }
}

// The next live order, behind all stocks and before the agents.
pub(crate) fn put_order(
    closing: &mut Closing,
    stocks: u16,
    order: ClosingOrder,
) -> Result<(), Misplaced>
    ensures { Puts (take_order stocks closing.old order) closing.new result }
{
    if closing.stocks.len() != usize::from(stocks) || closing.agents.len() > 0 {
        return Err(Misplaced::Order);
    }
    closing.orders.push(order)?;
    Ok(())
}

// The next agent of so many, behind all stocks.
pub(crate) fn put_agent(
    closing: &mut Closing,
    stocks: u16,
    agents: u16,
    agent: ClosingAgent,
) -> Result<(), Misplaced>
    ensures { Puts (take_agent stocks agents closing.old agent) closing.new result }
{
    let count = closing.agents.len();
    if closing.stocks.len() != usize::from(stocks)
        || count >= usize::from(agents)
        || usize::from(agent.agent) != count
    {
        drop(agent);
        return Err(Misplaced::Order);
    }
    closing.agents.push(agent)?;
    Ok(())
}
