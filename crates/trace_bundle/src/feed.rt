//! The feed around the entries of a branch.

ghost use Rattle.std.specs.Prelude.{◌≡◌, ◌<◌, ◌++◌, OnOk, length};
ghost use Rattle.bundle_frames.specs.Frames.{feed_frames};
ghost use Rattle.market_floor.specs.Opening.{IsOpening};
ghost use Rattle.trace_bundle.specs.Feed.{directories, directory as directory_of, opening_feed, system_event as system_event_of, trading as trading_of, tradings};

use bundle_frames::Written;
use market_floor::Opening;
use market_types::{Feed, Memory, StockNo, Symbol, Time, What};

pub(crate) fn system_event(time: Time, code: u8) -> Feed
    ensures { result ≡ system_event_of time code }
{
    Feed {
        locate: 0,
        tracking: 0,
        time,
        what: What::System { code },
    }
}

fn directory(time: Time, k: StockNo, stock: Symbol) -> Feed
    requires { k < 65535 }
    ensures { result ≡ directory_of time k stock }
{
    Feed {
        locate: k + 1,
        tracking: 0,
        time,
        what: What::Directory {
            stock,
            category: b'Q',
            financial: b'N',
            lot: 100,
            lots_only: b'N',
            class: b'C',
            sub_type: *b"Z ",
            authenticity: b'T',
            short_sale: b'N',
            ipo: b'N',
            tier: b' ',
            etp: b'N',
            leverage: 0,
            inverse: b'N',
        },
    }
}

// The stock of a number trades.
fn trading(time: Time, k: StockNo, stock: Symbol) -> Feed
    requires { k < 65535 }
    ensures { result ≡ trading_of time k stock }
{
    Feed {
        locate: k + 1,
        tracking: 0,
        time,
        what: What::Trading {
            stock,
            state: b'T',
            reserved: b' ',
            reason: *b"    ",
        },
    }
}

fn put_directories(out: &mut Vec<u8>, o: &Opening) -> Result<(), Memory>
    requires { IsOpening o.now }
    ensures { OnOk result (out.new.items ≡ out.old.items ++ feed_frames (directories o.now (length o.now.stocks))) }
{
    for k in 0..o.stocks.as_slice().len() {
        let symbol = o.stocks.as_slice()[k].symbol;
        directory(o.start, k as StockNo, symbol).put(out)?;
    }
    Ok(())
}

// Appends that all stocks trade.
fn put_tradings(out: &mut Vec<u8>, o: &Opening) -> Result<(), Memory>
    requires { IsOpening o.now }
    ensures { OnOk result (out.new.items ≡ out.old.items ++ feed_frames (tradings o.now (length o.now.stocks))) }
{
    for k in 0..o.stocks.as_slice().len() {
        let symbol = o.stocks.as_slice()[k].symbol;
        trading(o.start, k as StockNo, symbol).put(out)?;
    }
    Ok(())
}

pub(crate) fn put_opening(out: &mut Vec<u8>, o: &Opening) -> Result<(), Memory>
    requires { IsOpening o.now }
    ensures { OnOk result (out.new.items ≡ out.old.items ++ feed_frames (opening_feed o.now)) }
{
    system_event(o.start, b'O').put(out)?;
    put_directories(out, o)?;
    put_tradings(out, o)
}
