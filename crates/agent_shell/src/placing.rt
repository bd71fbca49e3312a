//! How an order is sent.

ghost use Rattle.std.specs.Prelude.{◌≡◌, ◌<◌, ◌≤◌, ◌+◌, ◌++◌, OnOk, OnErr};
ghost use Rattle.agent_shell.specs.Ordered.{ordered, enter_of};
ghost use Rattle.agent_shell.specs.Sound.{IsOwn};

use crate::sending::{Sending, Sends};
use crate::shell::{MOST_OWN, Shell};
use crate::wish::{Wish, sent_price};
use market_types::{Body, Enter, Inbound, Memory, Symbol, Token};

// The order that is sent for a wish.
fn enter_of(symbol: Symbol, token: Token, wish: &Wish, price: u32) -> Enter
    ensures { result ≡ enter_of symbol token wish.now price }
{
    Enter {
        token,
        side: wish.side,
        shares: wish.shares,
        stock: symbol,
        price,
        tif: wish.tif,
        firm: *b"ABID",
        display: b'Y',
        capacity: b'P',
        sweep: b'N',
        minimum: 0,
        cross: b'N',
        customer: b'N',
    }
}

/// Sends an order where its price is one and the own list has a place for it. Otherwise it is left out and takes
/// no token.
pub fn send(shell: &mut Shell, symbol: Symbol, wish: Wish, out: &mut Sends)
    requires own { IsOwn shell.old.orders }
    requires tokens { shell.old.orders.tokens < 999999999 }
    requires shares { 0 < wish.shares }
    requires place { 0 < shell.old.spare }
    requires room { 0 < out.old.spare }
    ensures orders { shell.new.orders ≡ (ordered symbol wish shell.old.orders).orders }
    ensures sends { out.new.list ≡ out.old.list ++ (ordered symbol wish shell.old.orders).sends }
    ensures own { IsOwn shell.new.orders }
    ensures agent { shell.new.orders.agent ≡ shell.old.orders.agent }
    ensures tokens { shell.new.orders.tokens ≤ shell.old.orders.tokens + 1 }
    ensures place { shell.old.spare ≤ shell.new.spare + 1 }
    ensures room { out.old.spare ≤ out.new.spare + 1 }
{
    if shell.open_len() >= MOST_OWN {
        return;
    }
    let Some(price) = sent_price(wish.price) else {
        return;
    };
    let token = shell.next_token();
    match shell.join(token, wish.side, wish.shares) {
        Ok(()) => out.put(Sending::To {
            body: Body::Order(Inbound::Enter(enter_of(symbol, token, &wish, price))),
            extra: wish.extra,
        }),
        Err(_) => unreachable!(),
    }
}

/// Keeps places for so many orders, in the own list and among what is sent.
pub fn make_room(shell: &mut Shell, n: usize, out: &mut Sends) -> Result<(), Memory>
    ensures orders { shell.new.orders ≡ shell.old.orders }
    ensures sends { out.new.list ≡ out.old.list }
    ensures places { OnOk result (n ≤ shell.new.spare) }
    ensures room { OnOk result (n ≤ out.new.spare) }
{
    out.reserve(n)?;
    shell.reserve(n)
}
