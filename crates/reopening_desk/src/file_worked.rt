//! What the definitions give on worked examples.

ghost use Rattle.std.specs.Prelude.{◌≡◌, ◌∷◌, ◌++◌, [], Ok, Err, codes};
ghost use Rattle.reopen_cross.specs.Worked.{buy, sell, three_sells, two_buys};
ghost use Rattle.reopening_desk.specs.Orders.{orders_of};

/// What small files say in a study of two traders.
pub fn small_files()
    ensures five { orders_of 2 (codes "agent,side,shares,price\n1,B,100,100200\n1,B,200,100100\n2,S,150,100000\n2,S,100,100100\n2,S,100,100200\n") ≡ Ok (two_buys ++ three_sells) }
    ensures spellings { orders_of 2 (codes "agent,side,shares,price\r\n01,B,000007,1\r\n\n\"001\",\"S\",999999,1999999900") ≡ Ok (buy 1 1 7 ∷ sell 2 1999999900 999999 ∷ []) }
    ensures header_alone { orders_of 2 (codes "agent,side,shares,price\n") ≡ Ok [] }
{}

/// The first records that break a rule, in a study of two traders.
pub fn faulty_files()
    ensures nothing { orders_of 2 (codes "\n\n") ≡ Err 0 }
    ensures other_header { orders_of 2 (codes "agent,side,price,shares\n1,B,100,100200\n") ≡ Err 0 }
    ensures three_fields { orders_of 2 (codes "agent,side,shares,price\n1,B,100\n") ≡ Err 1 }
    ensures five_fields { orders_of 2 (codes "agent,side,shares,price\n1,B,100,100200,\n") ≡ Err 1 }
    ensures no_trader { orders_of 2 (codes "agent,side,shares,price\n2,B,100,100200\n3,B,100,100200\n") ≡ Err 2 }
    ensures no_side { orders_of 2 (codes "agent,side,shares,price\n1,b,100,100200\n") ≡ Err 1 }
    ensures no_shares { orders_of 2 (codes "agent,side,shares,price\n1,B,100,100200\n1,B,200,100100\n2,S,0,100000\n") ≡ Err 3 }
    ensures no_price { orders_of 2 (codes "agent,side,shares,price\n1,B,100,1999999901\n") ≡ Err 1 }
{}
