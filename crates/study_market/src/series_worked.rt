//! What the definitions give on worked examples.

ghost use Rattle.std.specs.Prelude.{◌≡◌, ◌∷◌, [], Some, None, Ok, Err, codes};
ghost use Rattle.study_market.specs.Rows.{read_rows};
ghost use Rattle.study_market.specs.Late.{first_late};
ghost use Rattle.study_market.specs.SeriesWorked.{row, two_stocks};

/// What small files say of two stocks, of which the second goes by rows.
pub fn small_files()
    ensures rows { read_rows two_stocks (codes "symbol,time,value\nXYZ,900,99000\r\n\nXYZ,1500,098000") ≡ Ok ([] ∷ (row 900 99000 ∷ row 1500 98000 ∷ []) ∷ []) }
    ensures header_alone { read_rows two_stocks (codes "\"symbol\",time,value\n") ≡ Ok ([] ∷ [] ∷ []) }
    ensures nothing { read_rows two_stocks (codes "\n\n") ≡ Err 0 }
    ensures other_header { read_rows two_stocks (codes "symbol,\"ti\nme\",value\nXYZ,900,99000\n") ≡ Err 0 }
    ensures by_rule { read_rows two_stocks (codes "symbol,time,value\nXYZ,900,99000\nABM,900,99000\n") ≡ Err 2 }
    ensures two_fields { read_rows two_stocks (codes "symbol,time,value\nXYZ,900\n") ≡ Err 1 }
    ensures not_later { read_rows two_stocks (codes "symbol,time,value\nXYZ,900,99000\nXYZ,900,99000\n") ≡ Err 2 }
    ensures no_price { read_rows two_stocks (codes "symbol,time,value\nXYZ,900,0\n") ≡ Err 1 }
    ensures in_time { first_late 1100 two_stocks ([] ∷ (row 1100 1 ∷ []) ∷ []) ≡ None }
    ensures late { first_late 1099 two_stocks ([] ∷ (row 1100 1 ∷ []) ∷ []) ≡ Some 1 }
{}
