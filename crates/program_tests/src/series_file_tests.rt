//! Series files of a study with a stock by rule and two by rows.

use crate::facts::{equal, holds};
use study_file::{list_at, read_tables};
use study_market::{late_stock, read_series};

const STOCKS: &[u8] = b"stock = [
  { symbol = \"ABM\", series = \"rule\" },
  { symbol = \"XYZ\", series = \"rows\" },
  { symbol = \"Q\", series = \"rows\" },
]
";

#[test]
fn rows_are_read(rt: HostRuntime) {
    let alloc = rt.alloc();
    let Ok(raw) = read_tables(alloc, STOCKS) else {
        panic!(rt; "no tables");
    };
    let stocks = list_at(&raw.table, "stock");
    assert!(rt; stocks.len() == 3);
    let text = b"symbol,time,value\nQ,5,7\nXYZ,00900,99000\n\n\"Q\",6,1999999900\r\n";
    let Ok(tables) = read_series(alloc, stocks, text) else {
        panic!(rt; "no rows");
    };
    holds(&rt, tables.rows(0).is_empty() && tables.rows(3).is_empty());
    holds(
        &rt,
        tables.rows(1).len() == 1 && tables.rows(1)[0].time == 900,
    );
    holds(
        &rt,
        tables.rows(2).len() == 2 && tables.rows(2)[1].value == 1_999_999_900,
    );
    equal(&rt, late_stock(5, stocks, &tables), Some(1));
    equal(&rt, late_stock(4, stocks, &tables), Some(1));
    equal(&rt, late_stock(900, stocks, &tables), None);
}
