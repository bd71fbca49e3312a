//! What the definitions give on worked studies.

ghost use Rattle.std.specs.Prelude.{◌≡◌, ◌∷◌, [], Some, codes, option_map, pos, negsuc};
ghost use Rattle.toml.specs.Parse.{parse_document};
ghost use Rattle.market_floor.specs.OpeningWorked.{market_of, watcher};
ghost use Rattle.market_rules.specs.declared.changes.Change.TheVariants.{Tick, Fee, Halt, Resume};
ghost use Rattle.agent_shell.specs.declared.setting.Kind.TheVariants.{Noise, Maker};
ghost use Rattle.fundamental_series.specs.Made.{by_rule, by_rows};
ghost use Rattle.study_market.specs.Opening.{opening_of, stride_of};
ghost use Rattle.study_market.specs.Changes.{changes_of};
ghost use Rattle.study_market.specs.Traders.{traders_of};
ghost use Rattle.study_market.specs.Stocks.{series_of};

/// What a run of a study of two watchers starts from.
pub fn two_watchers()
    ensures opening { option_map (λ t. opening_of t ([] ∷ [])) (parse_document (codes "version = 1\nkey = \"0000000000000000000000000000000000000000000000000000000000000000\"\nopen = 1000\nclose = 1005\nevents = 100\n\n[exchange]\ngroup = 0\ndelay = 0\n\n[latency]\nbase = [[5]]\njitter = [[0]]\n\n[[stock]]\nsymbol = \"ABM\"\nbands = [[0, 100]]\nadd = -20\ntake = 30\nseries = \"rule\"\nstart = 100000\nmean = 100000\npull = 0\nshock = 0\nevery = 1000000\n\n[[agent]]\nkind = \"watcher\"\ngroup = 0\nstock = \"ABM\"\nfirst = 1000\nevery = 1000000\ncount = 2\n")) ≡ Some (market_of 1005 100 0 (watcher 1000 ∷ watcher 1000 ∷ [])) }
    ensures stride { option_map stride_of (parse_document (codes "version = 1\nkey = \"0000000000000000000000000000000000000000000000000000000000000000\"\nopen = 1000\nclose = 1005\nevents = 100\n\n[exchange]\ngroup = 0\ndelay = 0\n\n[latency]\nbase = [[5]]\njitter = [[0]]\n\n[[stock]]\nsymbol = \"ABM\"\nbands = [[0, 100]]\nadd = -20\ntake = 30\nseries = \"rule\"\nstart = 100000\nmean = 100000\npull = 0\nshock = 0\nevery = 1000000\n\n[[agent]]\nkind = \"watcher\"\ngroup = 0\nstock = \"ABM\"\nfirst = 1000\nevery = 1000000\ncount = 2\n")) ≡ Some 10000 }
{}

/// What parts of tables say of two stocks.
pub fn two_stocks()
    ensures changes { option_map changes_of (parse_document (codes "[[stock]]\nsymbol = \"ABM\"\nseries = \"rows\"\n\n[[stock]]\nsymbol = \"XYZ\"\nseries = \"rule\"\n\n[[change]]\ntime = 1500\nstock = \"XYZ\"\nkind = \"tick\"\nbands = [[0, 1], [1000, 5]]\n\n[[change]]\ntime = 1500\nstock = \"ABM\"\nkind = \"fee\"\nadd = -1\ntake = 2\n\n[[change]]\ntime = 1600\nstock = \"XYZ\"\nkind = \"halt\"\n\n[[change]]\ntime = 1700\nstock = \"XYZ\"\nkind = \"resume\"\n")) ≡ Some (record { time = 1500; stock = 1; change = Tick (record { from = 0; tick = 1 } ∷ record { from = 1000; tick = 5 } ∷ []) } ∷ record { time = 1500; stock = 0; change = Fee (record { add = negsuc 0; take = pos 2 }) } ∷ record { time = 1600; stock = 1; change = Halt } ∷ record { time = 1700; stock = 1; change = Resume } ∷ []) }
    ensures traders { option_map traders_of (parse_document (codes "[[stock]]\nsymbol = \"ABM\"\nseries = \"rows\"\n\n[[stock]]\nsymbol = \"XYZ\"\nseries = \"rule\"\n\n[[agent]]\nkind = \"noise\"\ngroup = 1\nstock = \"XYZ\"\nfirst = 1000\nevery = 7\nwobble = 8\ndelay = 9\ncash = -10\ncount = 2\nspread = 50\nsize = 11\n\n[[agent]]\nkind = \"maker\"\ngroup = 0\nstock = \"ABM\"\nfirst = 1001\nevery = 3\nsize = 12\nhalf = 13\nstep = 14\nlevels = 5\npause = 15\n")) ≡ Some (record { kind = Noise 11; group = 1; stock = 1; first = 1000; every = 7; wobble = 8; delay = 9; cash = negsuc 9 } ∷ record { kind = Noise 11; group = 1; stock = 1; first = 1050; every = 7; wobble = 8; delay = 9; cash = negsuc 9 } ∷ record { kind = Maker 12 13 14 5 15; group = 0; stock = 0; first = 1001; every = 3; wobble = 0; delay = 0; cash = pos 0 } ∷ []) }
    ensures series { option_map (λ t. series_of t ((record { time = 900; value = 99000 } ∷ []) ∷ [] ∷ [])) (parse_document (codes "key = \"0102030405060708090a0b0c0d0e0f10000000000000000000000000000000ff\"\nopen = 1000\nclose = 2000\n\n[[stock]]\nsymbol = \"ABM\"\nseries = \"rows\"\n\n[[stock]]\nsymbol = \"XYZ\"\nseries = \"rule\"\nstart = 1\nmean = 2\npull = 3\nshock = 4\nevery = 5\n")) ≡ Some (by_rows (record { time = 900; value = 99000 } ∷ []) ∷ by_rule (record { key = 1 ∷ 2 ∷ 3 ∷ 4 ∷ 5 ∷ 6 ∷ 7 ∷ 8 ∷ 9 ∷ 10 ∷ 11 ∷ 12 ∷ 13 ∷ 14 ∷ 15 ∷ 16 ∷ 0 ∷ 0 ∷ 0 ∷ 0 ∷ 0 ∷ 0 ∷ 0 ∷ 0 ∷ 0 ∷ 0 ∷ 0 ∷ 0 ∷ 0 ∷ 0 ∷ 0 ∷ 255 ∷ []; stock = 1; rule = record { start = 1; mean = 2; pull = 3; shock = 4; every = 5 }; start = 1000; close = 2000 }) ∷ []) }
{}
