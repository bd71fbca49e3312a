//! What the definitions give on worked examples.

ghost use Rattle.std.specs.Prelude.{◌≡◌, [], ◌∷◌};
ghost use Rattle.latency_model.specs.Worked.{two_groups};
ghost use Rattle.market_types.specs.declared.message.Body.TheVariants as body;
ghost use Rattle.market_floor.specs.declared.posting.Posting.TheVariants.{To, WakeAt};
ghost use Rattle.kernel_core.specs.Post.{nothing_waits, put_back, taken};
ghost use Rattle.kernel_core.specs.Send.{all_sent, injected, sent};
ghost use Rattle.kernel_core.specs.Sendable.{IsGrouped};
ghost use Rattle.kernel_core.specs.MailWorked.{cancel, message, numbered_from, two_agents};

/// From the watcher to the exchange the base is 30 and the jitter 3, the other way 20 and 0. Message 1 has the
/// word 0x903df1a0 of the zero key, whose part of 4 is 2: a question that leaves 7 after 1000 is due at
/// 1000 + 7 + 30 + 2. A wakeup is due when the watcher asks for it.
pub fn sent_messages()
    ensures grouped { IsGrouped two_agents two_groups }
    ensures question { sent two_agents two_groups 1 1000 (numbered_from 1) (To 0 (body.Ask 0) 7) ≡ record { waiting = message 1039 1 1 0 (body.Ask 0) ∷ []; next_seq = 2; dropped = 0 } }
    ensures answer { sent two_agents two_groups 0 1000 (numbered_from 1) (To 1 (body.Ask 0) 7) ≡ record { waiting = message 1027 1 0 1 (body.Ask 0) ∷ []; next_seq = 2; dropped = 0 } }
    ensures wakeup { sent two_agents two_groups 1 1000 (numbered_from 1) (WakeAt 1500) ≡ record { waiting = message 1500 1 1 1 body.Wake ∷ []; next_seq = 2; dropped = 0 } }
    ensures both { all_sent two_agents two_groups 1 1000 (numbered_from 1) (To 0 (body.Ask 0) 7 ∷ WakeAt 1500 ∷ []) ≡
        record { waiting = message 1039 1 1 0 (body.Ask 0) ∷ message 1500 2 1 1 body.Wake ∷ []; next_seq = 3; dropped = 0 } }
{}

/// An injected cancel is due at its own time. It is put back under its own number, and leaves.
pub fn an_injected_order()
    ensures injected { injected 1 1110 cancel nothing_waits ≡ record { waiting = message 1110 0 1 0 (body.Order cancel) ∷ []; next_seq = 1; dropped = 0 } }
    ensures put_back { put_back (injected 1 1110 cancel nothing_waits) (message 1110 0 1 0 (body.Order cancel)) 1120 ≡ record { waiting = message 1120 0 1 0 (body.Order cancel) ∷ []; next_seq = 1; dropped = 0 } }
    ensures taken { taken (injected 1 1110 cancel nothing_waits) (message 1110 0 1 0 (body.Order cancel)) ≡ numbered_from 1 }
{}
