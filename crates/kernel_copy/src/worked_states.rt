//! Frames of waiting messages on worked examples.

ghost use Rattle.std.specs.Prelude.{◌≡◌, ◌++◌, [], ◌∷◌};
ghost use Rattle.market_types.specs.declared.message.Body.TheVariants as body;
ghost use Rattle.event_queue.specs.InOrder.{in_order};
ghost use Rattle.kernel_core.specs.Worked.{full_run};
ghost use Rattle.market_floor.specs.OpeningWorked.{market, watcher};
ghost use Rattle.bundle_frames.specs.Frames.{closing_frames, waiting_frame};
ghost use Rattle.kernel_copy.specs.Closing.{closing_at};
ghost use Rattle.kernel_copy.specs.States.{state_frames_of};
ghost use Rattle.kernel_copy.specs.Worked.{worked_message};

/// A wakeup and a question that wait, byte by byte.
pub fn a_wakeup_and_a_question()
    ensures wakeup { waiting_frame (worked_message 0x05060708090a0b0c 0x1112131415161718 body.Wake)
        ≡ (0x00 ∷ 0x16 ∷ 0x77 ∷ 0x05 ∷ 0x06 ∷ 0x07 ∷ 0x08 ∷ 0x09 ∷ 0x0a ∷ 0x0b ∷ 0x0c ∷ 0x11 ∷ 0x12 ∷ 0x13 ∷ 0x14 ∷ 0x15
        ∷ 0x16 ∷ 0x17 ∷ 0x18 ∷ 0x21 ∷ 0x22 ∷ 0x23 ∷ 0x24 ∷ 0x77 ∷ []) }
    ensures ask { waiting_frame (worked_message 0x05060708090a0b0c 0x1112131415161718 (body.Ask 0x0809))
        ≡ (0x00 ∷ 0x18 ∷ 0x77 ∷ 0x05 ∷ 0x06 ∷ 0x07 ∷ 0x08 ∷ 0x09 ∷ 0x0a ∷ 0x0b ∷ 0x0c ∷ 0x11 ∷ 0x12 ∷ 0x13 ∷ 0x14 ∷ 0x15
        ∷ 0x16 ∷ 0x17 ∷ 0x18 ∷ 0x21 ∷ 0x22 ∷ 0x23 ∷ 0x24 ∷ 0x61 ∷ 0x08 ∷ 0x09 ∷ []) }
{}

/// A message of a higher number that is due earlier comes first, and of two that are due at one time that of the lower number.
pub fn by_time_and_then_by_number()
    ensures { in_order (worked_message 9 1 body.Wake ∷ worked_message 7 2 body.Wake ∷ worked_message 9 0 body.Wake ∷ [])
        ≡ worked_message 7 2 body.Wake ∷ worked_message 9 0 body.Wake ∷ worked_message 9 1 body.Wake ∷ [] }
{}

/// A market that closes at its opening, before its one watcher wakes: its wakeup waits behind the closing.
pub fn the_empty_run()
    ensures { state_frames_of (market 1000 0 (watcher 2000 ∷ [])) (full_run (market 1000 0 (watcher 2000 ∷ []))).state
        ≡ closing_frames (closing_at (market 1000 0 (watcher 2000 ∷ [])) (full_run (market 1000 0 (watcher 2000 ∷ []))).state)
        ++ waiting_frame (record { time = 2000; seq = 0; from = 1; to = 1; body = body.Wake }) }
{}
