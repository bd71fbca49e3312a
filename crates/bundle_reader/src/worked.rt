//! Laws of frames.

ghost use Rattle.std.specs.Prelude.{◌≡◌, ℕ, List};
ghost use Rattle.market_types.specs.declared.feed.Feed.{Feed};
ghost use Rattle.itch_codec.specs.Frames.{framed};
ghost use Rattle.bundle_frames.specs.Frames.{header_frame, branch_frame, message_frame, event_frame, edit_frame, counts_frame, stock_frame, order_frame, agent_frame, end_frame};
ghost use Rattle.bundle_frames.specs.declared.closing.ClosingCounts.{ClosingCounts};
ghost use Rattle.bundle_frames.specs.declared.closing.ClosingStock.{ClosingStock};
ghost use Rattle.bundle_frames.specs.declared.closing.ClosingOrder.{ClosingOrder};
ghost use Rattle.bundle_frames.specs.declared.closing.ClosingAgent.{ClosingAgent};
ghost use Rattle.bundle_reader.specs.declared.head.EditHead.{EditHead};
ghost use Rattle.bundle_reader.specs.declared.frame.HeaderFrame.{HeaderFrame};
ghost use Rattle.bundle_reader.specs.declared.frame.BranchFrame.{BranchFrame};
ghost use Rattle.bundle_reader.specs.declared.frame.EventFrame.{EventFrame};
ghost use Rattle.bundle_reader.specs.declared.frame.Frame.TheVariants as frame;
ghost use Rattle.bundle_reader.specs.Frames.{payload, event_with, edit_with};

/// What is read as a frame is what is written as one.
#[tactic(auto, unfolding(bundle_frames::specs::Frames::header_frame, bundle_frames::specs::Frames::branch_frame, bundle_frames::specs::Frames::message_frame, bundle_frames::specs::Frames::event_frame, bundle_frames::specs::Frames::edit_frame, bundle_frames::specs::Frames::counts_frame, bundle_frames::specs::Frames::stock_frame, bundle_frames::specs::Frames::order_frame, bundle_frames::specs::Frames::agent_frame, bundle_frames::specs::Frames::end_frame))]
pub fn frames_are_those_that_are_written()
    ensures header { (h : HeaderFrame) → framed (payload (frame.Header h)) ≡ header_frame h.agents h.stocks h.branches }
    ensures branch { (b : BranchFrame) → framed (payload (frame.Branch b)) ≡ branch_frame b.branch b.parent b.stop b.name }
    ensures message { (m : Feed) → framed (payload (frame.Message m)) ≡ message_frame m }
    ensures event { (e : EventFrame) (before after : List Feed) → framed (payload (frame.Event e)) ≡ event_frame (event_with e before after) }
    ensures edit { (d : EditHead) (feed : List Feed) → framed (payload (frame.Edit d)) ≡ edit_frame (edit_with d feed) }
    ensures counts { (c : ClosingCounts) → framed (payload (frame.Counts c)) ≡ counts_frame c }
    ensures stock { (s : ClosingStock) → framed (payload (frame.Stock s)) ≡ stock_frame s }
    ensures order { (o : ClosingOrder) → framed (payload (frame.Order o)) ≡ order_frame o }
    ensures agent { (a : ClosingAgent) → framed (payload (frame.Agent a)) ≡ agent_frame a }
    ensures end { (n : ℕ) → framed (payload (frame.End n)) ≡ end_frame n }
{}
