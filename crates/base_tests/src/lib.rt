//! Tests of what the kernel and the branches stand on: types, rules, draws, queues, books, codecs, frames, names and shelves.
#![tactic(auto)]

#[cfg(test)]
mod branch_deques_tests;
#[cfg(test)]
mod branch_tree_tests;
#[cfg(test)]
mod bundle_frames_tests;
#[cfg(test)]
mod checkpoint_shelf_tests;
#[cfg(test)]
mod command_words_tests;
#[cfg(test)]
mod draw_streams_tests;
#[cfg(test)]
mod event_queue_tests;
#[cfg(test)]
mod facts;
#[cfg(test)]
mod fundamental_series_tests;
#[cfg(test)]
mod hold_gate_tests;
#[cfg(test)]
mod itch_codec_tests;
#[cfg(test)]
mod latency_model_tests;
#[cfg(test)]
mod market_rules_tests;
#[cfg(test)]
mod market_types_readers_tests;
#[cfg(test)]
mod market_types_tests;
#[cfg(test)]
mod ouch_codec_tests;
#[cfg(test)]
mod outside_tests;
#[cfg(test)]
mod plain_lists_tests;
#[cfg(test)]
mod price_time_book_tests;
#[cfg(test)]
mod probe_desk_tests;
#[cfg(test)]
mod shelf_core_tests;
