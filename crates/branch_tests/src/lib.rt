//! Tests of branches: their runs by workers, their bundles written and read, rewinds, sessions and tables; and of reopening
//! crosses, files of orders and rebuilt books.
#![tactic(auto)]

#[cfg(test)]
mod accepted_round_trip_tests;
#[cfg(test)]
mod branch_examples;
#[cfg(test)]
mod branch_tables_tests;
#[cfg(test)]
mod branch_workers_tests;
#[cfg(test)]
mod bundle_reader_tests;
#[cfg(test)]
mod error_texts_tests;
#[cfg(test)]
mod facts;
#[cfg(test)]
mod feed_rebuild_tests;
#[cfg(test)]
mod frame_parts_tests;
#[cfg(test)]
mod frame_reader_tests;
#[cfg(test)]
mod one_worker;
#[cfg(test)]
mod order_file_tests;
#[cfg(test)]
mod reopen_cross_tests;
#[cfg(test)]
mod rewind_examples;
#[cfg(test)]
mod rewind_targets_tests;
#[cfg(test)]
mod session_examples;
#[cfg(test)]
mod small_course;
#[cfg(test)]
mod study_report_tests;
