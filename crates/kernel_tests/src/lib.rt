//! Tests of the exchange, of each trader and of the kernel, by worked runs.
#![tactic(auto)]

#[cfg(test)]
mod agent_shell_tests;
#[cfg(test)]
mod exchange_agent_tests;
#[cfg(test)]
mod exchange_examples;
#[cfg(test)]
mod facts;
#[cfg(test)]
mod kernel_examples;
#[cfg(test)]
mod kernel_mail_tests;
#[cfg(test)]
mod market_floor_tests;
#[cfg(test)]
mod market_opening_tests;
#[cfg(test)]
mod quoter_agents_tests;
#[cfg(test)]
mod taker_agents_tests;
#[cfg(test)]
mod tick_tables;
#[cfg(test)]
mod times_tests;
#[cfg(test)]
mod trader_party_tests;
