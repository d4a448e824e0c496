// The text of the listing: its lines put into a buffer, and each buffer full printed or summed.
#![tactic(auto)]

pub mod lines;
pub mod print;
mod receiver;
pub mod sink;
mod text;
