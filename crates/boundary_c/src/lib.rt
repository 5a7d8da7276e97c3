// The archive that C links: each entry of the crate `boundary` by C's calling convention, under the same name and with the same promise.
#![tactic(auto)]

mod benches;
mod console;
mod controller;
mod lists;
mod packets;
mod records;
mod version;
