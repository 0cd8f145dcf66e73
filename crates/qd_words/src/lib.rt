//! The words of a command line: which command they ask for, with which values.
//!
//! The first word names the command. Before a `--`, a word that begins with `-` and is longer than one byte is an
//! option; its value stands behind an `=`, or is the next word, which is no option. All other words, and all behind
//! `--`, are positional. [`ask_of`] reads them, and what they ask for stands in `specs/Asking.antt`.
//!
//! Each command takes `--scheme FILE`; `replay` takes `--cap N` and `--hcap N` too, numbers from 1 to 4096, and
//! `--stripes N`, which is 1, 2, 4, 8 or 16. `gen` takes two numbers and no option, and [`script_ask_of`] reads its words
//! (`specs/Scripts.antt`).
//!
//! `post` and `dump` speak with a server: [`net_ask_of`] reads their words (`specs/NetAsking.antt`). `serve` is one:
//! [`serve_ask_of`] (`specs/ServeAsking.antt`).
#![tactic(auto)]

mod ask;
mod cutting;
mod given;
mod laws;
mod net_ask;
mod net_reading;
mod reading;
mod script;
mod serve_ask;
mod serve_reading;
mod values;

pub use ask::{Ask, Command};
pub use laws::{any_order, any_order_of_a_server, value_behind_equals};
pub use net_ask::{DumpAsk, NetAsk, PostAsk, WantAsk};
pub use net_reading::{is_net, net_ask_of};
pub use reading::ask_of;
pub use script::{ScriptAsk, script_ask_of};
pub use serve_ask::ServeAsk;
pub use serve_reading::serve_ask_of;
