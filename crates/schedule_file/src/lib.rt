//! The schedule file. The crate reads its bytes into a network and a list of directives, or names the first bad line
//! and its fault. In the file of a network alone no line may follow `begin`. The crate also writes a schedule as a file
//! that is read back as the same schedule.
//!
//! A file is cut into lines and words by `text_lines`; a line without words is skipped. The first part describes the
//! network. Each name is declared before its use:
//!
//! | Line | Meaning |
//! |---|---|
//! | `node N`, `node N consolidator` | a node, N from 1 to 65535 |
//! | `link A B REL` | a link; B is `customer`, `provider`, `peer` or `any` to A |
//! | `pref A B V` | the preference, 0 to 1000000, of A for B; a later line replaces an earlier one |
//! | `hold A B` | A holds back its updates to B until a flush |
//! | `prefix PREFIX` | four numbers from 0 to 255 joined by points, `/`, and a length up to 32 |
//! | `hops H` | how many moves, 0 to 65535, a packet may make off the stable tables; 128 without such a line |
//! | `transient deflect`, `transient detour N`, `transient backup` | how such a packet goes on; `deflect` without such a line |
//! | `begin` | ends the first part; may be left out if nothing follows |
//!
//! A later `hops` or `transient` replaces an earlier one. The second part says what happens:
//!
//! | Line | Meaning |
//! |---|---|
//! | `originate N PREFIX`, `withdraw N PREFIX` | N announces the prefix, or gives it up |
//! | `probe N PREFIX` | writes the walk that a packet from N to the prefix would have if nothing else happened |
//! | `prefer A B V` | the preference, 0 to 1000000, of A for its neighbour B from now on |
//! | `deliver A B` | the oldest message on its way from A to B arrives |
//! | `drain N` | at most N deliveries, 1 to 1000000 |
//! | `propose N E` | N starts a ballot on the value of epoch E, 1 to 32 |
//! | `ctl K` | control message K, 1 to 1000000, arrives |
//! | `ctl all N` | at most N control messages, 1 to 1000000 |
//! | `fail A B`, `restore A B` | the link of A and B fails, or works again |
//! | `notice A B` | A closes its session with B, which the link no longer carries |
//! | `open A B` | A opens the session that the link with B carries |
//! | `flush A B` | A sends the updates that it held back from B |
//! | `snap N` | N starts a snapshot |
//! | `crash N`, `restart N` | N crashes, or runs again |
//! | `inject K N PREFIX` | packet K, 1 to 4294967295, starts at N for the prefix |
//! | `hop K` | packet K makes its next move |
//! | `hop K N` | at most N moves, 1 to 1000000, of packet K |
//! | `show rib`, `show log`, `show ctl` | writes the routes, the logs, or the control messages |
//! | `show cut E`, `show closure E`, `show tables E` | writes the cuts of epoch E, 1 to 32, their value, or the stable tables |
//! | `show walk K` | writes the walk of packet K |
//!
//! Numbers are decimal, without sign and leading zeros.
//!
//! If a line has several faults, the first in this order is named: an unknown first word; the wrong side of `begin`;
//! the number of words; from left to right, a word, a number or a prefix that may not stand at its place; an unknown
//! node, an unknown prefix; equal ends; no link; a duplicate; too many. Equal ends of `prefer` count as no link. `show`
//! and `transient` have two or three words, and the second word decides how many. `ctl` with two words takes a number;
//! with three it takes the word `all` and a number. `hop` takes one number or two.
#![tactic(auto)]

pub mod directives;
pub mod laws;
pub mod lines;
pub mod names;
pub mod parser;
pub mod prefixes;
pub mod printing;
pub mod reading;
pub mod spelling;
pub mod table;
pub mod words;

pub use directives::Directive;
pub use lines::{Declaration, Line, Numbered, Schedule};
pub use parser::{ParseEnd, parse, parse_topology};
pub use printing::print;
