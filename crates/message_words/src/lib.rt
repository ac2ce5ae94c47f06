//! Messages in words, as rows have them. What is printed of a message reads as that message.
//!
//! ```text
//! prepare BALLOT FROM
//! promise BALLOT FROM COVERED { vote POSITION BALLOT VALUE }
//! accept POSITION BALLOT VALUE
//! accepted POSITION BALLOT VALUE
//! chosen { at POSITION VALUE }
//! catchup FROM
//! submit CLIENT NUMBER LEVEL TEXT
//! reply CLIENT NUMBER done POSITION         reply CLIENT NUMBER fault CODE POSITION
//! ask CLIENT NUMBER FLOOR LEVEL TEXT
//! answer CLIENT NUMBER POSITION text TEXT   answer CLIENT NUMBER POSITION fault CODE
//! behind CLIENT NUMBER APPLIED
//! elsewhere CLIENT NUMBER MEMBER
//! ```
//!
//! What stands between `{` and `}` may come again, or not at all. A BALLOT is `ROUND,MEMBER`. A VALUE is `no-op`, or `request CLIENT NUMBER LEVEL TEXT`. A TEXT stands
//! between two grave accents, as `rows::Words::text` reads it. A CODE is the name of a fault. Numbers may be out of the range that members hold to.
#![tactic(auto)]

mod codes;
mod parts;
mod printing;
mod reading;

pub use parts::{read_ballot, read_u8, read_u32, read_value};
pub use printing::{ballot_text, message_text, pairs_text, value_text};
pub use reading::read_message;
