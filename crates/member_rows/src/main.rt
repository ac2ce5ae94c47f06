//! `member_rows FILE`: prints which messages a member hears, and what comes of calls of it.
//!
//! `hears MEMBER MEMBERS MESSAGE`: the senders of 0 (the clients) to 4 from whom the message may come to a member, of so many; `-` for nobody.
//!
//! `member MEMBER MEMBERS CALLS`, with ` ; ` between two calls: a member over records in memory; `failing NUMBER LEFT MEMBER MEMBERS CALLS`: over a store that fails in
//! the write of that number (0 is none), and leaves what it was to write (1) or not (0). What each call gives stands between the same marks. Messages and values stand in the
//! words of `message_words`. Where a call is refused memory, it is made again.
//!
//! `begin`, `resend`, `catchup` and `from SENDER MESSAGE` give what is sent, in order, each message after `to MEMBER`, `to all`, `to others` or `to client`; then `told` and
//! the values that are newly learnt; `nothing` where that is nothing. `unheard`: such a message may not come from its sender, and is not drafted; `spent`: no ballot begins;
//! `store`: the store fails; `stopped`: it has failed before. A draft, and what is refused, leave what the member shows as it was; where they do not, it is no row.
//!
//! `stopin CALL`: the member stops inside the write of one of these calls. It gives what would have been sent and told, then `promised` and the ballot that is promised, and is
//! opened again. `reopen`: the member is dropped, and another one opened over its records, of which is said how many writes they had, and how many failed. `promised`,
//! `prefix` (how many positions are learnt without a gap), `learnt POSITION` (`-` for nothing): what shows.
#![tactic(auto)]

mod calls;
mod printing;
mod steps;
mod stores;

use rows::{Answers, RowFault, Words, run_table};
use std::alloc::Global;
use std::process::ExitCode;

/// Ends with the table's exit status: 1 where a row is not understood, and where the file cannot be read or memory is refused.
fn main(rt: HostRuntime) -> ExitCode {
    match run_table(&rt, &mut MemberRows) {
        Ok(status) => ExitCode::from(status),
        Err(_) => ExitCode::from(1),
    }
}

/// The rows on members.
#[derive(Drop)]
struct MemberRows;

impl Answers for MemberRows {
    fn answer(&mut self, alloc: Global, row: &str) -> Result<String, RowFault> {
        let mut words = Words::new(row);
        match words.plain()? {
            "hears" => calls::heard(alloc, &mut words),
            "member" => calls::called(alloc, &mut words),
            "failing" => calls::called_failing(alloc, &mut words),
            _ => Err(RowFault::NotARow),
        }
    }
}
