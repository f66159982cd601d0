// 01, "Sound": "areas laid out as above". The two clauses of validity that are about the lent areas, asked of any bytes; and parts of any bytes, and whether
// they are zero, which a send asks too.
#![tactic(auto)]

pub mod bytes;
pub mod layout;
pub mod outbox;
