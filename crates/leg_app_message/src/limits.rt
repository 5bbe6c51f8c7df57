//! The limits that messages name are those that hold.

use leg_design_records::{ENTRY_LIMIT, PART_LIMIT};
use leg_lex::{MILLIONTHS_LIMIT, NUMBER_LIMIT, TEXT_LIMIT, UNITS_LIMIT};

const _: () = prove!(TEXT_LIMIT == 268_435_456);

const _: () = prove!(NUMBER_LIMIT == 2_000_000_000 && MILLIONTHS_LIMIT == 2_000_000_000_000_000);

const _: () = prove!(UNITS_LIMIT == 20_000);

const _: () = prove!(ENTRY_LIMIT == 200_000 && PART_LIMIT == 4_000_000);
