// The sizes of a channel and of a record in bytes, and where their parts stand.
use octets::WORD;
use table::CELLS;
use view::{REPORT, VIEW};
use wire::LONGEST;

// The most messages that a channel holds, and the bytes of a slot.
pub const CAPACITY: usize = 16;

pub const SLOT: usize = LONGEST;

// Where the count stands, the number of the oldest slot, and the slots; and the bytes of a channel.
pub const COUNT_PLACE: usize = 0;

pub const OLDEST_PLACE: usize = COUNT_PLACE + 1;

pub const SLOTS_PLACE: usize = OLDEST_PLACE + 1;

pub const CHANNEL: usize = SLOTS_PLACE + SLOT * CAPACITY;

// Where the parts of a record stand: the numbers, the words of the wait and its report, and the table of tags heard.
pub const N_PLACE: usize = 0;

pub const F_PLACE: usize = N_PLACE + WORD;

pub const OWN_PLACE: usize = F_PLACE + WORD;

pub const MAXTAG_PLACE: usize = OWN_PLACE + WORD;

pub const REQUEST_PLACE: usize = MAXTAG_PLACE + WORD;

pub const KEPT_PLACE: usize = REQUEST_PLACE + WORD;

pub const CODE_PLACE: usize = KEPT_PLACE + WORD;

pub const KIND_PLACE: usize = CODE_PLACE + WORD;

pub const ROUND_PLACE: usize = KIND_PLACE + WORD;

pub const TAG_PLACE: usize = ROUND_PLACE + WORD;

pub const ANSWERED_PLACE: usize = TAG_PLACE + WORD;

pub const LARGEST_PLACE: usize = ANSWERED_PLACE + WORD;

pub const REPORT_PLACE: usize = LARGEST_PLACE + WORD;

pub const HEARD_PLACE: usize = REPORT_PLACE + REPORT;

// The views by number: of the last reports, of those held for `maxtag` and for the open round, and the kept one; how
// many they are, and where the first stands.
pub const LAST_IN: usize = 0;

pub const ATMAX_IN: usize = 1;

pub const ATROUND_IN: usize = 2;

pub const KEPT_IN: usize = 3;

pub const VIEWS: usize = 4;

pub const VIEWS_PLACE: usize = HEARD_PLACE + WORD * CELLS;

// Where each of the first three stands.
pub const LAST_PLACE: usize = VIEWS_PLACE + VIEW * LAST_IN;

pub const ATMAX_PLACE: usize = VIEWS_PLACE + VIEW * ATMAX_IN;

pub const ATROUND_PLACE: usize = VIEWS_PLACE + VIEW * ATROUND_IN;

// The bytes of a record.
pub const RECORD: usize = VIEWS_PLACE + VIEW * VIEWS;
