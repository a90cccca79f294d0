// The largest counts: of the samples of a window, and of the words that follow from it.
#![tactic(auto)]

// The greatest NW; two samples are a pair.
pub const MOST_SAMPLES: usize = 500;

pub const MOST_PAIRS: usize = (MOST_SAMPLES + 1) / 2;

// A window or a pulse's data set: a word and its pairs.
pub const MOST_RAW: usize = 1 + MOST_PAIRS;

// A channel: three data sets.
pub const MOST_CHANNEL: usize = 3 * MOST_RAW;

pub const CHANNELS: usize = 16;

// The latched counts: the channels', the timer, the triggers.
pub const LATCHED: usize = CHANNELS + 2;

// An event's scalers: a word that says how many, and the latched counts.
pub const TAIL_WORDS: usize = 1 + LATCHED;

// An event: its header, two time words, its channels, its scalers.
pub const MOST_EVENT: usize = 3 + CHANNELS * MOST_CHANNEL + TAIL_WORDS;
