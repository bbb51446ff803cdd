// What a run recorded.
use codec_model::{Entry, Opening, Shown};
use coder_api::SlotEntry;
use report_text::StepResult;
use segmented_list::SegmentedList;
use wc_base::List;
use wc_pool::PoolEntry;

/// What a caller's steps came to, in order.
#[derive(Debug, PartialEq, Drop)]
pub struct CallerTrace {
    pub results: List<StepResult>,
}

/// A codec's history, and what each of its entries showed.
#[derive(Debug, Drop)]
pub struct CodecTrace {
    pub opening: Opening,
    pub entries: SegmentedList<Entry>,
    pub shown: SegmentedList<Shown>,
}

/// All that a run recorded: callers and codecs in the script's order, the history of the pool of media, the registry's, and
/// how many media resources were still held at the end.
#[derive(Debug, Drop)]
pub struct Run {
    pub callers: List<CallerTrace>,
    pub codecs: List<CodecTrace>,
    pub pool: List<PoolEntry>,
    pub slots: List<SlotEntry>,
    pub held: u64,
}
