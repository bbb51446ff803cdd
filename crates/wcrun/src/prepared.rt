// A script that can be run, and its run.
use run_model::Run;
use script_types::Script;
use wc_base::List;
use wc_chunk::Chunk;

/// A script that can be run, with the chunks of its chunk files.
#[derive(Drop)]
pub struct Prepared {
    pub script: Script,
    pub media: Vec<List<Chunk>>,
}

/// A script, and the run of it.
#[derive(Drop)]
pub struct Ran {
    pub prepared: Prepared,
    pub run: Run,
}
