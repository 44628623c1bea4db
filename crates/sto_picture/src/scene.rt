//! What a picture shows.
use sto_lang::Text;
use sto_part::List;
use sto_trace::Steps;

/// A run to be drawn: the names of its script threads and of the parts of the store, its events, and the lines below them that tell how
/// it ended.
#[derive(Drop)]
pub struct Scene {
    pub threads: List<Text>,
    pub parts: List<Text>,
    pub steps: Steps,
    pub values: List<Text>,
}
