use ch_conduct::How;
use std::sync::Arc;

/// A client's last line on a session, and the variant that it ran there, where it may keep it.
#[derive(Drop)]
pub struct Last<V: Drop> {
    pub how: Option<How>,
    pub variant: Option<Arc<V>>,
}
