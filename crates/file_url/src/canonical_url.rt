//! Whether a URL is what its own text is read as.
//!
//! - `reads_as_itself(url)`: exactly whether reading the text of the URL by itself gives this URL (`ReadsAsItself`,
//!   `specs/canonical_url/OwnText.antt`).
//!
//! A URL that was read always is, and so is every `http`, `https`, `ws`, `wss` or `ftp` URL; a setter can make others, as a
//! file URL on the host `localhost`, whose text is read as one without a host. The test looks at the host, at the front of
//! the path and at the last byte, and reads nothing again.

mod canonical;

pub use crate::canonical_url::canonical::reads_as_itself;
