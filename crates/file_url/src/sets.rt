//! The bytes that a name of a path escapes in a URL. `is_escaped` (`specs/FileUrls.antt`) writes them out.

use percent_encoding::{AsciiSet, CONTROLS, ascii_set};

/// Controls, and what has a meaning of its own in a URL or its path (this project's profile). Bytes past ASCII are
/// always escaped.
pub const NAME: AsciiSet = ascii_set!(
    CONTROLS
        .add(b' ')
        .add(b'"')
        .add(b'#')
        .add(b'%')
        .add(b'<')
        .add(b'>')
        .add(b'?')
        .add(b'`')
        .add(b'{')
        .add(b'}')
        .add(b'|')
        .add(b'\\')
        .add(b'/')
);
